//! Cases of sheets: on the shape and off it, their texts, and what their commands, rules and upcasters make.
//!
//! Each line of the input is a case, and the same line of the output is its answer. `frame TEXT` sets a text in which `~` stands for a piece, and
//! `new PIECE` reads the text with a piece in that place: `refused`, or `kept` where the sheet is written so, or else what it is written as.
#![tactic(auto)]

mod asked;
mod decisions;
mod rows;
mod rules;
mod sheets;
mod tables;

use crate::asked::{Asked, read_asked};
use crate::sheets::Sheets;
use ax_case_lines::{CaseFault, CaseLine, Cases, perform_all};
use ax_projections::Table;
use ax_rules::Row;
use ax_values::Cell;
use std::alloc::Global;
use std::io;

/// What earlier lines have set.
#[derive(Drop)]
struct SheetCases {
    sheets: Sheets,
    row: Row,
    cells: Vec<Cell>,
    table: Table,
}

impl Cases for SheetCases {
    fn start(alloc: Global) -> SheetCases {
        SheetCases {
            sheets: Sheets::new(alloc),
            row: Row::new(alloc),
            cells: Vec::new(alloc),
            table: Table::new(alloc),
        }
    }

    fn perform(&mut self, word: &[u8], line: &mut CaseLine) -> Result<(), CaseFault> {
        match read_asked(word).ok_or(CaseFault::Line)? {
            Asked::Sheet(sheet) => self.sheets.perform(sheet, line),
            Asked::Decision(decision) => {
                decisions::perform(self.sheets.get()?, &mut self.row, decision, line)
            }
            Asked::Rule(rule) => rules::perform(self.sheets.get()?, rule, line),
            Asked::Row(row) => rows::perform(&mut self.cells, &self.sheets, row, line),
            Asked::Table(table) => tables::perform(&mut self.table, table, line),
        }
    }
}

fn main(rt: HostRuntime) -> io::Result<()> {
    perform_all::<HostRuntime, SheetCases>(&rt)
}
