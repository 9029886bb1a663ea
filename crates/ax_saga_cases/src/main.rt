//! Cases of sagas: what items start, what they do to the sagas that there are, and what these send.
//!
//! Each line of the input is a case, and the same line of the output is its answer. `sheet TEXT` reads a sheet, and forgets all sagas.
//! `begin RULES ITEM KIND PAYLOAD` is the saga that an item starts by the rules of a saga of the sheet, and `receive RULES SAGA ITEM KIND PAYLOAD`
//! what an item does to a saga: `none`, or the saga as it is then, and, each after a `;`, the commands that it sends.
//! `expects SAGA KEY VALUE` is whether a saga is live with this association, and `sagas` are the names of all.
#![tactic(auto)]

mod sagas;
mod written;

use crate::sagas::Sagas;
use ax_case_lines::{CaseFault, CaseLine, Cases, case_named, first_word, name_of, perform_all};
use ax_rules::SagaRules;
use ax_sheet::{Sheet, SheetFault};
use std::alloc::Global;
use std::{io, mem};

/// What a line asks for.
#[derive(Clone, Copy)]
pub(crate) enum Asked {
    Sheet,
    Begin,
    Receive,
    Expects,
    Sagas,
}

/// What a line's word asks for.
fn named(word: &[u8]) -> Option<Asked> {
    case_named!(word;
        b"sheet" => Asked::Sheet,
        b"begin" => Asked::Begin,
        b"receive" => Asked::Receive,
        b"expects" => Asked::Expects,
        b"sagas" => Asked::Sagas
    )
}

/// The sheet and the sagas that earlier lines have made.
#[derive(Drop)]
struct SagaCases {
    sheet: Option<Sheet>,
    sagas: Sagas,
}

impl SagaCases {
    /// Reads the sheet that a text is, and forgets all sagas.
    fn read(&mut self, alloc: Global, text: &[u8]) -> Result<(), CaseFault> {
        let sheet = sheet_of(alloc, text)?;
        drop(mem::replace(&mut self.sheet, Some(sheet)));
        drop(mem::replace(&mut self.sagas, Sagas::new(alloc)));
        Ok(())
    }
}

fn sheet_of(alloc: Global, text: &[u8]) -> Result<Sheet, CaseFault> {
    match Sheet::read(alloc, text) {
        Ok(sheet) => Ok(sheet),
        Err(SheetFault::Refused) => Err(CaseFault::Line),
        Err(SheetFault::Memory) => Err(CaseFault::Memory),
    }
}

/// The rules of the saga that the first word of what is asked for names.
fn rules_of<'a>(sheet: Option<&'a Sheet>, line: &CaseLine) -> Result<&'a SagaRules, CaseFault> {
    let sheet = sheet.ok_or(CaseFault::Line)?;
    let (word, _) = first_word(&line.text);
    let name = name_of(line.alloc, word)?;
    let rules = sheet.saga(&name);
    drop(name);
    rules.ok_or(CaseFault::Line)
}

impl Cases for SagaCases {
    fn start(alloc: Global) -> SagaCases {
        SagaCases {
            sheet: None,
            sagas: Sagas::new(alloc),
        }
    }

    fn perform(&mut self, word: &[u8], line: &mut CaseLine) -> Result<(), CaseFault> {
        match named(word).ok_or(CaseFault::Line)? {
            Asked::Sheet => self.read(line.alloc, &line.text),
            Asked::Begin => {
                let rules = rules_of(self.sheet.as_ref(), line)?;
                self.sagas.begin(rules, line)
            }
            Asked::Receive => {
                let rules = rules_of(self.sheet.as_ref(), line)?;
                self.sagas.receive(rules, line)
            }
            Asked::Expects => self.sagas.ask(line),
            Asked::Sagas => Ok(self.sagas.write_names(&mut line.out)?),
        }
    }
}

fn main(rt: HostRuntime) -> io::Result<()> {
    perform_all::<HostRuntime, SagaCases>(&rt)
}
