//! Cases of batches: what becomes of each item under both policies, by the rules of the projection `balance` of the gift cards.
//!
//! Each line of the input is a case, and the same line of the output is its answer. `batch` begins anew; `member`, `item` and `marked`
//! add to the next share, which `share` and `parked-share` end; `keep` and `drop` handle all shares under that policy.
#![tactic(auto)]

mod batch;
mod handled;
mod items;
mod shares;

use crate::batch::Batch;
use ax_case_lines::{CaseFault, CaseLine, Cases, case_named, name_of, perform_all};
use ax_rules::Rules;
use ax_sheet::Sheet;
use std::alloc::Global;
use std::{io, mem};

/// What is done with a batch.
#[derive(Clone, Copy)]
pub(crate) enum BatchCase {
    New,
    Member,
    Item,
    Marked,
    Share,
    ParkedShare,
    Keep,
    Drop,
}

/// What a line's word asks for.
fn named(word: &[u8]) -> Option<BatchCase> {
    case_named!(word;
        b"batch" => BatchCase::New,
        b"member" => BatchCase::Member,
        b"item" => BatchCase::Item,
        b"marked" => BatchCase::Marked,
        b"share" => BatchCase::Share,
        b"parked-share" => BatchCase::ParkedShare,
        b"keep" => BatchCase::Keep,
        b"drop" => BatchCase::Drop
    )
}

/// The gift cards, and the batch that earlier lines have made.
#[derive(Drop)]
struct BatchCases {
    sheet: Option<Sheet>,
    batch: Batch,
}

impl BatchCases {
    /// Begins a new batch.
    fn begin(&mut self, alloc: Global) {
        drop(mem::replace(&mut self.batch, Batch::new(alloc)));
    }

    /// The rules of the balance of gift cards.
    fn rules(&self, alloc: Global) -> Result<&Rules, CaseFault> {
        let sheet = self.sheet.as_ref().ok_or(CaseFault::Line)?;
        let name = name_of(alloc, b"balance")?;
        let rules = sheet.projection(&name);
        drop(name);
        rules.ok_or(CaseFault::Line)
    }
}

impl Cases for BatchCases {
    fn start(alloc: Global) -> BatchCases {
        BatchCases {
            sheet: Sheet::cards(alloc).ok(),
            batch: Batch::new(alloc),
        }
    }

    fn perform(&mut self, word: &[u8], line: &mut CaseLine) -> Result<(), CaseFault> {
        let batch = &mut self.batch;
        match named(word).ok_or(CaseFault::Line)? {
            BatchCase::New => {
                self.begin(line.alloc);
                Ok(())
            }
            BatchCase::Member => batch.add_member(line),
            BatchCase::Item => batch.add_item(false, line),
            BatchCase::Marked => batch.add_item(true, line),
            BatchCase::Share => batch.add_share(false, line),
            BatchCase::ParkedShare => batch.add_share(true, line),
            BatchCase::Keep => handled::show(self.rules(line.alloc)?, true, &self.batch, line),
            BatchCase::Drop => handled::show(self.rules(line.alloc)?, false, &self.batch, line),
        }
    }
}

fn main(rt: HostRuntime) -> io::Result<()> {
    perform_all::<HostRuntime, BatchCases>(&rt)
}
