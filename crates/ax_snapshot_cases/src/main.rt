//! Cases of states that are read from snapshots: how many steps a snapshot saves, and that the state is the same without it.
//!
//! Each line of the input is a case, and the same line of the output is its answer. `events` begins a new list of events, and `event`
//! adds one; `snapshot` and `load` go over the whole list, by the projection `balance` and the upcasters of the gift cards.
#![tactic(auto)]

mod counts;
mod events;
mod loads;
mod written;

use crate::events::{Coming, event_of};
use ax_case_lines::{CaseFault, CaseLine, Cases, case_named, perform_all};
use ax_sheet::Sheet;
use std::alloc::Global;
use std::io;

/// What is done with events and snapshots.
#[derive(Clone, Copy)]
pub(crate) enum SnapshotCase {
    Events,
    Event,
    Snapshot,
    Load,
}

/// What a line's word asks for.
fn named(word: &[u8]) -> Option<SnapshotCase> {
    case_named!(word;
        b"events" => SnapshotCase::Events,
        b"event" => SnapshotCase::Event,
        b"snapshot" => SnapshotCase::Snapshot,
        b"load" => SnapshotCase::Load
    )
}

/// The gift cards, and the events that earlier lines have added.
#[derive(Drop)]
struct SnapshotCases {
    sheet: Option<Sheet>,
    events: Vec<Coming>,
}

impl Cases for SnapshotCases {
    fn start(alloc: Global) -> SnapshotCases {
        SnapshotCases {
            sheet: Sheet::cards(alloc).ok(),
            events: Vec::new(alloc),
        }
    }

    fn perform(&mut self, word: &[u8], line: &mut CaseLine) -> Result<(), CaseFault> {
        let case = named(word).ok_or(CaseFault::Line)?;
        let sheet = self.sheet.as_ref().ok_or(CaseFault::Line)?;
        match case {
            SnapshotCase::Events => {
                self.events.clear();
                Ok(())
            }
            SnapshotCase::Event => {
                let event = event_of(line.alloc, &line.text)?;
                Ok(self.events.push(event)?)
            }
            SnapshotCase::Snapshot => written::write_taken(sheet, &self.events, line),
            SnapshotCase::Load => written::write_loaded(sheet, &self.events, line),
        }
    }
}

fn main(rt: HostRuntime) -> io::Result<()> {
    perform_all::<HostRuntime, SnapshotCases>(&rt)
}
