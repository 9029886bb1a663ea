ghost use Rattle.std.specs.Prelude.{◌≡◌, []};

use crate::Desk;
use ax_claims::Rows;
use ax_journal::{Lines, Reply};
use ax_log::CellPuts;
use ax_projections::Positioned;
use ax_values::{ItemName, ListOf, Name};
use std::alloc::Global;

/// One change of the world.
#[derive(Drop)]
pub enum Edit {
    /// The clock, in milliseconds.
    Clock(u64),
    /// The counter of fences.
    Fence(u64),
    /// Puts the cells into the log, in order.
    Cells(CellPuts),
    SetRows {
        processor: u32,
        rows: Rows,
    },
    /// Puts the row in the place of the aggregate's, or adds it.
    PutRow {
        processor: u32,
        aggregate: Name,
        value: Positioned,
    },
    /// Whether the processor keeps a failed item as a letter, or else drops it.
    SetPolicy {
        processor: u32,
        keep: bool,
    },
    /// Marks an item, so that it fails in the processor. Where it is marked, it stays so.
    PutMark {
        processor: u32,
        item: ItemName,
    },
    /// Takes the mark of an item away. Where it has none, nothing changes.
    RemoveMark {
        processor: u32,
        item: ItemName,
    },
    SetDesk {
        actor: u32,
        desk: Desk,
    },
}

/// Changes that are made one after another.
pub type Edits = ListOf<Edit>;

/// What a step makes of the world: its changes, the reply, and the lines of its report.
#[derive(Drop)]
pub struct Move {
    pub edits: Edits,
    pub reply: Reply,
    pub report: Lines,
}

impl Move {
    /// Changes nothing.
    pub fn without_edits(alloc: Global, reply: Reply) -> Move
        ensures { result ≡ record { edits = []; reply = reply; report = [] } }
    {
        Move::of(alloc, Edits::new(alloc), reply)
    }

    /// Makes these changes, without a report.
    pub fn of(alloc: Global, edits: Edits, reply: Reply) -> Move
        ensures { result ≡ record { edits = edits; reply = reply; report = [] } }
    {
        Move {
            edits,
            reply,
            report: Lines::new(alloc),
        }
    }
}
