use crate::{Duplicate, Name, NoMemory, Record};
use std::alloc::Global;

/// A place of the log.
#[derive(Drop)]
pub enum Cell {
    /// Reserved for events of the aggregate, numbered from `first_seq`, by the actor at the moment `at`, in milliseconds.
    Reserved {
        aggregate: Name,
        first_seq: u32,
        actor: Name,
        at: u64,
    },
    /// Given up for ever.
    Void,
    Event(Record),
}

impl Duplicate for Cell {
    fn copy(&self, alloc: Global) -> Result<Cell, NoMemory> {
        match self {
            Cell::Reserved {
                aggregate,
                first_seq,
                actor,
                at,
            } => Ok(Cell::Reserved {
                aggregate: aggregate.copy(alloc)?,
                first_seq: *first_seq,
                actor: actor.copy(alloc)?,
                at: *at,
            }),
            Cell::Void => Ok(Cell::Void),
            Cell::Event(record) => Ok(Cell::Event(record.copy(alloc)?)),
        }
    }
}
