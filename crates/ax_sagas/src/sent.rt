use ax_values::{Duplicate, ItemName, ListOf, Name, NoMemory, Payload};
use std::alloc::Global;

/// A command that a saga sends to an aggregate.
#[derive(Drop)]
pub struct Sending {
    pub aggregate: Name,
    pub command: Name,
    pub args: Payload,
}

pub type Sends = ListOf<Sending>;

/// What has become of a command that was sent.
#[derive(Clone, Copy)]
pub enum Delivery {
    /// It is not decided yet.
    Waiting,
    /// It has given this many events, the first of them in this cell of the log.
    Done { cell: u32, count: u32 },
    /// The guard of this number, counted from 0, is false or has no value.
    Rejected { guard: u32 },
}

/// A command of the outbox, with the saga that has sent it.
#[derive(Drop)]
pub struct Sent {
    /// The number of the saga's processor.
    pub processor: u32,
    pub saga: ItemName,
    pub aggregate: Name,
    pub command: Name,
    pub args: Payload,
    pub delivery: Delivery,
}

impl Duplicate for Sent {
    fn copy(&self, alloc: Global) -> Result<Sent, NoMemory> {
        Ok(Sent {
            processor: self.processor,
            saga: self.saga.copy(alloc)?,
            aggregate: self.aggregate.copy(alloc)?,
            command: self.command.copy(alloc)?,
            args: self.args.copy(alloc)?,
            delivery: self.delivery,
        })
    }
}
