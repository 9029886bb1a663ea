use crate::{Duplicate, ListOf, Name, NoMemory, Payload};
use std::alloc::Global;

/// A stored event of an aggregate, with its sequence number, its kind and the revision of that kind.
#[derive(Drop)]
pub struct Record {
    pub aggregate: Name,
    pub seq: u32,
    pub kind: Name,
    pub revision: u32,
    pub payload: Payload,
}

pub type Records = ListOf<Record>;

impl Duplicate for Record {
    fn copy(&self, alloc: Global) -> Result<Record, NoMemory> {
        Ok(Record {
            aggregate: self.aggregate.copy(alloc)?,
            seq: self.seq,
            kind: self.kind.copy(alloc)?,
            revision: self.revision,
            payload: self.payload.copy(alloc)?,
        })
    }
}
