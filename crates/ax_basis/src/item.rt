use ax_rules::Row;
use ax_values::{Duplicate, Item, ListOf, Name, NoMemory, Same, Seen};
use std::alloc::Global;

/// An item of a batch.
#[derive(Drop)]
pub struct BasisItem {
    pub item: Item,
    /// The index of its record in the log.
    pub index: u32,
    /// Whether it was marked at the fetch.
    pub marked: bool,
    /// Whether it was handled before a reset of its processor.
    pub replayed: bool,
}

pub type BasisItems = ListOf<BasisItem>;

/// What a fetch reads of an aggregate.
#[derive(Drop)]
pub struct Member {
    pub aggregate: Name,
    pub seen: Seen,
    /// The aggregate's row, or the first values where it has none.
    pub row: Row,
}

pub type Members = ListOf<Member>;

impl Duplicate for BasisItem {
    fn copy(&self, alloc: Global) -> Result<BasisItem, NoMemory> {
        Ok(BasisItem {
            item: self.item.copy(alloc)?,
            index: self.index,
            marked: self.marked,
            replayed: self.replayed,
        })
    }
}

impl Duplicate for Member {
    fn copy(&self, alloc: Global) -> Result<Member, NoMemory> {
        Ok(Member {
            aggregate: self.aggregate.copy(alloc)?,
            seen: self.seen.copy(alloc)?,
            row: self.row.copy(alloc)?,
        })
    }
}

impl Same for BasisItem {
    fn same(&self, other: &BasisItem) -> bool {
        self.item.same(&other.item)
            && self.index == other.index
            && self.marked == other.marked
            && self.replayed == other.replayed
    }
}

impl Same for Member {
    fn same(&self, other: &Member) -> bool {
        Same::same(&self.aggregate, &other.aggregate)
            && self.seen.same(&other.seen)
            && self.row.same(&other.row)
    }
}
