ghost use Rattle.std.specs.Prelude.{◌≡◌, ◌+◌, ◌<◌, ◌≤◌, [], length, IsTrue, OnOk, vec_capacity, vec_len};
ghost use Rattle.std.specs.List.{AllByRecursion};
ghost use Rattle.indexmap.specs.IndexMap.{keys};
ghost use Rattle.ax_log.specs.Log.{put_at};
ghost use Rattle.ax_log.specs.Order.{max_cells};
ghost use Rattle.ax_log.specs.Puts.{IsKnown, is_known};
ghost use Rattle.ax_log.specs.Index.{last_of, last_after, before_of};

use crate::CellPut;
use crate::put::put_at;
use ax_values::{Cell, Duplicate, Name, NoMemory};
use indexmap::IndexMap;
use std::alloc::Global;

/// Each aggregate's events, from the last one backwards.
#[derive(Drop)]
pub(crate) struct Streams {
    /// By cell: one more than the index of the event before it in its aggregate's stream, or 0.
    before: Vec<u32>,
    /// By aggregate: one more than the index of its last event, or 0.
    last: IndexMap<Name, u32>,
}

impl Streams {
    /// The streams of no cells.
    pub(crate) fn new(alloc: Global) -> Streams
        ensures before { result.before.items ≡ [] }
        ensures last { result.last.entries ≡ [] }
    {
        Streams {
            before: Vec::new(alloc),
            last: IndexMap::new(alloc),
        }
    }

    /// By cell: one more than the index of the event before it in its aggregate's stream, or 0.
    pub(crate) fn before(&self) -> &[u32]
        ensures { result.now ≡ self.now.before.items }
    {
        &self.before
    }

    /// One more than the index of the aggregate's last event, or 0.
    pub(crate) fn last_of(&self, aggregate: &Name) -> u32
        ensures { result ≡ last_of aggregate.now self.now.last.entries }
    {
        match self.last.get(aggregate) {
            Some(last) => *last,
            None => 0,
        }
    }

    /// Sets memory aside, so that the puts take none. Of no aggregate the last event changes.
    pub(crate) fn room(&mut self, puts: &[CellPut]) -> Result<(), NoMemory>
        ensures before { self.new.before.items ≡ self.old.before.items }
        ensures len { vec_len self.new.before ≡ vec_len self.old.before }
        ensures room { OnOk result (vec_len self.new.before + length puts.now ≤ vec_capacity self.new.before) }
        ensures capacity { vec_capacity self.old.before ≤ vec_capacity self.new.before }
        ensures last { (a : Name) → last_of a self.new.last.entries ≡ last_of a self.old.last.entries }
        ensures known { OnOk result (AllByRecursion (λ p. IsKnown (keys self.new.last) p.cell) puts.now) }
        ensures kept { (a : Name) → IsTrue (is_known (keys self.old.last) a) → IsTrue (is_known (keys self.new.last) a) }
    {
        self.before.reserve(puts.len())?;
        for put in puts {
            self.know(&put.cell)?;
        }
        Ok(())
    }

    /// Knows the aggregate of the cell's event.
    fn know(&mut self, cell: &Cell) -> Result<(), NoMemory>
        ensures before { self.new.before ≡ self.old.before }
        ensures last { (a : Name) → last_of a self.new.last.entries ≡ last_of a self.old.last.entries }
        ensures known { OnOk result (IsKnown (keys self.new.last) cell.now) }
        ensures kept { (a : Name) → IsTrue (is_known (keys self.old.last) a) → IsTrue (is_known (keys self.new.last) a) }
    {
        let Cell::Event(event) = cell else {
            return Ok(());
        };
        if self.last.contains_key(&event.aggregate) {
            return Ok(());
        }
        let name = event.aggregate.copy(*self.last.allocator())?;
        self.last.insert(name, 0)?;
        Ok(())
    }

    /// Notes the cell that is put at the index. Its event is the last of a known aggregate.
    pub(crate) fn note(&mut self, index: u32, cell: &Cell)
        requires known { IsKnown (keys self.old.last) cell.now }
        requires size { index < max_cells }
        requires within { index ≤ length self.old.before.items }
        requires room { index ≡ length self.old.before.items → vec_len self.old.before < vec_capacity self.old.before }
        ensures before { self.new.before.items ≡ put_at self.old.before.items index (before_of cell.now self.old.last.entries) }
        ensures capacity { vec_capacity self.new.before ≡ vec_capacity self.old.before }
        ensures last { (a : Name) → last_of a self.new.last.entries ≡ last_after index cell.now a (last_of a self.old.last.entries) }
        ensures keys { keys self.new.last ≡ keys self.old.last }
    {
        let before = self.take_last(index, cell);
        put_at(&mut self.before, index, before);
    }

    /// Makes the cell's event the last one of its aggregate, and returns the one that was, as one more than its index or 0.
    fn take_last(&mut self, index: u32, cell: &Cell) -> u32
        requires known { IsKnown (keys self.old.last) cell.now }
        requires size { index < max_cells }
        ensures value { result ≡ before_of cell.now self.old.last.entries }
        ensures before { self.new.before ≡ self.old.before }
        ensures last { (a : Name) → last_of a self.new.last.entries ≡ last_after index cell.now a (last_of a self.old.last.entries) }
        ensures keys { keys self.new.last ≡ keys self.old.last }
    {
        let Cell::Event(event) = cell else {
            return 0;
        };
        let Some(last) = self.last.get_mut(&event.aggregate) else {
            unreachable!()
        };
        let before = *last;
        *last = index + 1;
        before
    }
}
