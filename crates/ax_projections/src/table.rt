ghost use Rattle.std.specs.Prelude.{◌≡◌, ◌<◌, ◌≤◌, ◌+◌, ◌-◌, ◌^◌, [], length, IsSome, IsNone, IsOk, OnOk, OnErr, IfOk, map, option_map, option_copied};
ghost use Rattle.std.specs.List.{IsDistinct, slice_get};
ghost use Rattle.ax_values.specs.Words.{same_name};
ghost use Rattle.ax_projections.specs.Table.{look_up, put_entry, entry};

use ax_rules::Row;
use ax_values::{Duplicate, Name, NoMemory};
use indexmap::IndexMap;
use std::alloc::Global;
use std::marker::Model;

/// The row of an aggregate, with the number of the aggregate's items that it has taken.
#[derive(Drop)]
pub struct Positioned {
    pub position: u32,
    pub row: Row,
}

/// Rows by aggregate, in the order in which the aggregates came. No two have one aggregate, and there are fewer than 2^32.
#[derive(Drop)]
pub struct Table {
    rows: IndexMap<Name, Positioned>,
}

impl Model for Table {
    ghost use Rattle.std.specs.Prelude.{◌<◌, ◌^◌, length, map};
    ghost use Rattle.indexmap.specs.IndexMap.{spare};
    ghost use Rattle.ax_projections.specs.Table.{TableView, entry};

    ghost Value = { TableView };

    ghost view = { λ table. record { entries = map entry table.rows.entries; room = spare table.rows } };

    ghost invariant = { λ table. length table.rows.entries < 2 ^ 32 };
}

impl Table {
    /// The table without rows.
    pub fn new(alloc: Global) -> Table
        ensures { result.entries ≡ [] }
    {
        Table {
            rows: IndexMap::new(alloc),
        }
    }

    /// The row of an aggregate. None comes exactly where the table has none of it.
    pub fn get(&self, aggregate: &Name) -> Option<&Positioned>
        ensures { option_copied result ≡ look_up aggregate.now self.now.entries }
    {
        self.rows.get(aggregate)
    }

    /// Puts the row in the place of the aggregate's, or at the end where it has none. At an aggregate that is there it needs
    /// no memory, nor where there is room. Where memory is wanting, the table's rows stay.
    pub fn put(&mut self, aggregate: Name, value: Positioned) -> Result<(), NoMemory>
        requires { IsNone (look_up aggregate self.old.entries) → length self.old.entries < 2 ^ 32 - 1 }
        ensures ok { OnOk result (self.new.entries ≡ put_entry aggregate value self.old.entries) }
        ensures err { OnErr result (self.new.entries ≡ self.old.entries) }
        ensures there { IsSome (look_up aggregate self.old.entries) → IsOk result }
        ensures roomy { 0 < self.old.room → IsOk result }
        ensures room { self.old.room ≤ self.new.room + 1 }
    {
        self.rows.insert(aggregate, value)?;
        Ok(())
    }

    /// Makes room for `count` aggregates more. The rows stay.
    pub fn reserve(&mut self, count: usize) -> Result<(), NoMemory>
        ensures entries { self.new.entries ≡ self.old.entries }
        ensures room { OnOk result (count ≤ self.new.room) }
        ensures more { self.old.room ≤ self.new.room }
    {
        self.rows.reserve(count)?;
        Ok(())
    }

    /// How many rows there are. No two have one aggregate.
    pub fn len(&self) -> u32
        ensures value { result ≡ length self.now.entries }
        ensures names { IsDistinct same_name (map (λ row. row.name) self.now.entries) }
    {
        self.rows.len() as u32
    }

    /// The row at a place, with its aggregate. None comes exactly from the length on.
    pub fn at(&self, place: u32) -> Option<(&Name, &Positioned)>
        ensures { option_map (λ row. record { name = row.0.now; value = row.1.now }) result ≡ slice_get self.now.entries place }
    {
        self.rows.get_index(place as usize)
    }

    /// Takes all rows out.
    pub fn clear(&mut self)
        ensures entries { self.new.entries ≡ [] }
        ensures more { self.old.room ≤ self.new.room }
    {
        self.rows.clear();
    }
}

impl Duplicate for Positioned {
    fn copy(&self, alloc: Global) -> Result<Positioned, NoMemory> {
        Ok(Positioned {
            position: self.position,
            row: self.row.copy(alloc)?,
        })
    }
}
