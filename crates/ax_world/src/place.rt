ghost use Rattle.std.specs.Prelude.{◌≡◌, ◌+◌, ◌-◌, ◌<◌, ◌≤◌, OnOk};
ghost use Rattle.ax_world.specs.EditsApplied.{rows_set, row_put, policy_set, mark_put, mark_removed};
ghost use Rattle.ax_world.specs.Fits.{HasMarksInOrder, HasPlaceFor};

use crate::marks::{put_mark, remove_mark};
use ax_claims::Rows;
use ax_letters::Queue;
use ax_projections::{Positioned, Table};
use ax_values::{ItemName, Name, NoMemory};
use std::marker::Model;

/// What is kept of one processor: how far its segments are, its letters, the items that were dropped, whether it keeps a
/// failed item as a letter, the items that are marked to fail, and the rows of its aggregates.
#[derive(Drop)]
pub(crate) struct ProcessorTables {
    pub(crate) rows: Rows,
    pub(crate) queue: Queue,
    /// By aggregate, number and part.
    pub(crate) drops: Vec<ItemName>,
    pub(crate) keep: bool,
    /// By aggregate, number and part.
    pub(crate) marks: Vec<ItemName>,
    pub(crate) table: Table,
}

impl Model for ProcessorTables {
    ghost use Rattle.std.specs.Prelude.{◌-◌, vec_len, vec_capacity};
    ghost use Rattle.std.specs.Coded.{codes};
    ghost use Rattle.ax_tokens.specs.TokenCode.{coded_token};
    ghost use Rattle.ax_world.specs.WorldTables.{ProcessorTablesView};

    ghost Value = { ProcessorTablesView };

    ghost coded = { Prim.hlevel (codes, coded_token) };

    ghost view = { λ x. record {
      place = record {
        whole = x.queue.whole;
        processor_state = record { rows = x.rows; queue = x.queue.sequences; drops = x.drops.items; keep = x.keep; marks = x.marks.items };
        table = x.table.entries;
      };
      room = record { rows = x.table.room; marks = vec_capacity x.marks - vec_len x.marks };
    } };
}

impl ProcessorTables {
    pub(crate) fn set_rows(&mut self, rows: Rows)
        ensures place { self.new.place ≡ rows_set rows self.old.place }
        ensures room { self.new.room ≡ self.old.room }
    {
        self.rows = rows;
    }

    /// Puts a row in the place of the aggregate's, or at the end. It takes no memory.
    pub(crate) fn put_row(&mut self, aggregate: Name, value: Positioned)
        requires place { HasPlaceFor aggregate self.old.place }
        requires room { 0 < self.old.room.rows }
        ensures place { self.new.place ≡ row_put aggregate value self.old.place }
        ensures rows { self.old.room.rows ≤ self.new.room.rows + 1 }
        ensures marks { self.new.room.marks ≡ self.old.room.marks }
    {
        let _ = self.table.put(aggregate, value);
    }

    pub(crate) fn set_policy(&mut self, keep: bool)
        ensures place { self.new.place ≡ policy_set keep self.old.place }
        ensures room { self.new.room ≡ self.old.room }
    {
        self.keep = keep;
    }

    /// Marks an item. It takes no memory.
    pub(crate) fn put_mark(&mut self, item: ItemName)
        requires order { HasMarksInOrder self.old.place }
        requires room { 0 < self.old.room.marks }
        ensures place { self.new.place ≡ mark_put item self.old.place }
        ensures rows { self.new.room.rows ≡ self.old.room.rows }
        ensures marks { self.old.room.marks ≤ self.new.room.marks + 1 }
    {
        put_mark(&mut self.marks, item);
    }

    /// Removes the mark of an item. It takes no memory.
    pub(crate) fn remove_mark(&mut self, item: &ItemName)
        requires { HasMarksInOrder self.old.place }
        ensures place { self.new.place ≡ mark_removed item.now self.old.place }
        ensures rows { self.new.room.rows ≡ self.old.room.rows }
        ensures marks { self.old.room.marks ≤ self.new.room.marks }
    {
        remove_mark(&mut self.marks, item);
    }

    /// Makes room for as many new rows and marks. What is kept stays, also where memory is wanting.
    pub(crate) fn reserve(&mut self, rows: usize, marks: usize) -> Result<(), NoMemory>
        ensures place { self.new.place ≡ self.old.place }
        ensures rows { OnOk result (rows ≤ self.new.room.rows) }
        ensures marks { OnOk result (marks ≤ self.new.room.marks) }
    {
        self.table.reserve(rows)?;
        self.marks.reserve(marks)?;
        Ok(())
    }
}
