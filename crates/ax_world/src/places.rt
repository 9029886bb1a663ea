ghost use Rattle.std.specs.Prelude.{◌≡◌, ℕ, ◌+◌, ◌^◌, ◌<◌, ◌≤◌, ◌==◌, map, length, OnOk};
ghost use Rattle.ax_state.specs.Every.{count, one};
ghost use Rattle.ax_world.specs.WorldTables.{processor_tables_in, room_in};
ghost use Rattle.ax_world.specs.EditsApplied.{changed_at, rows_set, row_put, policy_set, mark_put, mark_removed};
ghost use Rattle.ax_world.specs.Fits.{HasMarksInOrder, HasPlaceFor, puts_mark, puts_row};

use crate::Edit;
use crate::place::ProcessorTables;
use ax_claims::Rows;
use ax_projections::Positioned;
use ax_values::{ItemName, Name, NoMemory};

pub(crate) fn set_rows(processor_tables: &mut Vec<ProcessorTables>, processor: u32, rows: Rows)
    requires { processor < length processor_tables.old.items }
    ensures processor_tables { map (λ x. x.place) processor_tables.new.items ≡ changed_at processor (rows_set rows) (map (λ x. x.place) processor_tables.old.items) }
    ensures rooms { map (λ x. x.room) processor_tables.new.items ≡ map (λ x. x.room) processor_tables.old.items }
{
    let place = &mut processor_tables[processor as usize];
    place.set_rows(rows);
}

pub(crate) fn put_row(
    processor_tables: &mut Vec<ProcessorTables>,
    processor: u32,
    aggregate: Name,
    value: Positioned,
)
    requires declared { processor < length processor_tables.old.items }
    requires place { HasPlaceFor aggregate (processor_tables_in (map (λ x. x.place) processor_tables.old.items) processor) }
    requires room { 0 < (room_in (map (λ x. x.room) processor_tables.old.items) processor).rows }
    ensures processor_tables { map (λ x. x.place) processor_tables.new.items ≡ changed_at processor (row_put aggregate value) (map (λ x. x.place) processor_tables.old.items) }
    ensures rows { (q : ℕ) → (room_in (map (λ x. x.room) processor_tables.old.items) q).rows ≤ (room_in (map (λ x. x.room) processor_tables.new.items) q).rows + one (processor == q) }
    ensures marks { (q : ℕ) → (room_in (map (λ x. x.room) processor_tables.old.items) q).marks ≤ (room_in (map (λ x. x.room) processor_tables.new.items) q).marks }
{
    let place = &mut processor_tables[processor as usize];
    place.put_row(aggregate, value);
}

pub(crate) fn set_policy(processor_tables: &mut Vec<ProcessorTables>, processor: u32, keep: bool)
    requires { processor < length processor_tables.old.items }
    ensures processor_tables { map (λ x. x.place) processor_tables.new.items ≡ changed_at processor (policy_set keep) (map (λ x. x.place) processor_tables.old.items) }
    ensures rooms { map (λ x. x.room) processor_tables.new.items ≡ map (λ x. x.room) processor_tables.old.items }
{
    let place = &mut processor_tables[processor as usize];
    place.set_policy(keep);
}

pub(crate) fn put_mark(processor_tables: &mut Vec<ProcessorTables>, processor: u32, item: ItemName)
    requires declared { processor < length processor_tables.old.items }
    requires order { HasMarksInOrder (processor_tables_in (map (λ x. x.place) processor_tables.old.items) processor) }
    requires room { 0 < (room_in (map (λ x. x.room) processor_tables.old.items) processor).marks }
    ensures processor_tables { map (λ x. x.place) processor_tables.new.items ≡ changed_at processor (mark_put item) (map (λ x. x.place) processor_tables.old.items) }
    ensures rows { (q : ℕ) → (room_in (map (λ x. x.room) processor_tables.old.items) q).rows ≤ (room_in (map (λ x. x.room) processor_tables.new.items) q).rows }
    ensures marks { (q : ℕ) → (room_in (map (λ x. x.room) processor_tables.old.items) q).marks ≤ (room_in (map (λ x. x.room) processor_tables.new.items) q).marks + one (processor == q) }
{
    let place = &mut processor_tables[processor as usize];
    place.put_mark(item);
}

pub(crate) fn remove_mark(
    processor_tables: &mut Vec<ProcessorTables>,
    processor: u32,
    item: &ItemName,
)
    requires declared { processor < length processor_tables.old.items }
    requires order { HasMarksInOrder (processor_tables_in (map (λ x. x.place) processor_tables.old.items) processor) }
    ensures processor_tables { map (λ x. x.place) processor_tables.new.items ≡ changed_at processor (mark_removed item.now) (map (λ x. x.place) processor_tables.old.items) }
    ensures rows { (q : ℕ) → (room_in (map (λ x. x.room) processor_tables.old.items) q).rows ≤ (room_in (map (λ x. x.room) processor_tables.new.items) q).rows }
    ensures marks { (q : ℕ) → (room_in (map (λ x. x.room) processor_tables.old.items) q).marks ≤ (room_in (map (λ x. x.room) processor_tables.new.items) q).marks }
{
    let place = &mut processor_tables[processor as usize];
    place.remove_mark(item);
}

/// How many of the edits put a row of a processor.
fn rows_put(edits: &[Edit], processor: u32) -> usize
    ensures { result ≡ count (puts_row processor) edits.now }
{
    let mut rows = 0;
    for edit in edits {
        if let Edit::PutRow {
            processor: place,
            ..
        } = edit
        {
            if *place == processor {
                rows += 1;
            }
        }
    }
    rows
}

/// How many of the edits put a mark of a processor.
fn marks_put(edits: &[Edit], processor: u32) -> usize
    ensures { result ≡ count (puts_mark processor) edits.now }
{
    let mut marks = 0;
    for edit in edits {
        if let Edit::PutMark {
            processor: place,
            ..
        } = edit
        {
            if *place == processor {
                marks += 1;
            }
        }
    }
    marks
}

/// Makes room for the rows and marks that the edits put. What is kept stays, also where memory is wanting.
pub(crate) fn reserve_entries(
    processor_tables: &mut Vec<ProcessorTables>,
    edits: &[Edit],
) -> Result<(), NoMemory>
    requires { length processor_tables.old.items < 2 ^ 32 }
    ensures processor_tables { map (λ x. x.place) processor_tables.new.items ≡ map (λ x. x.place) processor_tables.old.items }
    ensures rows { OnOk result ((q : ℕ) → q < length processor_tables.new.items → count (puts_row q) edits.now ≤ (room_in (map (λ x. x.room) processor_tables.new.items) q).rows) }
    ensures marks { OnOk result ((q : ℕ) → q < length processor_tables.new.items → count (puts_mark q) edits.now ≤ (room_in (map (λ x. x.room) processor_tables.new.items) q).marks) }
{
    for processor in 0..processor_tables.len() {
        let rows = rows_put(edits, processor as u32);
        let marks = marks_put(edits, processor as u32);
        let place = &mut processor_tables[processor];
        place.reserve(rows, marks)?;
    }
    Ok(())
}
