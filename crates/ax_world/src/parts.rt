ghost use Rattle.std.specs.Prelude.{◌≡◌, ℕ, ◌+◌, ◌^◌, ◌<◌, ◌≤◌, length, OnOk};
ghost use Rattle.std.specs.List.{AllByRecursion};
ghost use Rattle.ax_log.specs.Puts.{CanPutAll, HasRoom as HasLogRoom, IsKept, put_all};
ghost use Rattle.ax_state.specs.Every.{count, one};
ghost use Rattle.ax_world.specs.WorldTables.{room_at};
ghost use Rattle.ax_world.specs.EditsApplied.{edit_applied, edits_applied};
ghost use Rattle.ax_world.specs.Fits.{CanMake, CanMakeAll, HasCells, HasRoom, Leaves, is_cells, puts_mark, puts_row};

use crate::desk::set_desk;
use crate::place::ProcessorTables;
use crate::places::{put_mark, put_row, remove_mark, reserve_entries, set_policy, set_rows};
use crate::{Desk, Edit, Edits, Notice};
use ax_log::{CellPuts, Log};
use ax_sheet::{Processors, Sheet};
use ax_values::{Names, NoMemory};
use std::marker::Model;

/// The parts of a world, with no tie between them.
#[derive(Drop)]
pub(crate) struct Parts {
    pub(crate) sheet: Sheet,
    pub(crate) processors: Processors,
    pub(crate) actors: Names,
    pub(crate) clock: u64,
    pub(crate) fence: u64,
    pub(crate) log: Log,
    pub(crate) processor_tables: Vec<ProcessorTables>,
    pub(crate) notices: Vec<Notice>,
    pub(crate) desks: Vec<Desk>,
}

impl Model for Parts {
    ghost use Rattle.std.specs.Prelude.{map};
    ghost use Rattle.std.specs.Coded.{codes};
    ghost use Rattle.ax_rules.specs.ExprCode.{coded_expr};
    ghost use Rattle.ax_tokens.specs.TokenCode.{coded_token};
    ghost use Rattle.ax_world.specs.WorldTables.{WorldTablesView, desk_of};

    ghost Value = { WorldTablesView };

    ghost coded = { Prim.hlevel (codes, coded_expr, coded_token) };

    ghost view = { λ w. record {
      tables = record {
        setting = record { sheet = w.sheet; processors = w.processors; actors = w.actors };
        clock = w.clock;
        fence = w.fence;
        cells = w.log.cells;
        processor_tables = map (λ x. x.place) w.processor_tables.items;
        notices = w.notices.items;
        desks = map desk_of w.desks.items;
        bases = map (λ desk. desk.batch) w.desks.items;
      };
      room = record { log = w.log.room; processors = map (λ x. x.room) w.processor_tables.items };
    } };
}

impl Parts {
    /// Makes one edit. It takes no memory.
    fn make(&mut self, edit: Edit)
        requires can { CanMake self.old.tables edit }
        requires cells { HasCells self.old.room.log edit }
        requires rows { (q : ℕ) → one (puts_row q edit) ≤ (room_at self.old.room q).rows }
        requires marks { (q : ℕ) → one (puts_mark q edit) ≤ (room_at self.old.room q).marks }
        ensures tables { self.new.tables ≡ edit_applied self.old.tables edit }
        ensures room { Leaves self.old.room self.new.room edit }
    {
        match edit {
            Edit::Clock(moment) => self.clock = moment,
            Edit::Fence(fence) => self.fence = fence,
            Edit::Cells(puts) => put_all(&mut self.log, puts),
            Edit::SetRows { processor, rows } => set_rows(
                &mut self.processor_tables,
                processor,
                rows,
            ),
            Edit::PutRow {
                processor,
                aggregate,
                value,
            } => put_row(&mut self.processor_tables, processor, aggregate, value),
            Edit::SetPolicy { processor, keep } => set_policy(
                &mut self.processor_tables,
                processor,
                keep,
            ),
            Edit::PutMark { processor, item } => put_mark(
                &mut self.processor_tables,
                processor,
                item,
            ),
            Edit::RemoveMark { processor, item } => remove_mark(
                &mut self.processor_tables,
                processor,
                &item,
            ),
            Edit::SetDesk { actor, desk } => set_desk(&mut self.desks, actor, desk),
        }
    }
}

impl Parts {
    /// Makes edits one after another. It takes no memory.
    pub(crate) fn make_all(&mut self, edits: Edits)
        requires can { CanMakeAll self.old.tables edits }
        requires single { count is_cells edits ≤ 1 }
        requires room { HasRoom self.old.room edits }
        ensures { self.new.tables ≡ edits_applied edits self.old.tables }
    {
        for edit in edits.into_parts() {
            self.make(edit);
        }
    }

    /// Makes room for edits. What is kept stays, also where memory is wanting.
    pub(crate) fn prepare(&mut self, edits: &[Edit]) -> Result<(), NoMemory>
        requires can { CanMakeAll self.old.tables edits.now }
        requires few { length self.old.tables.processor_tables < 2 ^ 32 }
        ensures tables { self.new.tables ≡ self.old.tables }
        ensures room { OnOk result (HasRoom self.new.room edits.now) }
    {
        reserve_cells(&mut self.log, edits)?;
        reserve_entries(&mut self.processor_tables, edits)
    }
}

/// Makes room for the cells of the edits. The log's cells stay, also where memory is wanting.
fn reserve_cells(log: &mut Log, edits: &[Edit]) -> Result<(), NoMemory>
    ensures cells { log.new.cells ≡ log.old.cells }
    ensures room { OnOk result (AllByRecursion (HasCells log.new.room) edits.now) }
{
    for edit in edits {
        reserve_cells_of(log, edit)?;
    }
    Ok(())
}

fn reserve_cells_of(log: &mut Log, edit: &Edit) -> Result<(), NoMemory>
    ensures cells { log.new.cells ≡ log.old.cells }
    ensures room { OnOk result (HasCells log.new.room edit.now) }
    ensures more { IsKept log.old.room log.new.room }
{
    match edit {
        Edit::Cells(puts) => log.room(puts.parts()),
        _ => Ok(()),
    }
}

/// Puts the cells into the log, in order. It takes no memory.
fn put_all(log: &mut Log, puts: CellPuts)
    requires room { HasLogRoom log.old.room puts }
    requires can { CanPutAll log.old.cells puts }
    ensures { log.new.cells ≡ put_all puts log.old.cells }
{
    for change in puts.into_parts() {
        log.put(change);
    }
}
