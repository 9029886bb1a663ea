ghost use Rattle.std.specs.Prelude.{◌≡◌, ◌+◌, ◌≤◌, ◌<◌, ◌-◌, ◌^◌, length, IfOk, OnOk};
ghost use Rattle.ax_rules.specs.Rules.{applied, row_or, lenient_from};
ghost use Rattle.ax_projections.specs.Table.{look_up};
ghost use Rattle.ax_projections.specs.Rebuild.{rebuilt, or_start, after, added, cell_items, added_cell};
ghost use Rattle.ax_upcast.specs.Upcast.{most_items};
ghost use Rattle.ax_values.specs.Grammar.{Name};

use crate::table::{Positioned, Table};
use ax_rules::{Applied, Row, Rules};
use ax_upcast::Chain;
use ax_values::{Cell, Duplicate, Item, Name, NoMemory};
use std::alloc::Global;

/// The table of all items of the cells: for each aggregate that has an item, in the order of their first items, the
/// number of its items and the row that the rules fold from them. An item that does not apply leaves the row.
pub fn rebuild(
    alloc: Global,
    cells: &[Cell],
    chain: &Chain,
    rules: &Rules,
) -> Result<Table, NoMemory>
    requires { length cells.now ≤ 200000 }
    ensures { IfOk result (λ table. table.entries ≡ rebuilt rules.now chain.now cells.now) }
{
    let mut table = Table::new(alloc);
    for cell in cells {
        add_cell(alloc, &mut table, cell, chain, rules)?;
    }
    Ok(table)
}

/// Adds the items of a cell.
fn add_cell(
    alloc: Global,
    table: &mut Table,
    cell: &Cell,
    chain: &Chain,
    rules: &Rules,
) -> Result<(), NoMemory>
    requires fits { (a : Name) → (or_start rules.now (look_up a table.old.entries)).position + most_items < 2 ^ 32 }
    requires fields { (a : Name) → length (or_start rules.now (look_up a table.old.entries)).row ≡ length rules.now.fields }
    requires few { length table.old.entries < 2 ^ 32 - 1 }
    ensures rows { OnOk result (table.new.entries ≡ added_cell rules.now chain.now cell.now table.old.entries) }
    ensures items { OnOk result (length (cell_items chain.now cell.now) ≤ most_items) }
{
    match cell {
        Cell::Event(record) => {
            let items = chain.upcast(alloc, record)?;
            add(alloc, table, &record.aggregate, items.parts(), rules)
        }
        Cell::Reserved { .. } | Cell::Void => Ok(()),
    }
}

/// Adds an aggregate's items to its row.
#[tactic(auto, using(crate::proofs::RowLaws::length_applied))]
fn add(
    alloc: Global,
    table: &mut Table,
    aggregate: &Name,
    items: &[Item],
    rules: &Rules,
) -> Result<(), NoMemory>
    requires fits { (or_start rules.now (look_up aggregate.now table.old.entries)).position + length items.now < 2 ^ 32 }
    requires fields { length (or_start rules.now (look_up aggregate.now table.old.entries)).row ≡ length rules.now.fields }
    requires few { length table.old.entries < 2 ^ 32 - 1 }
    ensures { OnOk result (table.new.entries ≡ added rules.now aggregate.now items.now table.old.entries) }
{
    let [first, rest @ ..] = items else {
        return Ok(());
    };
    let mut value = match table.get(aggregate) {
        Some(value) => Positioned {
            position: value.position + 1,
            row: after_item(alloc, rules, &value.row, first)?,
        },
        None => Positioned {
            position: 1,
            row: after_item(alloc, rules, &rules.start(alloc)?, first)?,
        },
    };
    value.take(alloc, rules, rest)?;
    table.put(aggregate.copy(alloc)?, value)
}

/// The row after an item, which stays where the item does not apply.
fn after_item(alloc: Global, rules: &Rules, row: &Row, item: &Item) -> Result<Row, NoMemory>
    requires { length row.now ≡ length rules.now.fields }
    ensures { IfOk result (λ next. next ≡ row_or row.now (applied rules.now row.now item.now)) }
{
    match rules.apply(alloc, row, item)? {
        Applied::Row(next) => Ok(next),
        Applied::Fault(_) => row.copy(alloc),
    }
}

impl Positioned {
    /// Takes more items.
    #[tactic(auto, using(crate::proofs::RowLaws::length_applied))]
    fn take(&mut self, alloc: Global, rules: &Rules, items: &[Item]) -> Result<(), NoMemory>
        requires fits { self.old.position + length items.now < 2 ^ 32 }
        requires fields { length self.old.row ≡ length rules.now.fields }
        ensures { OnOk result (self.new ≡ after rules.now items.now self.old) }
    {
        for item in items {
            self.take_one(alloc, rules, item)?;
        }
        Ok(())
    }

    fn take_one(&mut self, alloc: Global, rules: &Rules, item: &Item) -> Result<(), NoMemory>
        requires fits { self.old.position + 1 < 2 ^ 32 }
        requires fields { length self.old.row ≡ length rules.now.fields }
        ensures position { OnOk result (self.new.position ≡ self.old.position + 1) }
        ensures row { OnOk result (self.new.row ≡ row_or self.old.row (applied rules.now self.old.row item.now)) }
    {
        if let Applied::Row(next) = rules.apply(alloc, &self.row, item)? {
            self.row = next;
        }
        self.position += 1;
        Ok(())
    }
}
