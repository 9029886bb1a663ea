ghost use Rattle.std.specs.Prelude.{◌≡◌, length, IfOk, OnOk};
ghost use Rattle.std.specs.Option.{option_copied};
ghost use Rattle.ax_rules.specs.Rules.{applied, row_or, lenient, lenient_from};
ghost use Rattle.ax_projections.specs.Items.{items_of, plain_items};
ghost use Rattle.ax_step_log.specs.SendParts.{found_items, listed_items};

use ax_log::Log;
use ax_rules::{Applied, Row, Rules};
use ax_upcast::Chain;
use ax_values::{Cell, Item, Name, NoMemory};
use std::alloc::Global;

/// The row that the rules fold from all items of an aggregate. An item that does not apply leaves the row.
#[tactic(auto, using(crate::proofs::Items::whole_row))]
pub(crate) fn aggregate_row(
    alloc: Global,
    log: &Log,
    chain: &Chain,
    rules: &Rules,
    aggregate: &Name,
) -> Result<Row, NoMemory>
    ensures row { IfOk result (λ row. row ≡ lenient rules.now (plain_items (items_of chain.now aggregate.now log.now.cells))) }
    ensures fields { IfOk result (λ row. length row ≡ length rules.now.fields) }
{
    let mut row = rules.start(alloc)?;
    let indexes = log.stream(alloc, aggregate)?;
    take_cells(alloc, &mut row, log, &indexes, chain, rules)?;
    Ok(row)
}

/// Takes the items of the cells at these indexes.
fn take_cells(
    alloc: Global,
    row: &mut Row,
    log: &Log,
    indexes: &[u32],
    chain: &Chain,
    rules: &Rules,
) -> Result<(), NoMemory>
    requires { length row.old ≡ length rules.now.fields }
    ensures row { OnOk result (row.new ≡ lenient_from rules.now (listed_items chain.now log.now.cells indexes.now) row.old) }
    ensures fields { OnOk result (length row.new ≡ length rules.now.fields) }
{
    for index in indexes {
        take_cell(alloc, row, log.scan(*index), chain, rules)?;
    }
    Ok(())
}

/// Takes the items of a cell, if it is there and has an event.
fn take_cell(
    alloc: Global,
    row: &mut Row,
    cell: Option<&Cell>,
    chain: &Chain,
    rules: &Rules,
) -> Result<(), NoMemory>
    requires { length row.old ≡ length rules.now.fields }
    ensures row { OnOk result (row.new ≡ lenient_from rules.now (found_items chain.now (option_copied cell.entry)) row.old) }
    ensures fields { OnOk result (length row.new ≡ length rules.now.fields) }
{
    if let Some(Cell::Event(record)) = cell {
        let items = chain.upcast(alloc, record)?;
        take_items(alloc, row, items.parts(), rules)?;
    }
    Ok(())
}

#[tactic(auto, using(ax_projections::proofs::RowLaws::length_applied))]
fn take_items(alloc: Global, row: &mut Row, items: &[Item], rules: &Rules) -> Result<(), NoMemory>
    requires { length row.old ≡ length rules.now.fields }
    ensures row { OnOk result (row.new ≡ lenient_from rules.now items.now row.old) }
    ensures fields { OnOk result (length row.new ≡ length rules.now.fields) }
{
    for item in items {
        take_item(alloc, row, item, rules)?;
    }
    Ok(())
}

/// Takes an item, which leaves the row where it does not apply.
fn take_item(alloc: Global, row: &mut Row, item: &Item, rules: &Rules) -> Result<(), NoMemory>
    requires { length row.old ≡ length rules.now.fields }
    ensures { OnOk result (row.new ≡ row_or row.old (applied rules.now row.old item.now)) }
{
    if let Applied::Row(next) = rules.apply(alloc, row, item)? {
        *row = next;
    }
    Ok(())
}
