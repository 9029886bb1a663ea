ghost use Rattle.std.specs.Prelude.{◌≡◌, ◌≤◌, ◌++◌, None, filter, length, IfOk, OnOk};
ghost use Rattle.ax_log.specs.Log.{events};
ghost use Rattle.ax_log.specs.Order.{max_cells};
ghost use Rattle.ax_state.specs.Batches.{is_fetched};
ghost use Rattle.ax_step_work.specs.Reach.{events_at};
ghost use Rattle.ax_tokens.specs.Nodes.{token_of};
ghost use Rattle.ax_step_work.specs.Sharing.{cell_items, event_items, items_taken, taken};

use crate::bound::is_fetched;
use crate::reach::{high_of, next_open};
use ax_basis::BasisItem;
use ax_segments::{Segment, hash_in};
use ax_tokens::Token;
use ax_upcast::Chain;
use ax_values::{Cell, NoMemory, Record};
use std::alloc::Global;

/// The items that the new token covers and the old one does not, by index, then part, and of how many records they are.
pub(crate) fn fetched_items(
    alloc: Global,
    chain: &Chain,
    segment: Segment,
    old: &Token,
    new: &Token,
    cells: &[Cell],
) -> Result<(Vec<BasisItem>, u32), NoMemory>
    requires { length cells.now ≤ max_cells }
    ensures items { IfOk result (λ made. made.0.items ≡ items_taken chain.now (taken segment (token_of old.now) (token_of new.now)) cells.now) }
    ensures records { IfOk result (λ made. made.1 ≡ length (filter (is_fetched None segment (token_of old.now) (token_of new.now)) (events cells.now))) }
{
    let end = high_of(new).min(cells.len() as u32);
    let mut items = Vec::new(alloc);
    let mut records = 0;
    let mut index = next_open(old, 0);
    while index < end {
        let cell = &cells[index as usize];
        records += push_cell(alloc, chain, segment, old, new, index, cell, &mut items)?;
        index = next_open(old, index + 1);
    }
    Ok((items, records))
}

/// Adds the items of the cell at an index, where its event is taken. The answer is how many events it takes: one or none.
fn push_cell(
    alloc: Global,
    chain: &Chain,
    segment: Segment,
    old: &Token,
    new: &Token,
    index: u32,
    cell: &Cell,
    items: &mut Vec<BasisItem>,
) -> Result<u32, NoMemory>
    ensures items { OnOk result (items.new.items ≡ items.old.items ++ cell_items chain.now (taken segment (token_of old.now) (token_of new.now)) index cell.now) }
    ensures count { IfOk result (λ count. count ≡ length (events_at (is_fetched None segment (token_of old.now) (token_of new.now)) index cell.now)) }
    ensures one { IfOk result (λ count. count ≤ 1) }
{
    if let Cell::Event(event) = cell {
        if is_fetched(None, segment, old, new, index, event) {
            push_items(alloc, chain, segment, old, index, event, items)?;
            return Ok(1);
        }
    }
    Ok(0)
}

/// Adds the items of an event at its index.
fn push_items(
    alloc: Global,
    chain: &Chain,
    segment: Segment,
    old: &Token,
    index: u32,
    event: &Record,
    items: &mut Vec<BasisItem>,
) -> Result<(), NoMemory>
    ensures { OnOk result (items.new.items ≡ items.old.items ++ event_items chain.now (taken segment (token_of old.now) (token_of old.now)) (record { index = index; record_of = event.now })) }
{
    let made = chain.upcast(alloc, event)?;
    for item in made.into_parts() {
        let replayed = old.replayed(segment, hash_in(None, &item.name.aggregate), index);
        items.push(BasisItem {
            item,
            index,
            marked: false,
            replayed,
        })?;
    }
    Ok(())
}
