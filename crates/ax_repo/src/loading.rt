ghost use Rattle.std.specs.Prelude.{◌≡◌, ◌+◌, length, IfOk, OnOk, IfSome};
ghost use Rattle.std.specs.Option.{option_copied};
ghost use Rattle.ax_rules.specs.Rules.{applied, row_or, lenient_from};
ghost use Rattle.ax_repo.specs.Snapshots.{items_from, state_of, saved, begun_row, found_items, listed_items, IsSnapshotOf};

use crate::{Snapshot, Steps};
use ax_log::Log;
use ax_rules::{Applied, Row, Rules};
use ax_upcast::Chain;
use ax_values::{Cell, Duplicate, Item, Name, NoMemory};
use std::alloc::Global;
use std::marker::Brand;
use std::sync::ledger::{Blank, Ledger};

/// The state of an aggregate, whatever snapshot there is: one of this revision is where the fold of the later items begins,
/// and any other is ignored. It takes a step for each item that it applies.
pub fn load<L: Ledger>(
    alloc: Global,
    log: &Log,
    rules: &Rules,
    chain: &Chain,
    revision: u32,
    snapshot: Option<&Snapshot>,
    aggregate: &Name,
    steps: &mut Steps<L>,
) -> Result<Row, NoMemory>
    requires { IfSome snapshot (λ s. s.now.revision ≡ revision → IsSnapshotOf rules.now chain.now aggregate.now log.now.cells s.now) }
    ensures state { IfOk result (λ row. row ≡ state_of rules.now chain.now aggregate.now log.now.cells) }
    ensures fields { IfOk result (λ row. length row ≡ length rules.now.fields) }
    ensures cost { OnOk result (steps.new ≡ steps.old + length (items_from chain.now aggregate.now log.now.cells (saved revision (option_copied snapshot.entry)))) }
{
    let Begun { events, mut state } = begin(alloc, rules, revision, snapshot)?;
    let indexes = log.stream(alloc, aggregate)?;
    let later = &indexes[events as usize..];
    take_cells(alloc, &mut state, log, later, chain, rules, steps)?;
    Ok(state)
}

/// The state of an aggregate, from its first event on.
pub(crate) fn whole_state(
    alloc: Global,
    log: &Log,
    rules: &Rules,
    chain: &Chain,
    aggregate: &Name,
) -> Result<Row, NoMemory>
    ensures { IfOk result (λ row. row ≡ state_of rules.now chain.now aggregate.now log.now.cells) }
{
    uncounted::<Brand>(alloc, log, rules, chain, aggregate, Blank::new(1))
}

/// The same, by a ledger that nobody reads.
fn uncounted<L: Ledger>(
    alloc: Global,
    log: &Log,
    rules: &Rules,
    chain: &Chain,
    aggregate: &Name,
    blank: Blank,
) -> Result<Row, NoMemory>
    requires name { blank.name ≡ L.name }
    requires parts { blank.parts ≡ L.parts }
    requires some { blank.parts ≡ 1 }
    ensures { IfOk result (λ row. row ≡ state_of rules.now chain.now aggregate.now log.now.cells) }
{
    let mut steps = Steps::<L>::new(blank);
    load(alloc, log, rules, chain, 0, None, aggregate, &mut steps)
}

/// Where a load begins: after how many events, and with which state.
#[derive(Drop)]
struct Begun {
    events: u32,
    state: Row,
}

fn begin(
    alloc: Global,
    rules: &Rules,
    revision: u32,
    snapshot: Option<&Snapshot>,
) -> Result<Begun, NoMemory>
    ensures events { IfOk result (λ begun. begun.events ≡ saved revision (option_copied snapshot.entry)) }
    ensures state { IfOk result (λ begun. begun.state ≡ begun_row rules.now revision (option_copied snapshot.entry)) }
{
    if let Some(snapshot) = snapshot {
        if snapshot.revision == revision {
            return Ok(Begun {
                events: snapshot.events,
                state: snapshot.state.copy(alloc)?,
            });
        }
    }
    Ok(Begun {
        events: 0,
        state: rules.start(alloc)?,
    })
}

/// Takes the items of the cells at these indexes.
fn take_cells<L: Ledger>(
    alloc: Global,
    row: &mut Row,
    log: &Log,
    indexes: &[u32],
    chain: &Chain,
    rules: &Rules,
    steps: &mut Steps<L>,
) -> Result<(), NoMemory>
    requires { length row.old ≡ length rules.now.fields }
    ensures row { OnOk result (row.new ≡ lenient_from rules.now (listed_items chain.now log.now.cells indexes.now) row.old) }
    ensures fields { OnOk result (length row.new ≡ length rules.now.fields) }
    ensures cost { OnOk result (steps.new ≡ steps.old + length (listed_items chain.now log.now.cells indexes.now)) }
{
    for index in indexes {
        take_cell(alloc, row, log.scan(*index), chain, rules, steps)?;
    }
    Ok(())
}

/// Takes the items of a cell, if it is there and has an event.
fn take_cell<L: Ledger>(
    alloc: Global,
    row: &mut Row,
    cell: Option<&Cell>,
    chain: &Chain,
    rules: &Rules,
    steps: &mut Steps<L>,
) -> Result<(), NoMemory>
    requires { length row.old ≡ length rules.now.fields }
    ensures row { OnOk result (row.new ≡ lenient_from rules.now (found_items chain.now (option_copied cell.entry)) row.old) }
    ensures fields { OnOk result (length row.new ≡ length rules.now.fields) }
    ensures cost { OnOk result (steps.new ≡ steps.old + length (found_items chain.now (option_copied cell.entry))) }
{
    if let Some(Cell::Event(record)) = cell {
        let items = chain.upcast(alloc, record)?;
        take_items(alloc, row, items.parts(), rules, steps)?;
    }
    Ok(())
}

#[tactic(auto, using(ax_projections::proofs::RowLaws::length_applied))]
fn take_items<L: Ledger>(
    alloc: Global,
    row: &mut Row,
    items: &[Item],
    rules: &Rules,
    steps: &mut Steps<L>,
) -> Result<(), NoMemory>
    requires { length row.old ≡ length rules.now.fields }
    ensures row { OnOk result (row.new ≡ lenient_from rules.now items.now row.old) }
    ensures fields { OnOk result (length row.new ≡ length rules.now.fields) }
    ensures cost { OnOk result (steps.new ≡ steps.old + length items.now) }
{
    for item in items {
        take_item(alloc, row, item, rules, steps)?;
    }
    Ok(())
}

/// Takes an item, which leaves the row where it does not apply.
fn take_item<L: Ledger>(
    alloc: Global,
    row: &mut Row,
    item: &Item,
    rules: &Rules,
    steps: &mut Steps<L>,
) -> Result<(), NoMemory>
    requires { length row.old ≡ length rules.now.fields }
    ensures row { OnOk result (row.new ≡ row_or row.old (applied rules.now row.old item.now)) }
    ensures cost { OnOk result (steps.new ≡ steps.old + 1) }
{
    if let Applied::Row(next) = rules.apply(alloc, row, item)? {
        *row = next;
    }
    steps.tick();
    Ok(())
}
