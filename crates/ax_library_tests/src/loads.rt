ghost use Rattle.std.specs.Prelude.{◌≡◌, ◌∷◌, [], IfOk};
ghost use Rattle.ax_log.specs.Puts.{CanPut};

use ax_case_lines::{CaseFault, name_of};
use ax_log::{CellPut, Log};
use ax_repo::{Snapshot, Steps, load, take_snapshot};
use ax_rules::{Row, Rules};
use ax_sheet::Sheet;
use ax_upcast::Chain;
use ax_values::{Duplicate, Name, NoMemory, Payload, Record};
use std::alloc::Global;
use std::marker::Brand;
use std::slice;
use std::sync::ledger::{Blank, Ledger};
use std::test::Fail;

/// A log with one event of an aggregate.
fn one_event(alloc: Global, aggregate: &Name) -> Result<Log, CaseFault> {
    let mut log = Log::new(alloc);
    let kind = name_of(alloc, b"noted")?;
    let records = first_records(alloc, aggregate.copy(alloc)?, kind)?;
    let Ok(puts) = log.append(alloc, 0, records) else {
        return Err(CaseFault::Memory);
    };
    let Some(change) = puts.into_parts().pop() else {
        return Err(CaseFault::Memory);
    };
    put_one(&mut log, change)?;
    Ok(log)
}

/// The first record of an aggregate.
fn first_records(alloc: Global, aggregate: Name, kind: Name) -> Result<Vec<Record>, NoMemory>
    ensures { IfOk result (λ records. records.items ≡ record { aggregate = aggregate; seq = 0; kind = kind; revision = 1; payload = [] } ∷ []) }
{
    let payload = Payload::of(Vec::new(alloc));
    let record = Record {
        aggregate,
        seq: 0,
        kind,
        revision: 1,
        payload,
    };
    Ok(vec![in alloc; record]?)
}

fn put_one(log: &mut Log, change: CellPut) -> Result<(), NoMemory>
    requires { CanPut log.old.cells change }
{
    log.room(slice::from_ref(&change))?;
    log.put(change);
    Ok(())
}

/// The state of an aggregate without a snapshot, by a ledger that nobody reads.
fn load_without(
    alloc: Global,
    log: &Log,
    rules: &Rules,
    chain: &Chain,
    aggregate: &Name,
) -> Result<Row, NoMemory> {
    uncounted::<Brand>(alloc, log, rules, chain, aggregate, Blank::new(1))
}

fn uncounted<L: Ledger>(
    alloc: Global,
    log: &Log,
    rules: &Rules,
    chain: &Chain,
    aggregate: &Name,
    blank: Blank,
) -> Result<Row, NoMemory>
    requires name { blank.name ≡ L.name }
    requires parts { blank.parts ≡ L.parts }
    requires some { blank.parts ≡ 1 }
{
    let mut steps = Steps::<L>::new(blank);
    load(alloc, log, rules, chain, 1, None, aggregate, &mut steps)
}

/// Whether a state is read.
fn is_loaded(alloc: Global, log: &Log, cards: &Sheet, card: &Name) -> Result<bool, NoMemory> {
    let state = load_without(alloc, log, cards.aggregate(), cards.chain(), card)?;
    Ok(state.parts().len() == 2)
}

/// The snapshot of a card.
fn taken(alloc: Global, log: &Log, cards: &Sheet, card: &Name) -> Result<Snapshot, CaseFault> {
    let taken = take_snapshot(alloc, log, cards.aggregate(), cards.chain(), 1, card)?;
    taken.ok_or(CaseFault::Line)
}

/// Whether a snapshot is taken and copied.
fn is_taken(alloc: Global, log: &Log, cards: &Sheet, card: &Name) -> Result<bool, CaseFault> {
    let snapshot = taken(alloc, log, cards, card)?;
    let copied = snapshot.copy(alloc)?;
    Ok(copied.events == 1)
}

/// Whether a state is read of a log with one event, and a snapshot is taken.
fn is_read(alloc: Global, cards: &Sheet) -> Result<bool, CaseFault> {
    let card = name_of(alloc, b"card-1")?;
    let log = one_event(alloc, &card)?;
    let loaded = is_loaded(alloc, &log, cards, &card)?;
    let taken = is_taken(alloc, &log, cards, &card)?;
    Ok(loaded && taken)
}

#[test]
fn a_state_is_read(rt: HostRuntime) -> Result<(), Fail> {
    let alloc = rt.alloc();
    let cards = Sheet::cards(alloc)?;
    assert!(rt; is_read(alloc, &cards)?);
    Ok(())
}
