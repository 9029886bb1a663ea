ghost use Rattle.std.specs.Prelude.{◌≡◌, ◌∷◌, [], IfOk, OnOk};
ghost use Rattle.ax_log.specs.Log.{put_at};
ghost use Rattle.ax_log.specs.Puts.{CanPut};
ghost use Rattle.ax_snapshot_cases.specs.Grows.{Grows};

use ax_case_lines::{CaseFault, name_of, payload_of, two_words};
use ax_log::{CellPut, Log};
use ax_values::{Duplicate, Name, NoMemory, Payload, Record};
use std::alloc::Global;
use std::slice;

/// An event that is not in a log yet.
#[derive(Drop)]
pub(crate) struct Coming {
    pub(crate) aggregate: Name,
    pub(crate) kind: Name,
    pub(crate) payload: Payload,
}

/// The event `AGGREGATE KIND PAYLOAD`, of at most 16 fields.
pub(crate) fn event_of(alloc: Global, text: &[u8]) -> Result<Coming, CaseFault> {
    let (aggregate, kind, payload) = two_words(text);
    let aggregate = name_of(alloc, aggregate)?;
    let kind = name_of(alloc, kind)?;
    let payload = payload_of(alloc, payload)?;
    Ok(Coming {
        aggregate,
        kind,
        payload,
    })
}

/// Adds the events at the end of the log.
#[tactic(auto, using(crate::proofs::Growth::grows_not, crate::proofs::Growth::grows_more))]
pub(crate) fn append_all(alloc: Global, log: &mut Log, events: &[Coming]) -> Result<(), CaseFault>
    ensures { OnOk result (Grows log.old.cells log.new.cells) }
{
    for event in events {
        append_end(alloc, log, event)?;
    }
    Ok(())
}

/// Adds an event of at most 16 fields at the end of the log.
#[tactic(auto, using(crate::proofs::Growth::grows_not, crate::proofs::Growth::grows_put))]
fn append_end(alloc: Global, log: &mut Log, event: &Coming) -> Result<(), CaseFault>
    ensures { OnOk result (Grows log.old.cells log.new.cells) }
{
    let first = log.cells().len() as u32;
    let records = one_record(alloc, event, log.length_of(&event.aggregate))?;
    if event.payload.parts().len() > 16 {
        return Err(CaseFault::Line);
    }
    let Ok(puts) = log.append(alloc, first, records) else {
        return Err(CaseFault::Line);
    };
    let Some(change) = puts.into_parts().pop() else {
        unreachable!()
    };
    Ok(put_one(log, change)?)
}

fn put_one(log: &mut Log, change: CellPut) -> Result<(), NoMemory>
    requires { CanPut log.old.cells change }
    ensures { OnOk result (log.new.cells ≡ put_at log.old.cells change.index change.cell) }
{
    log.room(slice::from_ref(&change))?;
    log.put(change);
    Ok(())
}

/// The event as the record of a sequence number.
fn one_record(alloc: Global, event: &Coming, seq: u32) -> Result<Vec<Record>, NoMemory>
    ensures { IfOk result (λ records. records.items ≡ record { aggregate = event.now.aggregate; seq = seq; kind = event.now.kind; revision = 1; payload = event.now.payload } ∷ []) }
{
    let aggregate = event.aggregate.copy(alloc)?;
    let kind = event.kind.copy(alloc)?;
    let payload = event.payload.copy(alloc)?;
    let record = Record {
        aggregate,
        seq,
        kind,
        revision: 1,
        payload,
    };
    Ok(vec![in alloc; record]?)
}
