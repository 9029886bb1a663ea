use crate::events::{Coming, append_all};
use crate::loads::{Moment, load_at};
use ax_case_lines::{CaseFault, CaseLine, first_word, name_of, two_words, u32_of, write_ints};
use ax_log::Log;
use ax_repo::{Snapshot, take_snapshot};
use ax_rules::{Row, Rules};
use ax_sheet::Sheet;
use ax_values::{NoMemory, write_number, write_u32};
use std::alloc::Global;

/// The snapshot of an aggregate after all events of the list: `AGGREGATE REVISION`.
pub(crate) fn write_taken(
    sheet: &Sheet,
    events: &[Coming],
    line: &mut CaseLine,
) -> Result<(), CaseFault> {
    let alloc = line.alloc;
    let rules = balance(alloc, sheet)?;
    let (aggregate, revision) = first_word(&line.text);
    let revision = u32_of(revision)?;
    let aggregate = name_of(alloc, aggregate)?;
    let mut log = Log::new(alloc);
    append_all(alloc, &mut log, events)?;
    let taken = take_snapshot(alloc, &log, rules, sheet.chain(), revision, &aggregate)?;
    Ok(write_snapshot(taken.as_ref(), &mut line.out)?)
}

fn write_snapshot(snapshot: Option<&Snapshot>, out: &mut Vec<u8>) -> Result<(), NoMemory> {
    let Some(snapshot) = snapshot else {
        return Ok(out.extend_from_slice(b"none")?);
    };
    snapshot.aggregate.write(out)?;
    out.extend_from_slice(b" revision ")?;
    write_u32(snapshot.revision, out)?;
    out.extend_from_slice(b" events ")?;
    write_u32(snapshot.events, out)?;
    write_state(&snapshot.state, out)
}

fn write_state(state: &Row, out: &mut Vec<u8>) -> Result<(), NoMemory> {
    out.extend_from_slice(b" state")?;
    write_ints(state.parts(), out)
}

/// The state of an aggregate after all events of the list, by a sheet of a revision, from a snapshot that was taken at a moment:
/// `AGGREGATE REVISION AFTER REVISION`.
pub(crate) fn write_loaded(
    sheet: &Sheet,
    events: &[Coming],
    line: &mut CaseLine,
) -> Result<(), CaseFault> {
    let alloc = line.alloc;
    let rules = balance(alloc, sheet)?;
    let (aggregate, revision, moment) = two_words(&line.text);
    let revision = u32_of(revision)?;
    let moment = moment_of(moment)?;
    let aggregate = name_of(alloc, aggregate)?;
    let chain = sheet.chain();
    let loaded = load_at(alloc, rules, chain, events, &aggregate, revision, moment)?;
    line.out.extend_from_slice(b"steps ")?;
    write_number(loaded.steps, &mut line.out)?;
    Ok(write_state(&loaded.state, &mut line.out)?)
}

/// The rules of the balance of gift cards.
fn balance(alloc: Global, sheet: &Sheet) -> Result<&Rules, CaseFault> {
    let name = name_of(alloc, b"balance")?;
    let rules = sheet.projection(&name);
    drop(name);
    rules.ok_or(CaseFault::Line)
}

/// The moment `AFTER REVISION`.
fn moment_of(text: &[u8]) -> Result<Moment, CaseFault> {
    let (after, revision) = first_word(text);
    let after = u32_of(after)? as usize;
    let revision = u32_of(revision)?;
    Ok(Moment { after, revision })
}
