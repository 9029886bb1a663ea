ghost use Rattle.std.specs.Prelude.{◌≡◌, [], ◌∷◌, slice_get, IfOk, OnOk};
ghost use Rattle.ax_log.specs.Log.{put_at};
ghost use Rattle.ax_log.specs.Puts.{CanPut, CanPutAll, put_all};
ghost use Rattle.ax_log.specs.Answers.{IsKeptFor};

use crate::answers::write_none;
use ax_case_lines::{
    CaseFault, CaseLine, case_named, first_word, name_of, two_words, u32_of, u64_of,
};
use ax_log::{CellPut, CellPuts, Log, LogFault};
use ax_values::{Cell, Duplicate, Name, NoMemory, Payload, Record, write_number, write_u32};
use std::alloc::Global;
use std::slice;

/// What is done with the log, or asked of it.
#[derive(Clone, Copy)]
pub(crate) enum LogCase {
    Start,
    Reserve,
    Append,
    End,
    Void,
    Stream,
    Scan,
}

impl LogCase {
    pub(crate) fn named(word: &[u8]) -> Option<LogCase> {
        case_named!(word;
            b"log" => LogCase::Start,
            b"reserve" => LogCase::Reserve,
            b"append" => LogCase::Append,
            b"end" => LogCase::End,
            b"void" => LogCase::Void,
            b"stream" => LogCase::Stream,
            b"scan" => LogCase::Scan
        )
    }
}

pub(crate) fn perform(log: &mut Log, case: LogCase, line: &mut CaseLine) -> Result<(), CaseFault> {
    let (alloc, text, out) = (line.alloc, line.text.as_slice(), &mut line.out);
    match case {
        LogCase::Start => {
            *log = Log::new(alloc);
            Ok(())
        }
        LogCase::Reserve => reserve(alloc, log, text, out),
        LogCase::Append => append(alloc, log, text, out),
        LogCase::End => append_end(alloc, log, text, out),
        LogCase::Void => void(log, text, out),
        LogCase::Stream => write_stream(alloc, log, text, out),
        LogCase::Scan => write_cell(log.scan(u32_of(text)?), out),
    }
}

/// One event of the aggregate.
fn one_event(alloc: Global, aggregate: &Name, seq: u32) -> Result<Vec<Record>, NoMemory>
    ensures { IfOk result (λ records. records.items ≡ record { aggregate = aggregate.now; seq = seq; kind = aggregate.now; revision = 1; payload = [] } ∷ []) }
{
    let event = Record {
        aggregate: aggregate.copy(alloc)?,
        seq,
        kind: aggregate.copy(alloc)?,
        revision: 1,
        payload: Payload::of(Vec::new(alloc)),
    };
    let mut records = Vec::new(alloc);
    records.push(event)?;
    Ok(records)
}

/// The first number of what the cell is kept for.
fn number_at(log: &Log, index: u32, aggregate: &Name) -> Result<u32, CaseFault>
    ensures { IfOk result (λ number. IsKeptFor aggregate.now number (slice_get log.now.cells index)) }
{
    match log.scan(index) {
        Some(
            Cell::Reserved {
                aggregate: owner,
                first_seq,
                ..
            },
        ) => {
            if owner.same(aggregate) {
                Ok(*first_seq)
            } else {
                Err(CaseFault::Line)
            }
        }
        Some(Cell::Void) => Ok(0),
        _ => Err(CaseFault::Line),
    }
}

/// Reserves cells: `AGGREGATE ACTOR COUNT`, at the time 0.
fn reserve(alloc: Global, log: &mut Log, text: &[u8], out: &mut Vec<u8>) -> Result<(), CaseFault> {
    let (aggregate, actor, count) = two_words(text);
    let count = u32_of(count)?;
    let aggregate = name_of(alloc, aggregate)?;
    let actor = name_of(alloc, actor)?;
    let answered = log.reserve(alloc, &aggregate, &actor, count, 0);
    make_or_write(log, answered, out)
}

/// Puts one event where a cell is void or reserved for it: `AGGREGATE INDEX`.
fn append(alloc: Global, log: &mut Log, text: &[u8], out: &mut Vec<u8>) -> Result<(), CaseFault> {
    let (aggregate, first) = first_word(text);
    let first = u32_of(first)?;
    let aggregate = name_of(alloc, aggregate)?;
    let seq = number_at(log, first, &aggregate)?;
    let answered = append_one(alloc, log, first, &aggregate, seq);
    make_or_write(log, answered, out)
}

fn append_one(
    alloc: Global,
    log: &Log,
    first: u32,
    aggregate: &Name,
    seq: u32,
) -> Result<CellPuts, LogFault>
    requires { IsKeptFor aggregate.now seq (slice_get log.now.cells first) }
    ensures { IfOk result (CanPutAll log.now.cells) }
{
    let records = one_event(alloc, aggregate, seq)?;
    log.append(alloc, first, records)
}

/// Puts one event of the aggregate at the end.
fn append_end(
    alloc: Global,
    log: &mut Log,
    word: &[u8],
    out: &mut Vec<u8>,
) -> Result<(), CaseFault> {
    let aggregate = name_of(alloc, word)?;
    let answered = end_one(alloc, log, &aggregate);
    make_or_write(log, answered, out)
}

fn end_one(alloc: Global, log: &Log, aggregate: &Name) -> Result<CellPuts, LogFault>
    ensures { IfOk result (CanPutAll log.now.cells) }
{
    let first = log.cells().len() as u32;
    let records = one_event(alloc, aggregate, log.length_of(aggregate))?;
    log.append(alloc, first, records)
}

/// Makes a reserved cell void: `INDEX MOMENT`.
fn void(log: &mut Log, text: &[u8], out: &mut Vec<u8>) -> Result<(), CaseFault> {
    let (index, moment) = first_word(text);
    let index = u32_of(index)?;
    let moment = u64_of(moment)?;
    match log.void(index, moment) {
        Ok(change) => Ok(make_one(log, change)?),
        Err(fault) => write_fault(&fault, out),
    }
}

/// Makes the puts, or says why there are none.
fn make_or_write(
    log: &mut Log,
    answered: Result<CellPuts, LogFault>,
    out: &mut Vec<u8>,
) -> Result<(), CaseFault>
    requires { IfOk answered (CanPutAll log.old.cells) }
{
    match answered {
        Ok(puts) => Ok(make(log, puts)?),
        Err(fault) => write_fault(&fault, out),
    }
}

/// Makes the puts.
fn make(log: &mut Log, puts: CellPuts) -> Result<(), NoMemory>
    requires { CanPutAll log.old.cells puts }
    ensures { OnOk result (log.new.cells ≡ put_all puts log.old.cells) }
{
    for change in puts.into_parts() {
        make_one(log, change)?;
    }
    Ok(())
}

fn make_one(log: &mut Log, change: CellPut) -> Result<(), NoMemory>
    requires { CanPut log.old.cells change }
    ensures { OnOk result (log.new.cells ≡ put_at log.old.cells change.index change.cell) }
{
    log.room(slice::from_ref(&change))?;
    log.put(change);
    Ok(())
}

/// Why the log makes no change.
fn write_fault(fault: &LogFault, out: &mut Vec<u8>) -> Result<(), CaseFault> {
    match fault {
        LogFault::Conflict { expected, found } => {
            out.extend_from_slice(b"conflict ")?;
            write_u32(*expected, out)?;
            out.push(b' ')?;
            write_u32(*found, out)?;
        }
        LogFault::Voided { index } => {
            out.extend_from_slice(b"voided ")?;
            write_u32(*index, out)?;
        }
        LogFault::NotReserved => out.extend_from_slice(b"not reserved")?,
        LogFault::Young { since } => {
            out.extend_from_slice(b"young ")?;
            write_number(*since, out)?;
        }
        LogFault::LogFull => out.extend_from_slice(b"full")?,
        LogFault::Memory => return Err(CaseFault::Memory),
    }
    Ok(())
}

/// How many events the aggregate has, and their indexes.
fn write_stream(alloc: Global, log: &Log, word: &[u8], out: &mut Vec<u8>) -> Result<(), CaseFault> {
    let aggregate = name_of(alloc, word)?;
    write_u32(log.length_of(&aggregate), out)?;
    out.push(b':')?;
    for index in log.stream(alloc, &aggregate)? {
        out.push(b' ')?;
        write_u32(index, out)?;
    }
    Ok(())
}

fn write_cell(cell: Option<&Cell>, out: &mut Vec<u8>) -> Result<(), CaseFault> {
    match cell {
        None => return write_none(out),
        Some(Cell::Void) => out.extend_from_slice(b"void")?,
        Some(Cell::Reserved { .. }) => out.extend_from_slice(b"reserved")?,
        Some(Cell::Event(_)) => out.extend_from_slice(b"event")?,
    }
    Ok(())
}
