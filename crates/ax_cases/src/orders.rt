use crate::answers::{write_none, write_whether};
use crate::replies::reply_of;
use ax_case_lines::{CaseFault, CaseLine, case_named, first_word, name_of};
use ax_journal::{
    Arguments, Entry, Lines, Order, Orders, Reply, read_form, read_step, read_steps, write_entry,
    write_order, write_reply,
};
use ax_values::{Duplicate, Line, Name, NoMemory, line_words, write_u32};
use std::alloc::Global;

// A value of many variants is given to `drop` here where it is no longer needed: a `drop` in place is proved anew for each variant in
// each function.

/// What is asked of orders, replies and entries.
#[derive(Clone, Copy)]
pub(crate) enum OrderCase {
    Order,
    Sorted,
    Steps,
    Built,
    Reply,
    Code,
    Report,
    Entry,
}

impl OrderCase {
    pub(crate) fn named(word: &[u8]) -> Option<OrderCase> {
        case_named!(word;
            b"order" => OrderCase::Order,
            b"sorted" => OrderCase::Sorted,
            b"steps" => OrderCase::Steps,
            b"built" => OrderCase::Built,
            b"reply" => OrderCase::Reply,
            b"code" => OrderCase::Code,
            b"report" => OrderCase::Report,
            b"entry" => OrderCase::Entry
        )
    }
}

pub(crate) fn perform(
    report: &mut Lines,
    case: OrderCase,
    line: &mut CaseLine,
) -> Result<(), CaseFault> {
    let (alloc, text, out) = (line.alloc, line.text.as_slice(), &mut line.out);
    match case {
        OrderCase::Order => write_read_order(alloc, text, Arguments::Rising, out),
        OrderCase::Sorted => write_read_order(alloc, text, Arguments::AnyOrder, out),
        OrderCase::Steps => write_steps(alloc, text, out),
        OrderCase::Built => write_built(alloc, text, out),
        OrderCase::Reply => write_given_reply(alloc, text, out),
        OrderCase::Code => write_code(alloc, text, out),
        OrderCase::Report => Ok(report.push(Line::of(text.to_vec(alloc)?))?),
        OrderCase::Entry => write_report(alloc, report, text, out),
    }
}

fn order_of(alloc: Global, text: &[u8], args: Arguments) -> Result<Option<Order>, NoMemory> {
    let words = line_words(alloc, text)?;
    match read_form(&words) {
        Some((form, fields)) => read_step(alloc, form, fields, args),
        None => Ok(None),
    }
}

fn write_read_order(
    alloc: Global,
    text: &[u8],
    args: Arguments,
    out: &mut Vec<u8>,
) -> Result<(), CaseFault> {
    match order_of(alloc, text, args)? {
        Some(order) => {
            let written = write_order(&order, out);
            drop(order);
            Ok(written?)
        }
        None => write_none(out),
    }
}

/// The steps of a line of a script, each after a bar.
fn write_steps(alloc: Global, text: &[u8], out: &mut Vec<u8>) -> Result<(), CaseFault> {
    let words = line_words(alloc, text)?;
    let Some((form, fields)) = read_form(&words) else {
        return write_none(out);
    };
    match read_steps(alloc, form, fields, Arguments::AnyOrder)? {
        Some(steps) => write_copies(alloc, &steps, out),
        None => write_none(out),
    }
}

/// A copy of each step, after a bar.
fn write_copies(alloc: Global, steps: &Orders, out: &mut Vec<u8>) -> Result<(), CaseFault> {
    let copied = steps.copy(alloc)?;
    for order in copied.parts() {
        out.push(b'|')?;
        write_order(order, out)?;
    }
    Ok(())
}

/// Whether the program performs orders of the form that the line has.
fn write_built(alloc: Global, text: &[u8], out: &mut Vec<u8>) -> Result<(), CaseFault> {
    let words = line_words(alloc, text)?;
    match read_form(&words) {
        Some((form, _)) => write_whether(form.is_built(), out),
        None => write_none(out),
    }
}

fn write_given_reply(alloc: Global, text: &[u8], out: &mut Vec<u8>) -> Result<(), CaseFault> {
    let reply = reply_of(alloc, text)?;
    let written = write_reply(&reply, out);
    drop(reply);
    Ok(written?)
}

/// The number of a reply.
fn write_code(alloc: Global, text: &[u8], out: &mut Vec<u8>) -> Result<(), CaseFault> {
    let reply = reply_of(alloc, text)?;
    let number = reply.number();
    drop(reply);
    Ok(write_u32(number, out)?)
}

/// An entry with the lines that were given.
fn write_report(
    alloc: Global,
    report: &Lines,
    text: &[u8],
    out: &mut Vec<u8>,
) -> Result<(), CaseFault> {
    let entry = entry_of(alloc, report, text)?;
    let written = write_lines(alloc, &entry, out);
    drop(entry);
    written
}

/// The entry `ACTOR ORDER`, whose reply is a report of the lines.
fn entry_of(alloc: Global, report: &Lines, text: &[u8]) -> Result<Entry, CaseFault> {
    let (actor, order) = first_word(text);
    let actor = name_of(alloc, actor)?;
    let report = report.copy(alloc)?;
    match order_of(alloc, order, Arguments::Rising)? {
        Some(order) => Ok(entry(actor, order, report)),
        None => Err(CaseFault::Line),
    }
}

fn entry(actor: Name, order: Order, report: Lines) -> Entry {
    let count = report.parts().len() as u64;
    Entry {
        actor,
        order,
        reply: Reply::Lines { count },
        report,
    }
}

/// The entry's text, with a bar for each end of a line.
fn write_lines(alloc: Global, entry: &Entry, out: &mut Vec<u8>) -> Result<(), CaseFault> {
    let mut text = Vec::new(alloc);
    text.push(b'x')?;
    write_entry(entry, &mut text)?;
    for &byte in text.iter() {
        out.push(if byte == b'\n' { b'|' } else { byte })?;
    }
    Ok(())
}
