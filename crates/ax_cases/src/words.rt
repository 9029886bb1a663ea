use crate::answers::{write_none, write_whether};
use ax_case_lines::{CaseFault, CaseLine, case_named, first_word, name_of, payload_of, u32_of};
use ax_values::{
    Cell, Duplicate, ItemName, Mark, Name, Names, NoMemory, Payload, Record, Records, Same, Seen,
    Text, Value, event_id, line_words, read_int, read_number, read_u32, write_int, write_number,
    write_u32,
};
use std::alloc::Global;

/// Adds what is written of a value that was read, or `none`. It stands last in a function.
macro_rules! written_or_none {
    ($read:expr, $out:expr; $value:ident => $written:expr) => {
        match $read {
            Some($value) => Ok($written?),
            None => write_none($out),
        }
    };
}

/// What a word is read as.
#[derive(Clone, Copy)]
pub(crate) enum WordCase {
    Number,
    Int,
    U32,
    Name,
    Content,
    Value,
    Payload,
    Item,
    Mark,
    Seen,
    Event,
    Cell,
    Get,
    Records,
    Names,
}

impl WordCase {
    pub(crate) fn named(word: &[u8]) -> Option<WordCase> {
        case_named!(word;
            b"number" => WordCase::Number,
            b"int" => WordCase::Int,
            b"u32" => WordCase::U32,
            b"name" => WordCase::Name,
            b"content" => WordCase::Content,
            b"value" => WordCase::Value,
            b"payload" => WordCase::Payload,
            b"item" => WordCase::Item,
            b"mark" => WordCase::Mark,
            b"seen" => WordCase::Seen,
            b"id" => WordCase::Event,
            b"cell" => WordCase::Cell,
            b"get" => WordCase::Get,
            b"records" => WordCase::Records,
            b"names" => WordCase::Names
        )
    }
}

pub(crate) fn perform(case: WordCase, line: &mut CaseLine) -> Result<(), CaseFault> {
    let (alloc, text, out) = (line.alloc, line.text.as_slice(), &mut line.out);
    match case {
        WordCase::Number => write_read_number(text, out),
        WordCase::Int => write_read_int(text, out),
        WordCase::U32 => write_read_u32(text, out),
        WordCase::Name => write_read_name(alloc, text, out),
        WordCase::Content => write_content(alloc, text, out),
        WordCase::Value => write_read_value(alloc, text, out),
        WordCase::Payload => write_read_payload(alloc, text, out),
        WordCase::Item => write_read_item(alloc, text, out),
        WordCase::Mark => write_read_mark(text, out),
        WordCase::Seen => write_read_seen(alloc, text, out),
        WordCase::Event => write_id(alloc, text, out),
        WordCase::Cell => write_copied(alloc, text, out),
        WordCase::Get => write_got(alloc, text, out),
        WordCase::Records => write_records(alloc, text, out),
        WordCase::Names => write_names(alloc, text, out),
    }
}

fn write_read_number(text: &[u8], out: &mut Vec<u8>) -> Result<(), CaseFault> {
    written_or_none!(read_number(text), out; number => write_number(number, out))
}

fn write_read_int(text: &[u8], out: &mut Vec<u8>) -> Result<(), CaseFault> {
    written_or_none!(read_int(text), out; number => write_int(number, out))
}

fn write_read_u32(text: &[u8], out: &mut Vec<u8>) -> Result<(), CaseFault> {
    written_or_none!(read_u32(text), out; number => write_u32(number, out))
}

/// A name is made of its own bytes once more, before its copy is written.
fn write_read_name(alloc: Global, text: &[u8], out: &mut Vec<u8>) -> Result<(), CaseFault> {
    written_or_none!(Name::read(alloc, text)?, out; name => write_name(alloc, &name, out))
}

fn write_name(alloc: Global, name: &Name, out: &mut Vec<u8>) -> Result<(), CaseFault> {
    let again = Name::of(name.parts().to_vec(alloc)?);
    Ok(again.copy(alloc)?.write(out)?)
}

/// A text is made of its content, and of its own bytes once more, before its copy is written.
fn write_content(alloc: Global, content: &[u8], out: &mut Vec<u8>) -> Result<(), CaseFault> {
    written_or_none!(Text::from_content(alloc, content)?, out; text => write_text(alloc, &text, out))
}

fn write_text(alloc: Global, text: &Text, out: &mut Vec<u8>) -> Result<(), CaseFault> {
    let again = Text::of(text.parts().to_vec(alloc)?);
    Ok(again.copy(alloc)?.write(out)?)
}

fn write_read_value(alloc: Global, text: &[u8], out: &mut Vec<u8>) -> Result<(), CaseFault> {
    written_or_none!(Value::read(alloc, text)?, out; value => value.copy(alloc)?.write(out))
}

fn write_read_payload(alloc: Global, text: &[u8], out: &mut Vec<u8>) -> Result<(), CaseFault> {
    written_or_none!(Payload::read(alloc, text)?, out; payload => payload.copy(alloc)?.write(out))
}

fn write_read_item(alloc: Global, text: &[u8], out: &mut Vec<u8>) -> Result<(), CaseFault> {
    written_or_none!(ItemName::read(alloc, text)?, out; item => item.copy(alloc)?.write(out))
}

fn write_read_mark(text: &[u8], out: &mut Vec<u8>) -> Result<(), CaseFault> {
    written_or_none!(Mark::read(text), out; mark => mark.write(out))
}

fn write_read_seen(alloc: Global, text: &[u8], out: &mut Vec<u8>) -> Result<(), CaseFault> {
    let words = line_words(alloc, text)?;
    written_or_none!(Seen::read(alloc, &words)?, out; seen => seen.copy(alloc)?.write(out))
}

/// The identifier of the event `AGGREGATE SEQ`.
fn write_id(alloc: Global, text: &[u8], out: &mut Vec<u8>) -> Result<(), CaseFault> {
    let (aggregate, seq) = first_word(text);
    let aggregate = name_of(alloc, aggregate)?;
    let id = event_id(alloc, &aggregate, u32_of(seq)?)?;
    let text = format!(in alloc; "{id}")?;
    out.extend_from_slice(text.as_bytes())?;
    Ok(())
}

/// The record `AGGREGATE PAYLOAD` of the kind `issued`.
fn record_from(alloc: Global, text: &[u8]) -> Result<Record, CaseFault> {
    let (aggregate, payload) = first_word(text);
    let aggregate = name_of(alloc, aggregate)?;
    let kind = name_of(alloc, b"issued")?;
    let payload = payload_of(alloc, payload)?;
    Ok(Record {
        seq: 0,
        revision: 1,
        aggregate,
        kind,
        payload,
    })
}

/// Whether the copy of an event's cell, made of a copy of its record, has the same payload.
fn write_copied(alloc: Global, text: &[u8], out: &mut Vec<u8>) -> Result<(), CaseFault> {
    let record = record_from(alloc, text)?;
    let same = is_copied(alloc, &record);
    drop(record);
    write_whether(same?, out)
}

fn is_copied(alloc: Global, record: &Record) -> Result<bool, NoMemory> {
    let cell = Cell::Event(record.copy(alloc)?);
    let copied = cell.copy(alloc);
    drop(cell);
    let copied = copied?;
    let same = has_payload(&copied, &record.payload);
    drop(copied);
    Ok(same)
}

fn has_payload(cell: &Cell, payload: &Payload) -> bool {
    match cell {
        Cell::Event(record) => record.payload.same(payload),
        _ => false,
    }
}

/// The value that the payload has under a name: `NAME PAYLOAD`.
fn write_got(alloc: Global, text: &[u8], out: &mut Vec<u8>) -> Result<(), CaseFault> {
    let (word, payload) = first_word(text);
    let name = name_of(alloc, word)?;
    let payload = payload_of(alloc, payload)?;
    written_or_none!(payload.get(&name), out; value => value.write(out))
}

/// How many records the copy of a list of one has.
fn write_records(alloc: Global, text: &[u8], out: &mut Vec<u8>) -> Result<(), CaseFault> {
    let mut records = Records::new(alloc);
    records.push(record_from(alloc, text)?)?;
    let count = records.copy(alloc)?.parts().len();
    Ok(write_number(count as u64, out)?)
}

/// How many names there are, and whether a copy of their list is the same.
fn write_names(alloc: Global, text: &[u8], out: &mut Vec<u8>) -> Result<(), CaseFault> {
    let names = names_from(alloc, text)?;
    let copied = names.copy(alloc)?;
    write_number(names.parts().len() as u64, out)?;
    out.push(b' ')?;
    write_whether(copied.same(&names), out)
}

fn names_from(alloc: Global, text: &[u8]) -> Result<Names, CaseFault> {
    let mut names = Names::new(alloc);
    for word in line_words(alloc, text)? {
        names.push(name_of(alloc, word)?)?;
    }
    Ok(names)
}
