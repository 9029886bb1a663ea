use ax_case_lines::{
    CaseFault, CaseLine, case_named, first_word, four_words, item_of, name_of, payload_of, u32_of,
    write_either, write_ints,
};
use ax_rules::{Applied, Row, Rules, Why};
use ax_sheet::Sheet;
use ax_values::{Duplicate, Item, NoMemory, Record, Same};
use std::alloc::Global;

/// What is asked of a sheet's rules and upcasters.
#[derive(Clone, Copy)]
pub(crate) enum RuleCase {
    Apply,
    Same,
    Why,
    Upcast,
}

impl RuleCase {
    pub(crate) fn named(word: &[u8]) -> Option<RuleCase> {
        case_named!(word;
            b"apply" => RuleCase::Apply,
            b"same" => RuleCase::Same,
            b"why" => RuleCase::Why,
            b"upcast" => RuleCase::Upcast
        )
    }
}

pub(crate) fn perform(sheet: &Sheet, case: RuleCase, line: &mut CaseLine) -> Result<(), CaseFault> {
    let (alloc, text, out) = (line.alloc, line.text.as_slice(), &mut line.out);
    match case {
        RuleCase::Apply => {
            let (word, rest) = first_word(text);
            let item = item_from(alloc, rest)?;
            write_applied(alloc, rules_of(alloc, sheet, word)?, &item, out)
        }
        RuleCase::Same => {
            let rules = rules_of(alloc, sheet, text)?;
            let same = is_same_copied(alloc, rules)?;
            write_either(same, b"same", b"not the same", out)
        }
        RuleCase::Why => write_read_why(alloc, text, out),
        RuleCase::Upcast => {
            let record = record_from(alloc, text)?;
            Ok(write_items(alloc, sheet, &record, out)?)
        }
    }
}

/// The rules of the projection of this name.
fn rules_of<'a>(alloc: Global, sheet: &'a Sheet, word: &[u8]) -> Result<&'a Rules, CaseFault> {
    let name = name_of(alloc, word)?;
    sheet.projection(&name).ok_or(CaseFault::Line)
}

/// The item of a kind and a payload. It is a copy, which is the same as what was copied.
fn item_from(alloc: Global, text: &[u8]) -> Result<Item, CaseFault> {
    let (kind, payload) = first_word(text);
    let item = Item {
        name: item_of(alloc, b"card-1.0.0")?,
        kind: name_of(alloc, kind)?,
        payload: payload_of(alloc, payload)?,
    };
    let copied = item.copy(alloc)?;
    if copied.same(&item) {
        Ok(copied)
    } else {
        Err(CaseFault::Line)
    }
}

/// The row that the rules make of the first row and the item, or why they make none.
fn write_applied(
    alloc: Global,
    rules: &Rules,
    item: &Item,
    out: &mut Vec<u8>,
) -> Result<(), CaseFault> {
    let row = rules.start(alloc)?;
    match rules.apply(alloc, &row, item)? {
        Applied::Row(row) => Ok(write_row(&row, out)?),
        Applied::Fault(cause) => {
            let why = Why::Failed(cause);
            let written = write_why(alloc, &why, out);
            drop(why);
            written
        }
    }
}

fn write_row(row: &Row, out: &mut Vec<u8>) -> Result<(), NoMemory> {
    out.extend_from_slice(b"row")?;
    write_ints(row.parts(), out)
}

fn is_same_copied(alloc: Global, rules: &Rules) -> Result<bool, NoMemory> {
    let copied = rules.copy(alloc)?;
    let same = copied.same(rules);
    drop(copied);
    Ok(same)
}

/// The why that a text is. It is given to `drop`, since a `drop` in place is proved anew in each function.
fn write_read_why(alloc: Global, text: &[u8], out: &mut Vec<u8>) -> Result<(), CaseFault> {
    match Why::read(alloc, text)? {
        Some(why) => {
            let written = why.write(out);
            drop(why);
            Ok(written?)
        }
        None => Ok(out.extend_from_slice(b"none")?),
    }
}

/// The text of a why, written, read, copied and written again.
fn write_why(alloc: Global, why: &Why, out: &mut Vec<u8>) -> Result<(), CaseFault> {
    let mut text = Vec::new(alloc);
    why.write(&mut text)?;
    match Why::read(alloc, &text)? {
        Some(again) => {
            let written = write_copy(alloc, &again, out);
            drop(again);
            Ok(written?)
        }
        None => Err(CaseFault::Line),
    }
}

fn write_copy(alloc: Global, why: &Why, out: &mut Vec<u8>) -> Result<(), NoMemory> {
    let copied = why.copy(alloc)?;
    let written = copied.write(out);
    drop(copied);
    written
}

/// The record `AGGREGATE SEQ KIND REVISION PAYLOAD`.
fn record_from(alloc: Global, text: &[u8]) -> Result<Record, CaseFault> {
    let (aggregate, seq, kind, revision, payload) = four_words(text);
    Ok(Record {
        seq: u32_of(seq)?,
        revision: u32_of(revision)?,
        aggregate: name_of(alloc, aggregate)?,
        kind: name_of(alloc, kind)?,
        payload: payload_of(alloc, payload)?,
    })
}

/// The items of a record as `NAME KIND PAYLOAD;` each, through a copy of the sheet's chain.
fn write_items(
    alloc: Global,
    sheet: &Sheet,
    record: &Record,
    out: &mut Vec<u8>,
) -> Result<(), NoMemory> {
    let chain = sheet.chain().copy(alloc)?;
    for item in chain.upcast(alloc, record)?.parts() {
        write_item(item, out)?;
    }
    Ok(())
}

fn write_item(item: &Item, out: &mut Vec<u8>) -> Result<(), NoMemory> {
    item.name.write(out)?;
    out.push(b' ')?;
    item.kind.write(out)?;
    out.push(b' ')?;
    item.payload.write(out)?;
    out.push(b';')?;
    Ok(())
}
