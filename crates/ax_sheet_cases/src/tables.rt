use ax_case_lines::{
    CaseFault, CaseLine, case_named, int_of, name_of, two_words, u32_of, write_ints,
};
use ax_projections::{Positioned, Table};
use ax_rules::Row;
use ax_values::{Name, NoMemory, write_u32};
use std::alloc::Global;

/// What is done with a table of rows.
#[derive(Clone, Copy)]
pub(crate) enum TableCase {
    Reserve,
    Put,
    Rows,
    Len,
    At,
    Get,
    Clear,
}

impl TableCase {
    pub(crate) fn named(word: &[u8]) -> Option<TableCase> {
        case_named!(word;
            b"reserve" => TableCase::Reserve,
            b"put" => TableCase::Put,
            b"rows" => TableCase::Rows,
            b"len" => TableCase::Len,
            b"at" => TableCase::At,
            b"get" => TableCase::Get,
            b"clear" => TableCase::Clear
        )
    }
}

pub(crate) fn perform(
    table: &mut Table,
    case: TableCase,
    line: &mut CaseLine,
) -> Result<(), CaseFault> {
    let (alloc, text, out) = (line.alloc, line.text.as_slice(), &mut line.out);
    match case {
        TableCase::Reserve => table.reserve(u32_of(text)? as usize)?,
        TableCase::Put => put(alloc, table, text)?,
        TableCase::Rows => write_table(table, out)?,
        TableCase::Len => write_u32(table.len(), out)?,
        TableCase::At => match table.at(u32_of(text)?) {
            Some((aggregate, value)) => write_row(aggregate, value, out)?,
            None => out.extend_from_slice(b"none")?,
        },
        TableCase::Get => match table.get(&name_of(alloc, text)?) {
            Some(value) => write_u32(value.position, out)?,
            None => out.extend_from_slice(b"none")?,
        },
        TableCase::Clear => table.clear(),
    }
    Ok(())
}

/// Puts the row `AGGREGATE POSITION FIELD`, where the table has less than 10.
fn put(alloc: Global, table: &mut Table, text: &[u8]) -> Result<(), CaseFault> {
    let (aggregate, position, field) = two_words(text);
    let aggregate = name_of(alloc, aggregate)?;
    let row = row_of(alloc, u32_of(position)?, int_of(field)?)?;
    if table.len() >= 10 {
        return Err(CaseFault::Line);
    }
    Ok(table.put(aggregate, row)?)
}

fn row_of(alloc: Global, position: u32, field: i64) -> Result<Positioned, NoMemory> {
    Ok(Positioned {
        position,
        row: Row::of(vec![in alloc; field]?),
    })
}

/// The rows as `AGGREGATE POSITION FIELDS;` each.
pub(crate) fn write_table(table: &Table, out: &mut Vec<u8>) -> Result<(), NoMemory> {
    for place in 0..table.len() {
        if let Some((aggregate, value)) = table.at(place) {
            write_row(aggregate, value, out)?;
        }
    }
    Ok(())
}

fn write_row(aggregate: &Name, value: &Positioned, out: &mut Vec<u8>) -> Result<(), NoMemory> {
    aggregate.write(out)?;
    out.push(b' ')?;
    write_u32(value.position, out)?;
    write_ints(value.row.parts(), out)?;
    out.push(b';')?;
    Ok(())
}
