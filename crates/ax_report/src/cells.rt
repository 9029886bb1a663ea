ghost use Rattle.std.specs.Prelude.{◌≡◌, ◌^◌, ◌<◌, ◌∷◌, ◌++◌, length, IfOk, OnOk};
ghost use Rattle.ax_values.specs.Words.{spaced, payload_words};
ghost use Rattle.ax_report.specs.LogReports.{head_words, id_words, record_words, cell_words, cell_line, cell_lines};
ghost use Rattle.ax_values.specs.declared.cell.Cell.{Cell};

use ax_journal::Lines;
use ax_values::{Cell, Field, Line, Name, NoMemory, Record, event_id, write_number, write_u32};
use std::alloc::Global;

/// Adds a space and a word.
fn write_word(word: &[u8], out: &mut Vec<u8>) -> Result<(), NoMemory>
    ensures { OnOk result (out.new.items ≡ out.old.items ++ 32 ∷ word.now) }
{
    out.push(b' ')?;
    out.extend_from_slice(word)?;
    Ok(())
}

/// Adds the event's aggregate, number, kind and revision, a space in front of each.
fn write_head(event: &Record, out: &mut Vec<u8>) -> Result<(), NoMemory>
    ensures { OnOk result (out.new.items ≡ out.old.items ++ spaced (head_words event.now)) }
{
    write_word(event.aggregate.parts(), out)?;
    out.push(b' ')?;
    write_u32(event.seq, out)?;
    write_word(event.kind.parts(), out)?;
    out.push(b' ')?;
    write_u32(event.revision, out)
}

/// Adds the event's identifier in lower case, after its word.
fn write_id(alloc: Global, event: &Record, out: &mut Vec<u8>) -> Result<(), NoMemory>
    ensures { OnOk result (out.new.items ≡ out.old.items ++ spaced (id_words event.now)) }
{
    let id = event_id(alloc, &event.aggregate, event.seq)?;
    let mut text = [0; 36];
    out.extend_from_slice(b" id")?;
    write_word(id.hyphenated().encode_lower(&mut text).as_bytes(), out)
}

/// Adds the fields, a space in front of each.
fn write_fields(fields: &[Field], out: &mut Vec<u8>) -> Result<(), NoMemory>
    ensures { OnOk result (out.new.items ≡ out.old.items ++ spaced (payload_words fields.now)) }
{
    for field in fields {
        out.push(b' ')?;
        field.write(out)?;
    }
    Ok(())
}

/// Adds the words of an event, a space in front of each: its aggregate, number, kind and revision, its identifier, and its
/// fields.
fn write_event(alloc: Global, event: &Record, out: &mut Vec<u8>) -> Result<(), NoMemory>
    ensures { OnOk result (out.new.items ≡ out.old.items ++ spaced (record_words event.now)) }
{
    write_head(event, out)?;
    write_id(alloc, event, out)?;
    write_fields(event.payload.parts(), out)
}

/// Adds the words of a reserved cell, a space in front of each.
fn write_reserved(
    aggregate: &Name,
    first_seq: u32,
    actor: &Name,
    at: u64,
    out: &mut Vec<u8>,
) -> Result<(), NoMemory>
    ensures { OnOk result (out.new.items ≡ out.old.items ++ spaced (cell_words (Cell.Reserved aggregate.now first_seq actor.now at))) }
{
    out.extend_from_slice(b" reserved")?;
    write_word(aggregate.parts(), out)?;
    out.extend_from_slice(b" first ")?;
    write_u32(first_seq, out)?;
    out.extend_from_slice(b" by")?;
    write_word(actor.parts(), out)?;
    out.extend_from_slice(b" since ")?;
    write_number(at, out)
}

/// The line of a cell with its index.
fn cell_line(alloc: Global, index: u32, cell: &Cell) -> Result<Line, NoMemory>
    ensures { IfOk result (λ line. line ≡ cell_line index cell.now) }
{
    let mut out = Vec::with_capacity(alloc, 64)?;
    out.extend_from_slice(b"cell ")?;
    write_u32(index, &mut out)?;
    match cell {
        Cell::Void => out.extend_from_slice(b" void")?,
        Cell::Reserved {
            aggregate,
            first_seq,
            actor,
            at,
        } => write_reserved(aggregate, *first_seq, actor, *at, &mut out)?,
        Cell::Event(event) => {
            out.extend_from_slice(b" event")?;
            write_event(alloc, event, &mut out)?;
        }
    }
    Ok(Line::of(out))
}

/// The lines of the cells of a log, by index.
pub(crate) fn cell_lines(alloc: Global, cells: &[Cell]) -> Result<Lines, NoMemory>
    requires { length cells.now < 2 ^ 32 }
    ensures { IfOk result (λ lines. lines ≡ cell_lines 0 cells.now) }
{
    let mut lines = Lines::new(alloc);
    for (index, cell) in cells.iter().enumerate() {
        lines.push(cell_line(alloc, index as u32, cell)?)?;
    }
    Ok(lines)
}
