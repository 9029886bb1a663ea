use ax_case_lines::{CaseFault, CaseLine, first_word, write_either};
use ax_claims::{ClaimFault, Refused, Rows, TokenRow};
use ax_journal::{read_segment, write_segment};
use ax_segments::Segment;
use ax_tokens::Token;
use ax_values::{NoMemory, Same, write_number, write_u32};
use std::alloc::Global;

/// The segment that a text is.
pub(crate) fn segment_of(text: &[u8]) -> Result<Segment, CaseFault> {
    read_segment(text).ok_or(CaseFault::Line)
}

/// The token that a text is.
pub(crate) fn token_of(alloc: Global, text: &[u8]) -> Result<Token, CaseFault> {
    Token::read(alloc, text)?.ok_or(CaseFault::Line)
}

/// Shows all rows, or that of a segment.
pub(crate) fn ask(rows: &Rows, line: &mut CaseLine) -> Result<(), CaseFault> {
    if line.text.is_empty() {
        return Ok(write_rows(rows.rows(), &mut line.out)?);
    }
    match rows.get(segment_of(&line.text)?) {
        Some(row) => Ok(write_row(row, &mut line.out)?),
        None => Ok(line.out.extend_from_slice(b"none")?),
    }
}

/// Whether the segment's row has the token: `SEGMENT TOKEN`.
pub(crate) fn ask_token(rows: &Rows, line: &mut CaseLine) -> Result<(), CaseFault> {
    let (segment, token) = first_word(&line.text);
    let row = rows.get(segment_of(segment)?).ok_or(CaseFault::Line)?;
    let same = is_token(line.alloc, row, token)?;
    write_either(same, b"yes", b"no", &mut line.out)
}

/// Whether the row has the token that a text is.
fn is_token(alloc: Global, row: &TokenRow, text: &[u8]) -> Result<bool, CaseFault> {
    let token = token_of(alloc, text)?;
    let same = row.token.same(&token);
    drop(token);
    Ok(same)
}

/// The rows, each after a `;`.
fn write_rows(rows: &[TokenRow], out: &mut Vec<u8>) -> Result<(), NoMemory> {
    out.extend_from_slice(b"rows")?;
    for row in rows {
        out.extend_from_slice(b"; ")?;
        write_row(row, out)?;
    }
    Ok(())
}

/// A row as `SEGMENT owner OWNER since T fence F`, with `-` for no owner.
fn write_row(row: &TokenRow, out: &mut Vec<u8>) -> Result<(), NoMemory> {
    write_segment(row.segment, out)?;
    out.extend_from_slice(b" owner ")?;
    match &row.owner {
        Some(owner) => owner.write(out)?,
        None => out.push(b'-')?,
    }
    out.extend_from_slice(b" since ")?;
    write_number(row.since, out)?;
    out.extend_from_slice(b" fence ")?;
    write_number(row.fence, out)
}

/// Adds `done`, or why the rows stay.
pub(crate) fn write_changed(
    changed: Result<(), Refused>,
    out: &mut Vec<u8>,
) -> Result<(), CaseFault> {
    match changed {
        Ok(()) => Ok(out.extend_from_slice(b"done")?),
        Err(refused) => Ok(write_refused(&refused, out)?),
    }
}

/// Adds `done`, or why the rows stay, after a change that takes memory.
pub(crate) fn write_shaped(
    changed: Result<(), ClaimFault>,
    out: &mut Vec<u8>,
) -> Result<(), CaseFault> {
    match changed {
        Ok(()) => Ok(out.extend_from_slice(b"done")?),
        Err(ClaimFault::Refused(refused)) => Ok(write_refused(&refused, out)?),
        Err(ClaimFault::Memory) => Err(CaseFault::Memory),
    }
}

/// Adds why the rows stay.
pub(crate) fn write_refused(refused: &Refused, out: &mut Vec<u8>) -> Result<(), NoMemory> {
    match refused {
        Refused::NoSegment => out.extend_from_slice(b"no segment")?,
        Refused::NotHeld => out.extend_from_slice(b"not held")?,
        Refused::MaskFull => out.extend_from_slice(b"mask full")?,
        Refused::Alone => out.extend_from_slice(b"alone")?,
        Refused::Claimed { place } => {
            out.extend_from_slice(b"claimed at ")?;
            write_u32(*place, out)?;
        }
        Refused::Stale { held, found } => {
            out.extend_from_slice(b"stale held ")?;
            write_number(*held, out)?;
            write_found(*found, out)?;
        }
    }
    Ok(())
}

/// The fence that was found, if there is a row.
fn write_found(found: Option<u64>, out: &mut Vec<u8>) -> Result<(), NoMemory> {
    out.extend_from_slice(b" found ")?;
    match found {
        Some(found) => write_number(found, out),
        None => Ok(out.extend_from_slice(b"none")?),
    }
}
