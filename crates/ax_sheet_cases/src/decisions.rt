use ax_case_lines::{
    CaseFault, CaseLine, case_named, first_word, int_of, name_of, payload_of, write_either,
};
use ax_rules::Row;
use ax_sheet::{Decided, Sheet, decide, fits_command};
use ax_upcast::Event;
use ax_values::{Name, NoMemory, line_words, write_number, write_u32};
use std::alloc::Global;

/// What is asked of a sheet's commands and parts.
#[derive(Clone, Copy)]
pub(crate) enum DecisionCase {
    Row,
    Decide,
    Fits,
    Parts,
    Has,
}

impl DecisionCase {
    pub(crate) fn named(word: &[u8]) -> Option<DecisionCase> {
        case_named!(word;
            b"row" => DecisionCase::Row,
            b"decide" => DecisionCase::Decide,
            b"fits" => DecisionCase::Fits,
            b"parts" => DecisionCase::Parts,
            b"has" => DecisionCase::Has
        )
    }
}

pub(crate) fn perform(
    sheet: &Sheet,
    row: &mut Row,
    case: DecisionCase,
    line: &mut CaseLine,
) -> Result<(), CaseFault> {
    let (alloc, text, out) = (line.alloc, line.text.as_slice(), &mut line.out);
    match case {
        DecisionCase::Row => *row = row_of(alloc, text)?,
        DecisionCase::Decide => {
            let decided = decision_of(alloc, sheet, row, text)?;
            let written = write_decided(&decided, out);
            drop(decided);
            written?;
        }
        DecisionCase::Fits => {
            write_either(
                is_fitting(alloc, sheet, text)?,
                b"fits",
                b"does not fit",
                out,
            )?;
        }
        DecisionCase::Parts => write_parts(sheet, out)?,
        DecisionCase::Has => write_holders(sheet, &name_of(alloc, text)?, out)?,
    }
    Ok(())
}

/// What the command makes of the aggregate's row, at these arguments.
fn decision_of(alloc: Global, sheet: &Sheet, row: &Row, rest: &[u8]) -> Result<Decided, CaseFault> {
    let (word, args) = first_word(rest);
    let args = payload_of(alloc, args)?;
    let name = name_of(alloc, word)?;
    if sheet.aggregate().fields().len() != row.parts().len() {
        return Err(CaseFault::Line);
    }
    match sheet.command(&name) {
        Some(command) => Ok(decide(alloc, command, &args, row)?),
        None => Err(CaseFault::Line),
    }
}

/// The row of these numbers.
fn row_of(alloc: Global, text: &[u8]) -> Result<Row, CaseFault> {
    let mut row = Row::new(alloc);
    for number in line_words(alloc, text)? {
        row.push(int_of(number)?)?;
    }
    Ok(row)
}

/// `guard G`, or the events as `KIND REVISION PAYLOAD;` each.
fn write_decided(decided: &Decided, out: &mut Vec<u8>) -> Result<(), NoMemory> {
    match decided {
        Decided::Guard(number) => {
            out.extend_from_slice(b"guard ")?;
            write_u32(*number, out)?;
        }
        Decided::Events(events) => {
            for event in events.parts() {
                write_event(event, out)?;
            }
        }
    }
    Ok(())
}

fn write_event(event: &Event, out: &mut Vec<u8>) -> Result<(), NoMemory> {
    event.kind.write(out)?;
    out.push(b' ')?;
    write_u32(event.revision, out)?;
    out.push(b' ')?;
    event.payload.write(out)?;
    out.push(b';')?;
    Ok(())
}

/// Whether the command takes these arguments.
fn is_fitting(alloc: Global, sheet: &Sheet, rest: &[u8]) -> Result<bool, CaseFault> {
    let (word, args) = first_word(rest);
    let args = payload_of(alloc, args)?;
    let name = name_of(alloc, word)?;
    match sheet.command(&name) {
        Some(command) => Ok(fits_command(command, &args)),
        None => Err(CaseFault::Line),
    }
}

/// The sheet's name and revision, and how many commands, upcasters, projections and sagas it has.
fn write_parts(sheet: &Sheet, out: &mut Vec<u8>) -> Result<(), NoMemory> {
    sheet.name().write(out)?;
    out.push(b' ')?;
    write_u32(sheet.revision(), out)?;
    for count in [
        sheet.commands().len(),
        sheet.chain().parts().len(),
        sheet.projections().len(),
        sheet.sagas().len(),
    ] {
        out.push(b' ')?;
        write_number(count as u64, out)?;
    }
    Ok(())
}

/// Whether the sheet has a command, a projection and a saga of this name.
fn write_holders(sheet: &Sheet, name: &Name, out: &mut Vec<u8>) -> Result<(), CaseFault> {
    write_either(sheet.command(name).is_some(), b"yes ", b"no ", out)?;
    write_either(sheet.projection(name).is_some(), b"yes ", b"no ", out)?;
    write_either(sheet.saga(name).is_some(), b"yes", b"no", out)
}
