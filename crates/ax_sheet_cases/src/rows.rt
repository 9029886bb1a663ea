use crate::sheets::Sheets;
use crate::tables::write_table;
use ax_case_lines::{
    CaseFault, CaseLine, case_named, first_word, name_of, payload_of, three_words, u32_of,
};
use ax_projections::rebuild;
use ax_sheet::Sheet;
use ax_values::{Cell, Record};
use std::alloc::Global;

/// What is done with a list of cells.
#[derive(Clone, Copy)]
pub(crate) enum RowCase {
    Cells,
    Void,
    Reserved,
    Event,
    Rebuild,
}

impl RowCase {
    pub(crate) fn named(word: &[u8]) -> Option<RowCase> {
        case_named!(word;
            b"cells" => RowCase::Cells,
            b"void" => RowCase::Void,
            b"reserved" => RowCase::Reserved,
            b"event" => RowCase::Event,
            b"rebuild" => RowCase::Rebuild
        )
    }
}

pub(crate) fn perform(
    cells: &mut Vec<Cell>,
    sheets: &Sheets,
    case: RowCase,
    line: &mut CaseLine,
) -> Result<(), CaseFault> {
    let (alloc, text, out) = (line.alloc, line.text.as_slice(), &mut line.out);
    match case {
        RowCase::Cells => cells.clear(),
        RowCase::Void => cells.push(Cell::Void)?,
        RowCase::Reserved => cells.push(reserved_cell(alloc, text)?)?,
        RowCase::Event => cells.push(event_cell(alloc, text)?)?,
        RowCase::Rebuild => write_rebuilt(alloc, cells, sheets.get()?, text, out)?,
    }
    Ok(())
}

/// The reserved cell `AGGREGATE ACTOR`.
fn reserved_cell(alloc: Global, text: &[u8]) -> Result<Cell, CaseFault> {
    let (aggregate, actor) = first_word(text);
    Ok(Cell::Reserved {
        aggregate: name_of(alloc, aggregate)?,
        first_seq: 0,
        actor: name_of(alloc, actor)?,
        at: 5,
    })
}

/// The event `AGGREGATE SEQ KIND PAYLOAD`.
fn event_cell(alloc: Global, text: &[u8]) -> Result<Cell, CaseFault> {
    let (aggregate, seq, kind, payload) = three_words(text);
    Ok(Cell::Event(Record {
        seq: u32_of(seq)?,
        revision: 1,
        aggregate: name_of(alloc, aggregate)?,
        kind: name_of(alloc, kind)?,
        payload: payload_of(alloc, payload)?,
    }))
}

/// The rows of the projection of this name that the cells alone give.
fn write_rebuilt(
    alloc: Global,
    cells: &[Cell],
    sheet: &Sheet,
    word: &[u8],
    out: &mut Vec<u8>,
) -> Result<(), CaseFault> {
    let name = name_of(alloc, word)?;
    let rules = sheet.projection(&name).ok_or(CaseFault::Line)?;
    if cells.len() > 200_000 {
        return Err(CaseFault::Line);
    }
    let table = rebuild(alloc, cells, sheet.chain(), rules)?;
    Ok(write_table(&table, out)?)
}
