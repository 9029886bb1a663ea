use ax_case_lines::{CaseFault, CaseLine, case_named};
use ax_sheet::{Sheet, SheetFault};
use ax_values::{Duplicate, cut_at};
use std::alloc::Global;
use std::mem;

/// What is done with the text of a sheet.
#[derive(Clone, Copy)]
pub(crate) enum SheetCase {
    Frame,
    New,
    Text,
    Cards,
    Copy,
    Fault,
}

impl SheetCase {
    pub(crate) fn named(word: &[u8]) -> Option<SheetCase> {
        case_named!(word;
            b"frame" => SheetCase::Frame,
            b"new" => SheetCase::New,
            b"text" => SheetCase::Text,
            b"cards" => SheetCase::Cards,
            b"copy" => SheetCase::Copy,
            b"fault" => SheetCase::Fault
        )
    }
}

/// The text in which `~` stands for a piece, and the last sheet that was read.
#[derive(Drop)]
pub(crate) struct Sheets {
    frame: Vec<u8>,
    last: Option<Sheet>,
}

impl Sheets {
    pub(crate) fn new(alloc: Global) -> Sheets {
        Sheets {
            frame: Vec::new(alloc),
            last: None,
        }
    }

    pub(crate) fn get(&self) -> Result<&Sheet, CaseFault> {
        self.last.as_ref().ok_or(CaseFault::Line)
    }

    pub(crate) fn perform(
        &mut self,
        case: SheetCase,
        line: &mut CaseLine,
    ) -> Result<(), CaseFault> {
        let (alloc, text, out) = (line.alloc, line.text.as_slice(), &mut line.out);
        match case {
            SheetCase::Frame => self.frame = text.to_vec(alloc)?,
            SheetCase::New => {
                let text = framed(alloc, &self.frame, text)?;
                self.read(alloc, &text, out)?;
            }
            SheetCase::Text => self.read(alloc, text, out)?,
            SheetCase::Cards => {
                let cards = Sheet::cards(alloc)?;
                self.keep(Some(cards));
                write_text(alloc, self.get()?, b"", out)?;
            }
            SheetCase::Copy => {
                let copied = self.get()?.copy(alloc)?;
                self.keep(Some(copied));
                write_text(alloc, self.get()?, b"", out)?;
            }
            SheetCase::Fault => write_fault(alloc, text, out)?,
        }
        Ok(())
    }

    /// Reads the sheet that a text is, and adds what it is written as: `kept` where that is the text itself.
    fn read(&mut self, alloc: Global, text: &[u8], out: &mut Vec<u8>) -> Result<(), CaseFault> {
        match Sheet::read(alloc, text) {
            Ok(sheet) => {
                self.keep(Some(sheet));
                write_text(alloc, self.get()?, text, out)
            }
            Err(SheetFault::Refused) => {
                self.keep(None);
                Ok(out.extend_from_slice(b"refused")?)
            }
            Err(SheetFault::Memory) => Err(CaseFault::Memory),
        }
    }

    /// Puts the sheet in the place of the last one, which is given to `drop`: a `drop` in place is proved anew in each function.
    fn keep(&mut self, sheet: Option<Sheet>) {
        drop(mem::replace(&mut self.last, sheet));
    }
}

/// What stands before and after the place of the piece.
fn around(frame: &[u8]) -> Result<(&[u8], &[u8]), CaseFault> {
    match cut_at(b'~', frame) {
        Some((front, end)) => Ok((front, end)),
        None => Err(CaseFault::Line),
    }
}

/// The frame with a piece in its place.
fn framed(alloc: Global, frame: &[u8], piece: &[u8]) -> Result<Vec<u8>, CaseFault> {
    let (front, end) = around(frame)?;
    let mut whole = front.to_vec(alloc)?;
    whole.extend_from_slice(piece)?;
    whole.extend_from_slice(end)?;
    Ok(whole)
}

fn write_text(
    alloc: Global,
    sheet: &Sheet,
    text: &[u8],
    out: &mut Vec<u8>,
) -> Result<(), CaseFault> {
    let written = sheet.text(alloc)?;
    if !is_written_again(alloc, written.parts())? {
        out.extend_from_slice(b"not again ")?;
    }
    if written.parts() == text {
        out.extend_from_slice(b"kept")?;
    } else {
        out.extend_from_slice(written.parts())?;
    }
    Ok(())
}

/// Whether the text is a sheet's that is written so.
fn is_written_again(alloc: Global, text: &[u8]) -> Result<bool, CaseFault> {
    match Sheet::read(alloc, text) {
        Ok(sheet) => {
            let written = sheet.text(alloc);
            drop(sheet);
            Ok(written?.parts() == text)
        }
        Err(SheetFault::Refused) => Ok(false),
        Err(SheetFault::Memory) => Err(CaseFault::Memory),
    }
}

/// A fault as it is shown.
fn write_fault(alloc: Global, rest: &[u8], out: &mut Vec<u8>) -> Result<(), CaseFault> {
    let fault = if rest == b"refused".as_slice() {
        SheetFault::Refused
    } else {
        SheetFault::Memory
    };
    let text = format!(in alloc; "{fault}")?;
    out.extend_from_slice(text.as_bytes())?;
    Ok(())
}
