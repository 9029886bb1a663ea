use crate::{CaseFault, first_word};
use std::alloc::{AllocError, Global};
use std::io;
use std::io::{BufRead, BufReader, Write};

/// What a line asks for after its first word, and where its answer goes.
#[derive(Drop)]
pub struct CaseLine {
    pub alloc: Global,
    /// What follows the first word, in which each byte stands for itself.
    pub text: Vec<u8>,
    /// What is printed for all lines so far.
    pub out: Vec<u8>,
}

/// Cases over a state of their own.
pub trait Cases {
    /// The state before the first line.
    fn start(alloc: Global) -> Self;

    /// Performs the case of a line's first word, and adds the answer, on one line. A fault is written after what was added.
    fn perform(&mut self, word: &[u8], line: &mut CaseLine) -> Result<(), CaseFault>;
}

/// Performs the lines of the input one after another, from the state before the first one, and prints a line for each.
pub fn perform_all<R: Input + Print + AllocGlobal, C: Cases + Drop>(rt: &R) -> io::Result<()> {
    let alloc = rt.alloc();
    let mut cases = C::start(alloc);
    let mut answered = CaseLine {
        alloc,
        text: Vec::new(alloc),
        out: Vec::new(alloc),
    };
    for line in BufReader::new(alloc, rt.reader())?.lines(alloc) {
        answer(&mut cases, line?.as_bytes(), &mut answered)?;
        answered.out.push(b'\n')?;
    }
    io::writer(rt).write_all(&answered.out)
}

fn answer<C: Cases>(cases: &mut C, line: &[u8], answered: &mut CaseLine) -> Result<(), AllocError> {
    if line.is_empty() || line.starts_with(b"#") || line.starts_with(b"==") {
        return answered.out.extend_from_slice(line);
    }
    let (word, rest) = first_word(line);
    answered.text = with_bytes(answered.alloc, rest)?;
    match cases.perform(word, answered) {
        Ok(()) => Ok(()),
        Err(CaseFault::Line) => answered.out.extend_from_slice(b"no such case"),
        Err(CaseFault::Memory) => answered.out.extend_from_slice(b"no memory"),
    }
}

/// What has been read of a byte that is written as `^` and two digits.
#[derive(Clone, Copy)]
enum Escape {
    Nothing,
    Mark,
    Digit(u8),
}

/// The text with the bytes that it names.
fn with_bytes(alloc: Global, text: &[u8]) -> Result<Vec<u8>, AllocError> {
    let mut out = Vec::new(alloc);
    let mut escape = Escape::Nothing;
    for &byte in text {
        escape = match escape {
            Escape::Nothing if byte == b'^' => Escape::Mark,
            Escape::Nothing => {
                out.push(byte)?;
                Escape::Nothing
            }
            Escape::Mark => Escape::Digit(digit(byte)),
            Escape::Digit(high) => {
                out.push(high.wrapping_mul(16).wrapping_add(digit(byte)))?;
                Escape::Nothing
            }
        };
    }
    Ok(out)
}

/// The number that a hexadecimal digit is.
fn digit(byte: u8) -> u8 {
    match byte {
        b'0'..=b'9' => byte - b'0',
        b'a'..=b'f' => byte - b'a' + 10,
        _ => 0,
    }
}
