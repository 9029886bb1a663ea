//! Cases of the token rows of a processor: claims, stores, splits, merges and resets, and their refusals.
//!
//! Each line of the input is a case, and the same line of the output is its answer: what was asked for, or `done`, or why a change
//! was refused. Lines go on from what earlier lines have made, and `start SEGMENTS FENCE` begins anew.
#![tactic(auto)]

mod changes;
mod shapes;
mod written;

use crate::written::{ask, ask_token};
use ax_case_lines::{
    CaseFault, CaseLine, Cases, case_named, first_word, perform_all, u32_of, u64_of,
};
use ax_claims::Rows;
use std::alloc::Global;
use std::{io, mem};

/// What is done with token rows, or asked of them.
#[derive(Clone, Copy)]
pub(crate) enum ClaimCase {
    Start,
    Rows,
    Token,
    Claim,
    Store,
    Extend,
    Release,
    Split,
    Merge,
    Reset,
}

/// What a line's word asks for.
fn named(word: &[u8]) -> Option<ClaimCase> {
    case_named!(word;
        b"start" => ClaimCase::Start,
        b"rows" => ClaimCase::Rows,
        b"token" => ClaimCase::Token,
        b"claim" => ClaimCase::Claim,
        b"store" => ClaimCase::Store,
        b"extend" => ClaimCase::Extend,
        b"release" => ClaimCase::Release,
        b"split" => ClaimCase::Split,
        b"merge" => ClaimCase::Merge,
        b"reset" => ClaimCase::Reset
    )
}

/// The rows that earlier lines have made.
#[derive(Drop)]
struct ClaimCases {
    rows: Option<Rows>,
}

impl ClaimCases {
    /// Puts the rows in the place of the earlier ones.
    fn keep(&mut self, rows: Rows) {
        drop(mem::replace(&mut self.rows, Some(rows)));
    }
}

impl Cases for ClaimCases {
    fn start(_: Global) -> ClaimCases {
        ClaimCases { rows: None }
    }

    fn perform(&mut self, word: &[u8], line: &mut CaseLine) -> Result<(), CaseFault> {
        let case = named(word).ok_or(CaseFault::Line)?;
        if let ClaimCase::Start = case {
            self.keep(started(line.alloc, &line.text)?);
            return Ok(());
        }
        perform(self.rows.as_mut().ok_or(CaseFault::Line)?, case, line)
    }
}

fn perform(rows: &mut Rows, case: ClaimCase, line: &mut CaseLine) -> Result<(), CaseFault> {
    match case {
        ClaimCase::Claim => changes::claim(rows, line),
        ClaimCase::Store => changes::store(rows, line),
        ClaimCase::Extend => changes::extend(rows, line),
        ClaimCase::Release => changes::release(rows, line),
        ClaimCase::Split => shapes::split(rows, line),
        ClaimCase::Merge => shapes::merge(rows, line),
        ClaimCase::Reset => shapes::reset(rows, line),
        ClaimCase::Token => ask_token(rows, line),
        _ => ask(rows, line),
    }
}

/// The rows of `SEGMENTS FENCE`.
fn started(alloc: Global, text: &[u8]) -> Result<Rows, CaseFault> {
    let (segments, fence) = first_word(text);
    let segments = u32_of(segments)?;
    let fence = u64_of(fence)?;
    if !segments.is_power_of_two() || segments > 65_536 || fence > u64::MAX - 65_536 {
        return Err(CaseFault::Line);
    }
    Ok(Rows::start(alloc, segments, fence)?)
}

fn main(rt: HostRuntime) -> io::Result<()> {
    perform_all::<HostRuntime, ClaimCases>(&rt)
}
