//! Cases of the words of the texts, segments, tokens, the log, the keeper in memory, and printed orders and replies.
//!
//! Each line of the input is a case, and the same line of the output is its answer: what is read of it, as it is written again, or `none`.
//! Lines about tokens, the log and the keeper go on from what earlier lines have made.
#![tactic(auto)]

mod answers;
mod kept;
mod logs;
mod orders;
mod replies;
mod segments;
mod tokens;
mod words;

use crate::kept::{Kept, KeptCase};
use crate::logs::LogCase;
use crate::orders::OrderCase;
use crate::segments::SegmentCase;
use crate::tokens::TokenCase;
use crate::words::WordCase;
use ax_case_lines::{CaseFault, CaseLine, Cases, perform_all};
use ax_journal::Lines;
use ax_log::Log;
use ax_tokens::Token;
use std::alloc::Global;
use std::io;

/// What earlier lines have made.
#[derive(Drop)]
struct LowCases {
    token: Token,
    log: Log,
    kept: Kept,
    report: Lines,
}

impl Cases for LowCases {
    fn start(alloc: Global) -> LowCases {
        LowCases {
            token: Token::start(alloc),
            log: Log::new(alloc),
            kept: Kept::new(alloc),
            report: Lines::new(alloc),
        }
    }

    fn perform(&mut self, word: &[u8], line: &mut CaseLine) -> Result<(), CaseFault> {
        if let Some(case) = WordCase::named(word) {
            return words::perform(case, line);
        }
        if let Some(case) = SegmentCase::named(word) {
            return segments::perform(case, line);
        }
        if let Some(case) = TokenCase::named(word) {
            return tokens::perform(&mut self.token, case, line);
        }
        if let Some(case) = LogCase::named(word) {
            return logs::perform(&mut self.log, case, line);
        }
        if let Some(case) = KeptCase::named(word) {
            return self.kept.perform(case, line);
        }
        let case = OrderCase::named(word).ok_or(CaseFault::Line)?;
        orders::perform(&mut self.report, case, line)
    }
}

fn main(rt: HostRuntime) -> io::Result<()> {
    perform_all::<HostRuntime, LowCases>(&rt)
}
