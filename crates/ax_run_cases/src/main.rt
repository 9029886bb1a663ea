//! Cases of scripts: what they are read as, and what their runs print and end with, over bytes in memory.
//!
//! `script` begins with the head that was kept last, `> LINE` adds a line, and `perform WORDS` gives the script to the program, called with these words.
//! Its answer is the status and then what was printed.
#![tactic(auto)]

mod calls;
mod scripts;
mod sinks;

use crate::calls::{CallCase, Calls};
use crate::scripts::{ScriptCase, Scripts};
use ax_case_lines::{CaseFault, CaseLine, Cases, perform_all};
use std::alloc::Global;
use std::io;

/// What earlier lines have set.
#[derive(Drop)]
struct RunCases {
    scripts: Scripts,
    calls: Calls,
}

impl Cases for RunCases {
    fn start(alloc: Global) -> RunCases {
        RunCases {
            scripts: Scripts::new(alloc),
            calls: Calls::new(alloc),
        }
    }

    fn perform(&mut self, word: &[u8], line: &mut CaseLine) -> Result<(), CaseFault> {
        if let Some(case) = ScriptCase::named(word) {
            return self.scripts.perform(case, line);
        }
        let case = CallCase::named(word).ok_or(CaseFault::Line)?;
        self.calls.perform(&self.scripts, case, line)
    }
}

fn main(rt: HostRuntime) -> io::Result<()> {
    perform_all::<HostRuntime, RunCases>(&rt)
}
