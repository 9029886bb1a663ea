//! Cases of a queue of dead letters: what comes, fails again and goes, which sequence is next, and the limits.
//!
//! Each line of the input is a case, and the same line of the output is its answer: what was asked for, or `done`, or why a change
//! was refused. Lines go on from what earlier lines have made, and `queue` begins anew.
#![tactic(auto)]

mod changes;
mod filled;
mod letters;
mod written;

use ax_case_lines::{CaseFault, CaseLine, Cases, case_named, name_of, perform_all};
use ax_letters::Queue;
use std::alloc::Global;
use std::{io, mem};

/// What is done with a queue of letters, or asked of it.
#[derive(Clone, Copy)]
pub(crate) enum LetterCase {
    New,
    Enqueue,
    Room,
    Evict,
    Requeue,
    Hold,
    Free,
    Clear,
    Wide,
    Long,
    Sequences,
    Letters,
    Taken,
    Oldest,
    Take,
}

/// What a line's word asks for.
fn named(word: &[u8]) -> Option<LetterCase> {
    case_named!(word;
        b"queue" => LetterCase::New,
        b"enqueue" => LetterCase::Enqueue,
        b"room" => LetterCase::Room,
        b"evict" => LetterCase::Evict,
        b"requeue" => LetterCase::Requeue,
        b"hold" => LetterCase::Hold,
        b"free" => LetterCase::Free,
        b"clear" => LetterCase::Clear,
        b"wide" => LetterCase::Wide,
        b"long" => LetterCase::Long,
        b"sequences" => LetterCase::Sequences,
        b"letters" => LetterCase::Letters,
        b"taken" => LetterCase::Taken,
        b"oldest" => LetterCase::Oldest,
        b"take" => LetterCase::Take
    )
}

/// The queue that earlier lines have made.
#[derive(Drop)]
struct LetterCases {
    queue: Queue,
}

impl LetterCases {
    /// Begins with a queue of a processor that is one sequence under the name of the text, if there is one.
    fn begin(&mut self, alloc: Global, text: &[u8]) -> Result<(), CaseFault> {
        let queue = if text.is_empty() {
            Queue::new(alloc, None)
        } else {
            Queue::new(alloc, Some(name_of(alloc, text)?))
        };
        drop(mem::replace(&mut self.queue, queue));
        Ok(())
    }
}

impl Cases for LetterCases {
    fn start(alloc: Global) -> LetterCases {
        LetterCases {
            queue: Queue::new(alloc, None),
        }
    }

    fn perform(&mut self, word: &[u8], line: &mut CaseLine) -> Result<(), CaseFault> {
        match named(word).ok_or(CaseFault::Line)? {
            LetterCase::New => self.begin(line.alloc, &line.text),
            case => perform(&mut self.queue, case, line),
        }
    }
}

fn perform(queue: &mut Queue, case: LetterCase, line: &mut CaseLine) -> Result<(), CaseFault> {
    match case {
        LetterCase::Enqueue => changes::enqueue(queue, line),
        LetterCase::Room => changes::make_room(queue, line),
        LetterCase::Evict => changes::evict(queue, line),
        LetterCase::Requeue => changes::requeue(queue, line),
        LetterCase::Hold => changes::hold(queue, line),
        LetterCase::Free => changes::free(queue, line),
        LetterCase::Clear => {
            queue.clear();
            Ok(())
        }
        LetterCase::Wide => filled::fill(queue, true, line),
        LetterCase::Long => filled::fill(queue, false, line),
        LetterCase::Sequences => Ok(written::write_sequences(queue, &mut line.out)?),
        LetterCase::Letters => written::ask_sequence(queue, false, line),
        LetterCase::Taken => written::ask_sequence(queue, true, line),
        LetterCase::Oldest => written::ask_oldest(queue, line),
        _ => written::ask_take(queue, line),
    }
}

fn main(rt: HostRuntime) -> io::Result<()> {
    perform_all::<HostRuntime, LetterCases>(&rt)
}
