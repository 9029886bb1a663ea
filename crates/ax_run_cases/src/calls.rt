use crate::scripts::Scripts;
use crate::sinks::ByteSink;
use ax_case_lines::{CaseFault, CaseLine, case_named, first_word, u32_of};
use ax_ports::{MemoryKeeper, MemorySink, MemorySource, StdSource};
use ax_top::{Status, run_script};
use ax_values::{line_words, write_number};
use std::alloc::Global;
use std::{io, str};

/// How the program is called.
#[derive(Clone, Copy)]
pub(crate) enum CallCase {
    Reads,
    Writes,
    Perform,
    Wordless,
    Unread,
    Status,
    Tail,
    Run,
    Cuts,
    Rooms,
}

impl CallCase {
    pub(crate) fn named(word: &[u8]) -> Option<CallCase> {
        case_named!(word;
            b"read-fails" => CallCase::Reads,
            b"write-fails" => CallCase::Writes,
            b"perform" => CallCase::Perform,
            b"wordless" => CallCase::Wordless,
            b"unread" => CallCase::Unread,
            b"status" => CallCase::Status,
            b"tail" => CallCase::Tail,
            b"run" => CallCase::Run,
            b"cuts" => CallCase::Cuts,
            b"rooms" => CallCase::Rooms
        )
    }
}

/// The numbers of the reads and of the writes that fail in the next call.
#[derive(Drop)]
pub(crate) struct Calls {
    reads: Vec<u32>,
    writes: Vec<u32>,
}

impl Calls {
    pub(crate) fn new(alloc: Global) -> Calls {
        Calls {
            reads: Vec::new(alloc),
            writes: Vec::new(alloc),
        }
    }

    pub(crate) fn perform(
        &mut self,
        scripts: &Scripts,
        case: CallCase,
        line: &mut CaseLine,
    ) -> Result<(), CaseFault> {
        let (alloc, text, out) = (line.alloc, line.text.as_slice(), &mut line.out);
        match case {
            CallCase::Reads => Ok(self.reads.push(u32_of(text)?)?),
            CallCase::Writes => Ok(self.writes.push(u32_of(text)?)?),
            CallCase::Perform => {
                let words = words_of(alloc, text)?;
                self.call(alloc, &words, scripts.script(), out)
            }
            CallCase::Wordless => self.call(alloc, &Vec::new(alloc), scripts.script(), out),
            CallCase::Unread => write_unread(alloc, text, out),
            CallCase::Status => {
                let words = words_of(alloc, text)?;
                let (status, _) = run(alloc, &words, scripts.script())?;
                write_status(status, out)
            }
            CallCase::Tail => write_tail(alloc, text, scripts.script(), out),
            CallCase::Run => {
                let words = words_of(alloc, b"run")?;
                let script = scripts.with(alloc, text)?;
                self.call(alloc, &words, &script, out)
            }
            CallCase::Cuts => write_cuts(alloc, scripts.script(), out),
            CallCase::Rooms => write_rooms(alloc, scripts.script(), out),
        }
    }

    /// Calls the program over the script in memory, with the faults that were set.
    fn call(
        &mut self,
        alloc: Global,
        words: &[String],
        script: &[u8],
        out: &mut Vec<u8>,
    ) -> Result<(), CaseFault> {
        let reads = taken(alloc, &mut self.reads)?;
        let writes = taken(alloc, &mut self.writes)?;
        let (status, sink) = run_with(alloc, words, script.to_vec(alloc)?, reads, writes);
        write_status(status, out)?;
        write_text(sink.bytes(), out)
    }
}

/// The numbers of a list, which is empty then.
fn taken(alloc: Global, numbers: &mut Vec<u32>) -> Result<Vec<u32>, CaseFault> {
    let copied = numbers.as_slice().to_vec(alloc)?;
    numbers.clear();
    Ok(copied)
}

fn keeper(alloc: Global) -> MemoryKeeper {
    MemoryKeeper::new(Vec::new(alloc), Vec::new(alloc))
}

fn words_of(alloc: Global, text: &[u8]) -> Result<Vec<String>, CaseFault> {
    let mut words = Vec::new(alloc);
    for word in line_words(alloc, text)? {
        words.push(string_of(alloc, word)?)?;
    }
    Ok(words)
}

fn string_of(alloc: Global, word: &[u8]) -> Result<String, CaseFault> {
    match str::from_utf8(word) {
        Ok(text) => Ok(String::from_str(alloc, text)?),
        Err(_) => Err(CaseFault::Line),
    }
}

/// What a call over a script in memory ends with and prints, where the reads and writes with these numbers fail.
fn run_with(
    alloc: Global,
    words: &[String],
    script: Vec<u8>,
    reads: Vec<u32>,
    writes: Vec<u32>,
) -> (Status, MemorySink) {
    let mut source = MemorySource::new(script, reads);
    let mut sink = MemorySink::new(alloc, writes);
    let (status, _) = run_script(alloc, words, &mut source, &mut sink, keeper(alloc));
    (status, sink)
}

/// The same into a sink with room for so many bytes.
fn run_into(alloc: Global, words: &[String], script: Vec<u8>, room: usize) -> (Status, ByteSink) {
    let mut source = MemorySource::new(script, Vec::new(alloc));
    let mut sink = ByteSink::new(alloc, room);
    let (status, _) = run_script(alloc, words, &mut source, &mut sink, keeper(alloc));
    (status, sink)
}

/// The same over a source without a reader.
fn run_unread(alloc: Global, words: &[String]) -> (Status, MemorySink) {
    let reader: Option<io::Empty> = None;
    let mut source = StdSource::new(reader);
    let mut sink = MemorySink::new(alloc, Vec::new(alloc));
    let (status, _) = run_script(alloc, words, &mut source, &mut sink, keeper(alloc));
    (status, sink)
}

/// What a call over the script ends with and prints.
fn run(alloc: Global, words: &[String], script: &[u8]) -> Result<(Status, MemorySink), CaseFault> {
    let script = script.to_vec(alloc)?;
    Ok(run_with(alloc, words, script, Vec::new(alloc), Vec::new(alloc)))
}

fn write_unread(alloc: Global, rest: &[u8], out: &mut Vec<u8>) -> Result<(), CaseFault> {
    let words = words_of(alloc, rest)?;
    let (status, sink) = run_unread(alloc, &words);
    write_status(status, out)?;
    write_text(sink.bytes(), out)
}

/// What a call over the script ends with, and the last bytes of what it prints: `COUNT WORDS`.
fn write_tail(
    alloc: Global,
    rest: &[u8],
    script: &[u8],
    out: &mut Vec<u8>,
) -> Result<(), CaseFault> {
    let (count, words) = first_word(rest);
    let count = u32_of(count)? as usize;
    let words = words_of(alloc, words)?;
    let (status, sink) = run(alloc, &words, script)?;
    write_status(status, out)?;
    let text = sink.bytes();
    write_text(&text[text.len().saturating_sub(count)..], out)
}

/// What a call over the script ends with, cut after each of its bytes in turn: `done`, or the message.
fn write_cuts(alloc: Global, script: &[u8], out: &mut Vec<u8>) -> Result<(), CaseFault> {
    let words = words_of(alloc, b"run")?;
    for place in 0..script.len() {
        let (status, sink) = run(alloc, &words, &script[..place])?;
        if status == Status::Done {
            out.extend_from_slice(b"done\n")?;
        } else {
            out.extend_from_slice(sink.bytes())?;
        }
    }
    Ok(())
}

/// For each room that a sink can have, up to all that the script prints: how a call over it ends, how many bytes the sink then has, and
/// whether they are a front of what the script prints.
fn write_rooms(alloc: Global, script: &[u8], out: &mut Vec<u8>) -> Result<(), CaseFault> {
    let words = words_of(alloc, b"run")?;
    let (_, whole) = run(alloc, &words, script)?;
    let text = whole.bytes();
    for room in 0..text.len() + 1 {
        let (status, sink) = run_into(alloc, &words, script.to_vec(alloc)?, room);
        write_status(status, out)?;
        write_taken(sink.bytes(), text, out)?;
    }
    Ok(())
}

fn write_taken(bytes: &[u8], text: &[u8], out: &mut Vec<u8>) -> Result<(), CaseFault> {
    out.push(b' ')?;
    write_number(bytes.len() as u64, out)?;
    if !text.starts_with(bytes) {
        out.extend_from_slice(b" others")?;
    }
    out.push(b'\n')?;
    Ok(())
}

/// The text on the lines that follow; its last end of a line is that of the answer.
fn write_text(text: &[u8], out: &mut Vec<u8>) -> Result<(), CaseFault> {
    if let [lines @ .., b'\n'] = text {
        out.push(b'\n')?;
        out.extend_from_slice(lines)?;
    } else if !text.is_empty() {
        out.extend_from_slice(b" cut ")?;
        out.extend_from_slice(text)?;
    }
    Ok(())
}

fn write_status(status: Status, out: &mut Vec<u8>) -> Result<(), CaseFault> {
    out.extend_from_slice(word_of(status))?;
    Ok(())
}

fn word_of(status: Status) -> &'static [u8] {
    match status {
        Status::Done => b"done",
        Status::Usage => b"usage",
        Status::Script => b"script",
        Status::ReadFault => b"read fault",
        Status::WriteFault => b"write fault",
        Status::KeeperFault => b"keeper fault",
        Status::BadRows => b"bad rows",
        Status::OtherSheet => b"other sheet",
        Status::Memory => b"memory",
    }
}
