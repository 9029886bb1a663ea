//! Runs a script of standard input, and prints the text of its run.
#![tactic(auto)]

ghost use Rattle.std.specs.Prelude.{◌≡◌, IsErr, IfErr};
ghost use Rattle.std.specs.IoError.{error_kind};
ghost use Rattle.std.specs.declared.io.ErrorKind.TheVariants.{OutOfMemory};
ghost use Rattle.axrun.specs.Codes.{code_of};

use ax_ports::{MemoryKeeper, StdSink, StdSource};
use ax_top::{Status, run_script};
use ax_values::NoMemory;
use std::alloc::Global;
use std::env::Args;
use std::process::ExitCode;
use std::{env, io};

/// The words after the program's name. Words that are no texts are not in the grammar, as no words are not.
fn words(alloc: Global, read: io::Result<Args>) -> Result<Vec<String>, NoMemory>
    ensures wanting { IfErr read (λ error. error_kind error ≡ OutOfMemory → IsErr result) }
{
    let mut words = Vec::new(alloc);
    match read {
        Ok(read) => {
            for word in read.skip(1) {
                words.push(word)?;
            }
        }
        Err(error) => {
            if error.kind() == io::ErrorKind::OutOfMemory {
                return Err(NoMemory);
            }
        }
    }
    Ok(words)
}

// The status with which the process ends.
fn code(status: Status) -> u8
    ensures { result ≡ code_of status }
{
    match status {
        Status::Done => 0,
        Status::Usage => 2,
        Status::Script => 3,
        Status::ReadFault => 4,
        Status::WriteFault => 5,
        Status::KeeperFault => 6,
        Status::BadRows => 7,
        Status::Memory => 8,
        Status::OtherSheet => 9,
    }
}

fn main(rt: HostRuntime) -> ExitCode {
    let alloc: Global = rt.alloc();
    let Ok(words) = words(alloc, env::args(&rt)) else {
        return ExitCode::from(code(Status::Memory));
    };
    let mut source = StdSource::new(Some(rt.reader()));
    let mut sink = StdSink::new(io::writer(&rt));
    let keeper = MemoryKeeper::new(Vec::new(alloc), Vec::new(alloc));
    let (status, _) = run_script(alloc, &words, &mut source, &mut sink, keeper);
    ExitCode::from(code(status))
}
