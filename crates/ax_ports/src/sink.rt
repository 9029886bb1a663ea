ghost use Rattle.std.specs.Prelude.{◌≡◌, [], ℕ, List, Option, Some, None};
ghost use Rattle.ax_ports.specs.Ports.{HasCause, TakesSome, WritesFront};

use crate::Failed;
use crate::calls::Calls;
use std::alloc::Global;
use std::io::Write;

/// Takes bytes.
pub trait Sink {
    /// The bytes that were taken, where the sink shows them.
    ghost taken: { Self → Option (List ℕ) };

    /// How often it has failed.
    ghost faults: { Self → ℕ };

    /// Takes some bytes from the front of the piece, and says how many: one at least of a piece that is not empty.
    /// At a failure it has taken some front of the piece, and never the whole of one that is not empty.
    fn write(&mut self, piece: &[u8]) -> Result<usize, Failed>
        ensures count { TakesSome result piece.now }
        ensures bytes { WritesFront (taken self.old) (taken self.new) result piece.now }
        ensures cause { HasCause (faults self.old) (faults self.new) result };
}

/// Bytes that were written, in memory. The calls with these numbers fail.
#[derive(Drop)]
pub struct MemorySink {
    bytes: Vec<u8>,
    calls: Calls,
}

impl MemorySink {
    ghost use Rattle.ax_ports.specs.Memory.{sink_taken, sink_calls};

    /// A sink that has taken nothing. It fails at the calls with these numbers, counted from 0.
    pub fn new(alloc: Global, fails: Vec<u32>) -> MemorySink
        ensures taken { sink_taken result ≡ [] }
        ensures calls { sink_calls result ≡ record { fails = fails; made = 0; faults = 0 } }
    {
        MemorySink {
            bytes: Vec::new(alloc),
            calls: Calls::new(fails),
        }
    }

    /// The bytes that were taken.
    pub fn bytes(&self) -> &[u8]
        ensures { result.now ≡ sink_taken self.now }
    {
        &self.bytes
    }
}

impl Sink for MemorySink {
    ghost use Rattle.std.specs.Prelude.{Some, ◌≡◌, IsTrue, IsErr, IfOk, OnErr, is_err, length};
    ghost use Rattle.ax_ports.specs.Ports.{HasCause, TakesSome, WritesFront};
    ghost use Rattle.ax_ports.specs.Calls.{is_due, called};
    ghost use Rattle.ax_ports.specs.Memory.{sink_taken, sink_calls};

    ghost taken = { λ s. Some (sink_taken s) };

    ghost faults = { λ s. (sink_calls s).faults };

    // It takes the whole piece, unless the call is one that fails or memory is wanting. Then it takes nothing.
    fn write(&mut self, piece: &[u8]) -> Result<usize, Failed>
        ensures count { TakesSome result piece.now }
        ensures bytes { WritesFront (Some (sink_taken self.old)) (Some (sink_taken self.new)) result piece.now }
        ensures cause { HasCause (sink_calls self.old).faults (sink_calls self.new).faults result }
        ensures whole { IfOk result (λ count. count ≡ length piece.now) }
        ensures err { OnErr result (sink_taken self.new ≡ sink_taken self.old) }
        ensures fails { IsTrue (is_due (sink_calls self.old)) → IsErr result }
        ensures calls { sink_calls self.new ≡ called (sink_calls self.old) (is_err result) }
    {
        self.calls.next()?;
        if self.bytes.extend_from_slice(piece).is_err() {
            self.calls.fail()?;
        }
        Ok(piece.len())
    }
}

/// A writer of std. It shows nothing of its bytes.
#[derive(Drop)]
pub struct StdSink<V> {
    writer: V,
    faults: u64,
}

impl<V: Write> StdSink<V> {
    ghost use Rattle.ax_ports.specs.Memory.{std_sink_faults};

    /// A sink over the writer, without faults so far.
    pub fn new(writer: V) -> StdSink<V>
        ensures { std_sink_faults result ≡ 0 }
    {
        StdSink { writer, faults: 0 }
    }
}

impl<V: Write> Sink for StdSink<V> {
    ghost taken = { λ s. None };

    ghost faults = { λ s. s.faults };

    fn write(&mut self, piece: &[u8]) -> Result<usize, Failed> {
        match self.writer.write(piece) {
            Ok(count) if count > 0 || piece.is_empty() => Ok(count),
            _ => {
                self.faults = self.faults.saturating_add(1);
                Err(Failed)
            }
        }
    }
}
