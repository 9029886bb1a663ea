ghost use Rattle.std.specs.Prelude.{◌≡◌, ◌≤◌, ℕ, List, Option, Some, None, min, length, take, drop, vec_len, is_some, IsErr, IsFalse};
ghost use Rattle.std.specs.Io.{ReadsAtMost};
ghost use Rattle.std.specs.Io.KnownBytes.{ReadConsumes};
ghost use Rattle.ax_ports.specs.Ports.{HasCause};

use crate::Failed;
use crate::calls::Calls;
use std::io::Read;

/// Gives bytes.
pub trait Source {
    /// The bytes that are left, where the source shows them.
    ghost left: { Self → Option (List ℕ) };

    /// How often it has failed.
    ghost faults: { Self → ℕ };

    /// Moves some of the bytes that are left into the front of the room, and says how many.
    /// Where there is room, 0 is the end. At a failure no byte is taken.
    fn read(&mut self, room: &mut [u8]) -> Result<usize, Failed>
        ensures bound { ReadsAtMost result room.new }
        ensures bytes { ReadConsumes (left self.old) (left self.new) result room.new }
        ensures cause { HasCause (faults self.old) (faults self.new) result };
}

/// Bytes in memory. The calls with these numbers fail.
#[derive(Drop)]
pub struct MemorySource {
    bytes: Vec<u8>,
    position: usize,
    calls: Calls,
    ghost in_range: { position ≤ vec_len bytes },
}

impl MemorySource {
    ghost use Rattle.ax_ports.specs.Memory.{source_left, source_calls};

    /// A source of these bytes. It fails at the calls with these numbers, counted from 0.
    pub fn new(bytes: Vec<u8>, fails: Vec<u32>) -> MemorySource
        ensures left { source_left result ≡ bytes.items }
        ensures calls { source_calls result ≡ record { fails = fails; made = 0; faults = 0 } }
    {
        MemorySource {
            bytes,
            position: 0,
            calls: Calls::new(fails),
        }
    }
}

impl Source for MemorySource {
    ghost use Rattle.std.specs.Prelude.{Some, ◌≡◌, is_err};
    ghost use Rattle.std.specs.Io.{ReadsAtMost};
    ghost use Rattle.std.specs.Io.KnownBytes.{ReadConsumes};
    ghost use Rattle.ax_ports.specs.Ports.{HasCause};
    ghost use Rattle.ax_ports.specs.Calls.{is_due, called};
    ghost use Rattle.ax_ports.specs.Memory.{source_left, source_calls};

    ghost left = { λ s. Some (source_left s) };

    ghost faults = { λ s. (source_calls s).faults };

    fn read(&mut self, room: &mut [u8]) -> Result<usize, Failed>
        ensures bound { ReadsAtMost result room.new }
        ensures bytes { ReadConsumes (Some (source_left self.old)) (Some (source_left self.new)) result room.new }
        ensures cause { HasCause (source_calls self.old).faults (source_calls self.new).faults result }
        ensures fails { is_err result ≡ is_due (source_calls self.old) }
        ensures calls { source_calls self.new ≡ called (source_calls self.old) (is_due (source_calls self.old)) }
    {
        self.calls.next()?;
        let count = copy_front(&self.bytes[self.position..], room);
        self.position += count;
        Ok(count)
    }
}

// Copies as many bytes as fit.
fn copy_front(from: &[u8], room: &mut [u8]) -> usize
    ensures count { result ≡ min (length from.now) (length room.old) }
    ensures front { take result room.new ≡ take result from.now }
{
    let count = from.len().min(room.len());
    room[..count].copy_from_slice(&from[..count]);
    count
}

/// A reader of std, or none, at which each read fails. It shows nothing of its bytes.
#[derive(Drop)]
pub struct StdSource<R> {
    reader: Option<R>,
    faults: u64,
}

impl<R: Read> StdSource<R> {
    ghost use Rattle.ax_ports.specs.Memory.{std_source_faults, std_source_reads};

    /// A source over the reader, without faults so far.
    pub fn new(reader: Option<R>) -> StdSource<R>
        ensures faults { std_source_faults result ≡ 0 }
        ensures reads { std_source_reads result ≡ is_some reader }
    {
        StdSource { reader, faults: 0 }
    }

    fn fail(&mut self) -> Result<usize, Failed>
        ensures cause { HasCause self.old.faults self.new.faults result }
        ensures fails { IsErr result }
        ensures reader { self.new.reader ≡ self.old.reader }
    {
        self.faults = self.faults.saturating_add(1);
        Err(Failed)
    }
}

impl<R: Read> Source for StdSource<R> {
    ghost use Rattle.ax_ports.specs.Memory.{std_source_faults, std_source_reads};

    ghost left = { λ s. None };

    ghost faults = { λ s. std_source_faults s };

    fn read(&mut self, room: &mut [u8]) -> Result<usize, Failed>
        ensures bound { ReadsAtMost result room.new }
        ensures bytes { ReadConsumes None None result room.new }
        ensures cause { HasCause (std_source_faults self.old) (std_source_faults self.new) result }
        ensures none { IsFalse (std_source_reads self.old) → IsErr result }
        ensures reads { std_source_reads self.new ≡ std_source_reads self.old }
    {
        let Some(reader) = &mut self.reader else {
            return self.fail();
        };
        match reader.read(room) {
            Ok(count) => Ok(count),
            Err(_) => self.fail(),
        }
    }
}
