use ax_ports::{Failed, Sink};
use std::alloc::Global;

/// A sink that takes one byte a call, as many as it has room for.
#[derive(Drop)]
pub(crate) struct ByteSink {
    bytes: Vec<u8>,
    room: usize,
    faults: u64,
}

impl ByteSink {
    pub(crate) fn new(alloc: Global, room: usize) -> ByteSink {
        ByteSink {
            bytes: Vec::new(alloc),
            room,
            faults: 0,
        }
    }

    pub(crate) fn bytes(&self) -> &[u8] {
        &self.bytes
    }
}

impl Sink for ByteSink {
    ghost use Rattle.std.specs.Prelude.{Some};

    ghost taken = { λ sink. Some sink.bytes.items };

    ghost faults = { λ sink. sink.faults };

    fn write(&mut self, piece: &[u8]) -> Result<usize, Failed> {
        let [first, ..] = piece else {
            return Ok(0);
        };
        if self.room == 0 || self.bytes.push(*first).is_err() {
            self.faults = self.faults.saturating_add(1);
            return Err(Failed);
        }
        self.room -= 1;
        Ok(1)
    }
}
