ghost use Rattle.std.specs.Prelude.{◌≡◌, length, take, OnOk, OnErr};

use crate::NoMemory;

/// Takes back what was written after the first `start` bytes, where the writing failed. It returns the writing's result.
pub fn undo_on_error(
    out: &mut Vec<u8>,
    start: usize,
    written: Result<(), NoMemory>,
) -> Result<(), NoMemory>
    ensures value { result ≡ written }
    ensures ok { OnOk result (out.new.items ≡ out.old.items) }
    ensures err { OnErr result (out.new.items ≡ take start out.old.items) }
{
    if written.is_err() {
        out.truncate(start);
    }
    written
}
