ghost use Rattle.std.specs.Prelude.{◌≡◌, ◌∷◌, ◌++◌, length, take, Some, IfOk, IfSome, OnOk, OnErr};
ghost use Rattle.ax_rules.specs.Why.{why_text, why_in, why_word, why_pair};

use crate::Cause;
use ax_values::{Duplicate, Name, NoMemory, cut_at, read_u32, undo_on_error, write_u32};
use std::alloc::Global;

/// Why an item is parked or dropped.
#[derive(Drop)]
pub enum Why {
    /// The item is marked.
    Marked,
    /// The rules do not apply to it.
    Failed(Cause),
    /// An item before it is parked.
    Behind,
}

impl Why {
    /// The why that the text is: `marked`, `overflow`, `missing NAME`, `guard G`, or the word of a later item of a parked
    /// sequence. None comes exactly where no why is written so.
    pub fn read(alloc: Global, text: &[u8]) -> Result<Option<Why>, NoMemory>
        ensures value { IfOk result (λ read. read ≡ why_in text.now) }
        ensures written { IfOk result (λ read. IfSome read (λ why. why_text why ≡ text.now)) }
    {
        match cut_at(b' ', text) {
            Some((word, value)) => read_pair(alloc, word, value),
            None => Ok(read_word(text)),
        }
    }

    /// Adds the text of the why. Where memory is wanting, nothing is added.
    pub fn write(&self, out: &mut Vec<u8>) -> Result<(), NoMemory>
        ensures ok { OnOk result (out.new.items ≡ out.old.items ++ why_text self.now) }
        ensures err { OnErr result (out.new.items ≡ out.old.items) }
        ensures again { OnOk result (why_in (why_text self.now) ≡ Some self.now) }
    {
        let start = out.len();
        let written = self.write_parts(out);
        undo_on_error(out, start, written)
    }

    #[tactic(auto, unfolding(ax_values::specs::Grammar::IsReadBack))]
    fn write_parts(&self, out: &mut Vec<u8>) -> Result<(), NoMemory>
        ensures ok { OnOk result (out.new.items ≡ out.old.items ++ why_text self.now) }
        ensures front { OnErr result (take (length out.old.items) out.new.items ≡ out.old.items) }
        ensures again { OnOk result (why_in (why_text self.now) ≡ Some self.now) }
    {
        match self {
            Why::Marked => out.extend_from_slice(b"marked")?,
            Why::Behind => out.extend_from_slice(b"behind")?,
            Why::Failed(Cause::Overflow) => out.extend_from_slice(b"overflow")?,
            Why::Failed(Cause::Missing(name)) => {
                out.extend_from_slice(b"missing ")?;
                name.write(out)?;
            }
            Why::Failed(Cause::Guard(number)) => {
                out.extend_from_slice(b"guard ")?;
                write_u32(*number, out)?;
            }
        }
        Ok(())
    }
}

fn read_word(word: &[u8]) -> Option<Why>
    ensures value { result ≡ why_word word.now }
    ensures written { IfSome result (λ why. why_text why ≡ word.now) }
{
    if word == b"marked".as_slice() {
        Some(Why::Marked)
    } else if word == b"behind".as_slice() {
        Some(Why::Behind)
    } else if word == b"overflow".as_slice() {
        Some(Why::Failed(Cause::Overflow))
    } else {
        None
    }
}

fn read_pair(alloc: Global, word: &[u8], value: &[u8]) -> Result<Option<Why>, NoMemory>
    ensures value { IfOk result (λ read. read ≡ why_pair (record { before = word.now; after = value.now })) }
    ensures written { IfOk result (λ read. IfSome read (λ why. why_text why ≡ word.now ++ 32 ∷ value.now)) }
{
    if word == b"missing".as_slice() {
        Ok(Name::read(alloc, value)?.map(|name| Why::Failed(Cause::Missing(name))))
    } else if word == b"guard".as_slice() {
        Ok(read_u32(value).map(|number| Why::Failed(Cause::Guard(number))))
    } else {
        Ok(None)
    }
}

impl Duplicate for Why {
    fn copy(&self, alloc: Global) -> Result<Why, NoMemory> {
        match self {
            Why::Marked => Ok(Why::Marked),
            Why::Failed(cause) => Ok(Why::Failed(cause.copy(alloc)?)),
            Why::Behind => Ok(Why::Behind),
        }
    }
}
