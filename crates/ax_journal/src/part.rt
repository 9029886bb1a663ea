ghost use Rattle.std.specs.Prelude.{◌≡◌, ◌++◌, length, take, OnOk, OnErr};
ghost use Rattle.std.specs.List.{flat_map};
ghost use Rattle.ax_values.specs.Words.{words, spaced};
ghost use Rattle.ax_journal.specs.Parts.{part_words, is_nothing};

use crate::segment::write_segment;
use ax_segments::Segment;
use ax_values::{
    ItemName, Line, Name, NoMemory, Payload, Seen, undo_on_error, write_number, write_u32,
};

/// A part of a line: one word, the three words of what was seen, or a word for each argument.
#[derive(Drop)]
pub(crate) enum Part<'a> {
    Word(&'a [u8]),
    Small(u32),
    Number(u64),
    Name(&'a Name),
    Segment(Segment),
    Item(&'a ItemName),
    Seen(&'a Seen),
    Args(&'a Payload),
    Line(&'a Line),
}

impl Part<'_> {
    fn is_nothing(&self) -> bool
        ensures { result ≡ is_nothing (part_words self.now) }
    {
        match self {
            Part::Args(payload) => payload.parts().is_empty(),
            _ => false,
        }
    }

    fn write(&self, out: &mut Vec<u8>) -> Result<(), NoMemory>
        ensures ok { OnOk result (out.new.items ≡ out.old.items ++ words (part_words self.now)) }
        ensures err { OnErr result (out.new.items ≡ out.old.items) }
    {
        match self {
            Part::Word(word) => out.extend_from_slice(word)?,
            Part::Small(number) => write_u32(*number, out)?,
            Part::Number(number) => write_number(*number, out)?,
            Part::Name(name) => name.write(out)?,
            Part::Segment(segment) => write_segment(*segment, out)?,
            Part::Item(item) => item.write(out)?,
            Part::Seen(seen) => seen.write(out)?,
            Part::Args(payload) => payload.write(out)?,
            Part::Line(line) => out.extend_from_slice(line.parts())?,
        }
        Ok(())
    }

    #[tactic(auto, using(crate::proofs::LineLaws::spaced_words))]
    fn write_spaced(&self, out: &mut Vec<u8>) -> Result<(), NoMemory>
        ensures ok { OnOk result (out.new.items ≡ out.old.items ++ spaced (part_words self.now)) }
        ensures front { OnErr result (take (length out.old.items) out.new.items ≡ out.old.items) }
    {
        if self.is_nothing() {
            return Ok(());
        }
        out.push(b' ')?;
        self.write(out)
    }
}

/// Adds the parts, a space in front of each word. Where memory is wanting, nothing is added.
pub(crate) fn write_parts(parts: &[Part<'_>], out: &mut Vec<u8>) -> Result<(), NoMemory>
    ensures ok { OnOk result (out.new.items ≡ out.old.items ++ spaced (flat_map part_words parts.now)) }
    ensures err { OnErr result (out.new.items ≡ out.old.items) }
{
    let start = out.len();
    let written = write_each(parts, out);
    undo_on_error(out, start, written)
}

fn write_each(parts: &[Part<'_>], out: &mut Vec<u8>) -> Result<(), NoMemory>
    ensures ok { OnOk result (out.new.items ≡ out.old.items ++ spaced (flat_map part_words parts.now)) }
    ensures front { OnErr result (take (length out.old.items) out.new.items ≡ out.old.items) }
{
    for part in parts {
        part.write_spaced(out)?;
    }
    Ok(())
}
