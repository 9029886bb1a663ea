ghost use Rattle.std.specs.Prelude.{◌≡◌, ◌++◌, length, take, Some, IfSome, OnOk, OnErr};
ghost use Rattle.ax_journal.specs.Segment.{segment_text, segment_in};

use ax_segments::Segment;
use ax_values::{NoMemory, cut_at, read_number_to, undo_on_error, write_u32};

/// The segment that the text `id/mask` is: the mask plus 1 is a power of two, the mask is at most 65,535, and the id at
/// most the mask. None comes exactly outside this.
pub fn read_segment(text: &[u8]) -> Option<Segment>
    ensures value { result ≡ segment_in text.now }
    ensures written { IfSome result (λ segment. segment_text segment ≡ text.now) }
{
    let (id, mask) = cut_at(b'/', text)?;
    let mask = read_number_to(65_535, mask)?;
    let id = read_number_to(mask, id)?;
    if (mask + 1).is_power_of_two() {
        Some(Segment {
            id: id as u32,
            mask: mask as u32,
        })
    } else {
        None
    }
}

/// Adds `id/mask`. Where memory is wanting, nothing is added.
pub fn write_segment(segment: Segment, out: &mut Vec<u8>) -> Result<(), NoMemory>
    ensures ok { OnOk result (out.new.items ≡ out.old.items ++ segment_text segment) }
    ensures err { OnErr result (out.new.items ≡ out.old.items) }
    ensures again { OnOk result (segment_in (segment_text segment) ≡ Some segment) }
{
    let start = out.len();
    let written = write_parts(segment, out);
    undo_on_error(out, start, written)
}

fn write_parts(segment: Segment, out: &mut Vec<u8>) -> Result<(), NoMemory>
    ensures ok { OnOk result (out.new.items ≡ out.old.items ++ segment_text segment) }
    ensures front { OnErr result (take (length out.old.items) out.new.items ≡ out.old.items) }
    ensures again { OnOk result (segment_in (segment_text segment) ≡ Some segment) }
{
    write_u32(segment.id, out)?;
    out.push(b'/')?;
    write_u32(segment.mask, out)
}
