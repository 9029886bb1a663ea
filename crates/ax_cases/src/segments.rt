use crate::answers::write_none;
use ax_case_lines::{CaseFault, CaseLine, case_named, first_word};
use ax_journal::{read_segment, write_segment};
use ax_segments::{Segment, hash_of};
use ax_values::write_u32;

/// What is asked of hashes and segments.
#[derive(Clone, Copy)]
pub(crate) enum SegmentCase {
    Hash,
    Quarter,
    Segment,
    Split,
    Merge,
    Partner,
}

impl SegmentCase {
    pub(crate) fn named(word: &[u8]) -> Option<SegmentCase> {
        case_named!(word;
            b"hash" => SegmentCase::Hash,
            b"quarter" => SegmentCase::Quarter,
            b"segment" => SegmentCase::Segment,
            b"halves" => SegmentCase::Split,
            b"whole" => SegmentCase::Merge,
            b"partner" => SegmentCase::Partner
        )
    }
}

/// The segment that a text is.
pub(crate) fn segment_of(text: &[u8]) -> Result<Segment, CaseFault> {
    read_segment(text).ok_or(CaseFault::Line)
}

pub(crate) fn perform(case: SegmentCase, line: &mut CaseLine) -> Result<(), CaseFault> {
    let (text, out) = (line.text.as_slice(), &mut line.out);
    match case {
        SegmentCase::Hash => Ok(write_u32(hash_of(text), out)?),
        SegmentCase::Quarter => Ok(write_u32(hash_of(text) % 4, out)?),
        SegmentCase::Segment => write_or_none(read_segment(text), out),
        SegmentCase::Split => write_halves(segment_of(text)?, out),
        SegmentCase::Merge => {
            let (lower, upper) = first_word(text);
            write_or_none(segment_of(lower)?.merged_with(segment_of(upper)?), out)
        }
        SegmentCase::Partner => write_or_none(segment_of(text)?.partner(), out),
    }
}

fn write_or_none(segment: Option<Segment>, out: &mut Vec<u8>) -> Result<(), CaseFault> {
    match segment {
        Some(segment) => Ok(write_segment(segment, out)?),
        None => write_none(out),
    }
}

fn write_halves(segment: Segment, out: &mut Vec<u8>) -> Result<(), CaseFault> {
    match segment.split() {
        Ok((lower, upper)) => {
            write_segment(lower, out)?;
            out.push(b' ')?;
            write_segment(upper, out)?;
            Ok(())
        }
        Err(_) => write_none(out),
    }
}
