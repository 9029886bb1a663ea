use crate::changes::held_of;
use crate::written::{segment_of, write_shaped};
use ax_case_lines::{CaseFault, CaseLine, four_words, name_of, two_words, u64_of};
use ax_claims::Rows;

/// The split `SEGMENT HELD FENCE`.
pub(crate) fn split(rows: &mut Rows, line: &mut CaseLine) -> Result<(), CaseFault> {
    let (segment, held, fence) = two_words(&line.text);
    let segment = segment_of(segment)?;
    let held = held_of(held)?;
    let fence = u64_of(fence)?;
    if fence == u64::MAX {
        return Err(CaseFault::Line);
    }
    write_shaped(rows.split(line.alloc, segment, held, fence), &mut line.out)
}

/// The merge `SEGMENT HELD ACTOR NOW FENCE`.
pub(crate) fn merge(rows: &mut Rows, line: &mut CaseLine) -> Result<(), CaseFault> {
    let (segment, held, actor, now, fence) = four_words(&line.text);
    let segment = segment_of(segment)?;
    let held = held_of(held)?;
    let (now, fence) = (u64_of(now)?, u64_of(fence)?);
    let actor = name_of(line.alloc, actor)?;
    let changed = rows.merge(line.alloc, segment, held, &actor, now, fence);
    drop(actor);
    write_shaped(changed, &mut line.out)
}

/// The reset `ACTOR NOW FENCE`.
pub(crate) fn reset(rows: &mut Rows, line: &mut CaseLine) -> Result<(), CaseFault> {
    let (actor, now, fence) = two_words(&line.text);
    let (now, fence) = (u64_of(now)?, u64_of(fence)?);
    let actor = name_of(line.alloc, actor)?;
    if rows.rows().len() as u64 > u64::MAX - fence {
        return Err(CaseFault::Line);
    }
    let changed = rows.reset_all(line.alloc, &actor, now, fence);
    drop(actor);
    write_shaped(changed, &mut line.out)
}
