ghost use Rattle.std.specs.Prelude.{◌≡◌, IfOk};
ghost use Rattle.ax_step_claims.specs.Claiming.{let_go, hold_fence};

use ax_segments::Segment;
use ax_values::{Duplicate, NoMemory};
use ax_world::{Held, HeldList};
use std::alloc::Global;

/// The fences that are held, but for those of the segment.
pub(crate) fn let_go(
    alloc: Global,
    held: &[Held],
    processor: u32,
    segment: Segment,
) -> Result<HeldList, NoMemory>
    ensures { IfOk result (λ fences. fences ≡ let_go processor segment held.now) }
{
    let mut fences = Vec::new(alloc);
    for older in held {
        if !older.is_at(processor, segment) {
            fences.push(older.copy(alloc)?)?;
        }
    }
    Ok(HeldList::of(fences))
}

/// The fences that are held, and this one in place of an older one of its segment.
pub(crate) fn hold_fence(alloc: Global, held: &[Held], fresh: Held) -> Result<HeldList, NoMemory>
    ensures { IfOk result (λ fences. fences ≡ hold_fence fresh.processor fresh.segment fresh.fence held.now) }
{
    let mut fences = let_go(alloc, held, fresh.processor, fresh.segment)?;
    fences.push(fresh)?;
    Ok(fences)
}
