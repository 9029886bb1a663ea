ghost use Rattle.std.specs.Prelude.{◌≡◌, option_map};
ghost use Rattle.std.specs.Option.{option_copied};
ghost use Rattle.ax_world.specs.Holding.{held_fence, held_check};

use crate::Held;
use ax_claims::TokenRow;
use ax_journal::Reply;
use ax_segments::Segment;

/// The fence that is held for a segment of the processor. None comes exactly where none is held.
pub fn held_fence(held: &[Held], processor: u32, segment: Segment) -> Option<u64>
    ensures { result ≡ held_fence processor segment held.now }
{
    match held.iter().find(|fence| fence.is_at(processor, segment)) {
        Some(found) => Some(found.fence),
        None => None,
    }
}

/// Why an order on a held segment is refused. NoSegment comes where neither a row nor a held fence is there, NotHeld where
/// there is a row and no held fence, and Stale, with both fences, where the row has another fence, or is gone. None comes
/// exactly where the row has the fence that is held.
pub fn held_check(held: Option<u64>, row: Option<&TokenRow>) -> Option<Reply>
    ensures { result ≡ held_check held (option_copied row.entry) }
{
    match (held, row) {
        (None, None) => Some(Reply::NoSegment),
        (None, Some(_)) => Some(Reply::NotHeld),
        (Some(held), None) => Some(Reply::Stale { held, found: None }),
        (Some(held), Some(row)) => {
            if row.fence == held {
                None
            } else {
                let found = Some(row.fence);
                Some(Reply::Stale { held, found })
            }
        }
    }
}
