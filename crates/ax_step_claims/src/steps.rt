ghost use Rattle.std.specs.Prelude.{◌≡◌, ◌^◌, ◌<◌, length, IfOk};
ghost use Rattle.ax_world.specs.WorldTables.{state_of};
ghost use Rattle.ax_world.specs.Moves.{IsMove};
ghost use Rattle.ax_step_claims.specs.Claiming.{IsClaiming, IsDeclared, step};

use crate::claim::claim_segment;
use crate::halves::{merge_segment, split_segment};
use crate::held::{extend_segment, release_segment};
use ax_journal::Order;
use ax_values::NoMemory;
use ax_world::{Move, World};
use std::alloc::Global;

/// What an order on claims makes of the world. A segment is held where the fence that the actor's desk holds for it is its
/// row's.
///
/// A claim: NoSegment comes exactly where there is no row of the segment, and Claimed, with the owner and the time, exactly
/// where it has another owner whose claim was made or extended at most 10,000 ms ago: these change nothing. Else the reply is
/// Fenced, with the fence: the row has the actor as its owner, the clock's time and that fence, and the actor's desk holds it
/// in place of an older one.
///
/// The others are for a segment that is held. Where the desk holds no fence for it, NoSegment comes exactly where there is no
/// row, and NotHeld exactly where there is one; Stale, with both fences, comes exactly where it holds one and the row has
/// another, or is gone. These change nothing.
///
/// An extension: else the reply is Now, with the clock: the row has the clock's time. It keeps its fence.
///
/// A release: else the reply is Done: the row has no owner, time 0 and a fresh fence, and the desk lets go of the segment.
///
/// A split: then MaskFull comes exactly at the mask 65,535, which changes nothing. Else the reply is Halves: two rows without
/// owner, with time 0, stand in the place of the row, the lower half's under the next fence and the upper half's under that
/// after it. For each hash the same is covered.
///
/// A merge: then Alone comes exactly where the segment is the root or its partner has no row, and Claimed, with the owner and
/// the time, exactly where the partner's row has another owner whose claim was made or extended at most 10,000 ms ago: these
/// change nothing. Else the reply is Merged, with the whole: one row without owner, with time 0 and a fresh fence, stands in
/// the place of both, and keeps both tokens. For each hash the same is covered.
///
/// A split and a merge leave the desks as they are: a fence that is held for a row that went is stale from then on.
///
/// The world itself stays: the edits of the move are for `World::prepare` and `World::install`. Want of memory is the only
/// error.
pub fn step(alloc: Global, world: &World, actor: u32, order: &Order) -> Result<Move, NoMemory>
    requires kind { IsClaiming order.now }
    requires processor { IsDeclared world.now.tables.setting.processors order.now }
    requires actor { actor < length world.now.tables.setting.actors }
    requires fence { world.now.tables.fence < 2 ^ 63 }
    ensures { (kind : IsClaiming order.now) → IfOk result (IsMove world.now.tables (step (state_of world.now.tables) actor order.now kind)) }
{
    match order {
        Order::Claim { processor, segment } => {
            let processor = world.processor(processor);
            claim_segment(alloc, world, actor, processor, *segment)
        }
        Order::Extend { processor, segment } => {
            let processor = world.processor(processor);
            extend_segment(alloc, world, actor, processor, *segment)
        }
        Order::Release { processor, segment } => {
            let processor = world.processor(processor);
            release_segment(alloc, world, actor, processor, *segment)
        }
        Order::Split { processor, segment } => {
            let processor = world.processor(processor);
            split_segment(alloc, world, actor, processor, *segment)
        }
        Order::Merge { processor, segment } => {
            let processor = world.processor(processor);
            merge_segment(alloc, world, actor, processor, *segment)
        }
        _ => unreachable!(),
    }
}
