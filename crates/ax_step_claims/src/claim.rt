ghost use Rattle.std.specs.Prelude.{◌≡◌, ◌^◌, ◌<◌, length, IfOk};
ghost use Rattle.ax_claims.specs.Rows.{row_at};
ghost use Rattle.ax_state.specs.State.{processor_state_at};
ghost use Rattle.ax_world.specs.WorldTables.{state_of};
ghost use Rattle.ax_world.specs.Moves.{IsMove};
ghost use Rattle.ax_step_claims.specs.Claiming.{claimed};

use crate::edits::desk_edits;
use crate::fences::hold_fence;
use crate::refusals::refusal;
use ax_journal::Reply;
use ax_segments::Segment;
use ax_values::{Duplicate, NoMemory};
use ax_world::{Held, Move, World};
use std::alloc::Global;

/// Gives the actor the segment of the processor, under a fresh fence.
pub(crate) fn claim_segment(
    alloc: Global,
    world: &World,
    actor: u32,
    processor: u32,
    segment: Segment,
) -> Result<Move, NoMemory>
    requires processor { processor < length world.now.tables.setting.processors }
    requires actor { actor < length world.now.tables.setting.actors }
    requires fence { world.now.tables.fence < 2 ^ 63 }
    ensures { IfOk result (IsMove world.now.tables (claimed (state_of world.now.tables) actor processor segment (row_at segment (processor_state_at (state_of world.now.tables) processor).rows))) }
{
    let now = world.clock();
    let fence = world.fence() + 1;
    let owner = world.actor_name(actor).copy(alloc)?;
    let mut rows = world.rows(processor).copy(alloc)?;
    if let Err((refused, _owner)) = rows.claim(segment, owner, now, fence) {
        return refusal(alloc, &rows, refused);
    }
    let fresh = Held {
        processor,
        segment,
        fence,
    };
    let desk = world.desk(actor);
    let held = hold_fence(alloc, desk.held.parts(), fresh)?;
    let desk = desk.with_held(alloc, held)?;
    let edits = desk_edits(alloc, processor, rows, fence, actor, desk)?;
    Ok(Move::of(alloc, edits, Reply::Fenced { fence }))
}
