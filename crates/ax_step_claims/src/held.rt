ghost use Rattle.std.specs.Prelude.{◌^◌, ◌<◌, length, IfOk};
ghost use Rattle.ax_world.specs.WorldTables.{state_of};
ghost use Rattle.ax_world.specs.Moves.{IsMove};
ghost use Rattle.ax_step_claims.specs.Claiming.{extend_at, release_at};

use crate::edits::{desk_edits, rows_edits};
use crate::fences::let_go;
use crate::refusals::refusal;
use ax_journal::Reply;
use ax_segments::Segment;
use ax_values::{Duplicate, NoMemory};
use ax_world::{Move, World, held_fence};
use std::alloc::Global;

/// Renews the actor's claim of the segment of the processor.
pub(crate) fn extend_segment(
    alloc: Global,
    world: &World,
    actor: u32,
    processor: u32,
    segment: Segment,
) -> Result<Move, NoMemory>
    requires processor { processor < length world.now.tables.setting.processors }
    requires actor { actor < length world.now.tables.setting.actors }
    ensures { IfOk result (IsMove world.now.tables (extend_at (state_of world.now.tables) actor processor segment)) }
{
    let now = world.clock();
    let held = held_fence(world.desk(actor).held.parts(), processor, segment);
    let mut rows = world.rows(processor).copy(alloc)?;
    if let Err(refused) = rows.extend(segment, held, now) {
        return refusal(alloc, &rows, refused);
    }
    let edits = rows_edits(alloc, processor, rows)?;
    Ok(Move::of(alloc, edits, Reply::Now { moment: now }))
}

/// Takes the segment of the processor from the actor, under a fresh fence.
pub(crate) fn release_segment(
    alloc: Global,
    world: &World,
    actor: u32,
    processor: u32,
    segment: Segment,
) -> Result<Move, NoMemory>
    requires processor { processor < length world.now.tables.setting.processors }
    requires actor { actor < length world.now.tables.setting.actors }
    requires fence { world.now.tables.fence < 2 ^ 63 }
    ensures { IfOk result (IsMove world.now.tables (release_at (state_of world.now.tables) actor processor segment)) }
{
    world.facts();
    let fence = world.fence() + 1;
    let desk = world.desk(actor);
    let held = held_fence(desk.held.parts(), processor, segment);
    let mut rows = world.rows(processor).copy(alloc)?;
    if let Err(refused) = rows.release(segment, held, fence) {
        return refusal(alloc, &rows, refused);
    }
    let left = let_go(alloc, desk.held.parts(), processor, segment)?;
    let desk = desk.with_held(alloc, left)?;
    let edits = desk_edits(alloc, processor, rows, fence, actor, desk)?;
    Ok(Move::of(alloc, edits, Reply::Done))
}
