ghost use Rattle.std.specs.Prelude.{◌≡◌, ◌+◌, ◌/◌, ◌^◌, ◌<◌, ◌==◌, false, [], ◌∷◌, length, min, IfOk, IfNone, IfSome};
ghost use Rattle.ax_segments.specs.Segments.{lower_half, upper_half, max_mask, partner};
ghost use Rattle.ax_world.specs.WorldTables.{state_of};
ghost use Rattle.ax_world.specs.Moves.{IsMove};
ghost use Rattle.ax_world.specs.declared.edit.Edit.{Edit};
ghost use Rattle.ax_journal.specs.declared.reply.Reply.{Reply};
ghost use Rattle.ax_step_claims.specs.Claiming.{split_at, merge_at, merged_move};

use crate::edits::fenced_edits;
use crate::refusals::refusal;
use ax_claims::{ClaimFault, Rows};
use ax_journal::Reply;
use ax_segments::Segment;
use ax_values::{Duplicate, NoMemory};
use ax_world::{Edit, Move, World, held_fence};
use std::alloc::Global;

/// Puts the rows of both halves in the place of the row of the segment.
pub(crate) fn split_segment(
    alloc: Global,
    world: &World,
    actor: u32,
    processor: u32,
    segment: Segment,
) -> Result<Move, NoMemory>
    requires processor { processor < length world.now.tables.setting.processors }
    requires actor { actor < length world.now.tables.setting.actors }
    requires fence { world.now.tables.fence < 2 ^ 63 }
    ensures { IfOk result (IsMove world.now.tables (split_at (state_of world.now.tables) actor processor segment)) }
{
    world.facts();
    let fence = world.fence() + 1;
    let held = held_fence(world.desk(actor).held.parts(), processor, segment);
    let mut rows = world.rows(processor).copy(alloc)?;
    match rows.split(alloc, segment, held, fence) {
        Ok(()) => split_move(alloc, processor, segment, rows, fence + 1),
        Err(ClaimFault::Refused(refused)) => refusal(alloc, &rows, refused),
        Err(ClaimFault::Memory) => Err(NoMemory),
    }
}

/// The move to the rows after a split of the segment, of which this is the last fence.
fn split_move(
    alloc: Global,
    processor: u32,
    segment: Segment,
    rows: Rows,
    fence: u64,
) -> Result<Move, NoMemory>
    requires { (segment.mask == max_mask) ≡ false }
    ensures { IfOk result (λ made. made ≡ record { edits = Edit.SetRows processor rows ∷ Edit.Fence fence ∷ []; reply = Reply.Halves (lower_half segment) (upper_half segment); report = [] }) }
{
    let Ok((lower, upper)) = segment.split() else {
        unreachable!()
    };
    let edits = fenced_edits(alloc, processor, rows, fence)?;
    Ok(Move::of(alloc, edits, Reply::Halves { lower, upper }))
}

/// Puts one row in the place of that of the segment and of its partner's.
pub(crate) fn merge_segment(
    alloc: Global,
    world: &World,
    actor: u32,
    processor: u32,
    segment: Segment,
) -> Result<Move, NoMemory>
    requires processor { processor < length world.now.tables.setting.processors }
    requires actor { actor < length world.now.tables.setting.actors }
    requires fence { world.now.tables.fence < 2 ^ 63 }
    ensures { IfOk result (IsMove world.now.tables (merge_at (state_of world.now.tables) actor processor segment)) }
{
    let now = world.clock();
    let fence = world.fence() + 1;
    let held = held_fence(world.desk(actor).held.parts(), processor, segment);
    let mut rows = world.rows(processor).copy(alloc)?;
    match rows.merge(alloc, segment, held, world.actor_name(actor), now, fence) {
        Ok(()) => merge_move(alloc, processor, segment, rows, fence),
        Err(ClaimFault::Refused(refused)) => refusal(alloc, &rows, refused),
        Err(ClaimFault::Memory) => Err(NoMemory),
    }
}

/// The move to the rows after a merge of the segment with its partner, under this fence.
fn merge_move(
    alloc: Global,
    processor: u32,
    segment: Segment,
    rows: Rows,
    fence: u64,
) -> Result<Move, NoMemory>
    requires { IfNone (partner segment) ⊥ }
    ensures { IfSome (partner segment) (λ other. IfOk result (λ made. made ≡ merged_move processor rows fence segment other)) }
{
    let Some(other) = segment.partner() else {
        unreachable!()
    };
    let Some(whole) = segment.merged_with(other) else {
        unreachable!()
    };
    let edits = fenced_edits(alloc, processor, rows, fence)?;
    Ok(Move::of(alloc, edits, Reply::Merged { segment: whole }))
}
