ghost use Rattle.std.specs.Prelude.{◌<◌, length, IfOk};
ghost use Rattle.ax_world.specs.WorldTables.{state_of};
ghost use Rattle.ax_world.specs.Moves.{IsMove};
ghost use Rattle.ax_step_work.specs.Working.{IsWork, IsDeclared, step};

use crate::committing::commit;
use crate::fetching::fetch;
use ax_journal::Order;
use ax_values::NoMemory;
use ax_world::{Move, World};
use std::alloc::Global;

/// What a fetch or a commit of an actor makes of the world.
///
/// Both are for the segment whose fence the actor's desk holds. A fetch is refused as `held_check` says, which changes
/// nothing. Else the reply is Fetched, with the number of records: the desk holds the batch of the segment's next events,
/// at most so many, in place of an older one.
///
/// A commit is for the batch on the desk; NoBatch comes where there is none. Stale comes where the batch's row is gone or
/// has another fence: the batch is given up. NotApplied, with the item and the cause, comes for the first item of the batch
/// that does not apply, by sequence: this changes nothing. Else the reply is Committed, with the number of items: the rows
/// are those after the items, the segment's token is the batch's, at the clock's time, and the desk holds no batch.
///
/// The world itself stays: the edits of the move are for `World::prepare` and `World::install`. Want of memory is the only
/// error.
pub fn step(alloc: Global, world: &World, actor: u32, order: &Order) -> Result<Move, NoMemory>
    requires kind { IsWork order.now }
    requires processor { IsDeclared world.now.tables.setting order.now }
    requires actor { actor < length world.now.tables.setting.actors }
    ensures { (kind : IsWork order.now) → IfOk result (IsMove world.now.tables (step (state_of world.now.tables) actor order.now kind)) }
{
    match order {
        Order::Fetch {
            processor,
            segment,
            max,
        } => {
            let processor = world.processor(processor);
            fetch(alloc, world, actor, processor, *segment, *max)
        }
        Order::Commit => commit(alloc, world, actor),
        _ => unreachable!(),
    }
}
