ghost use Rattle.std.specs.Prelude.{◌^◌, ◌<◌, length, IfOk};
ghost use Rattle.ax_world.specs.WorldTables.{state_of};
ghost use Rattle.ax_world.specs.Moves.{IsMove};
ghost use Rattle.ax_machine.specs.Run.{IsKnown, IsPerformed, step};

use ax_journal::Order;
use ax_values::NoMemory;
use ax_world::{Move, World};
use std::alloc::Global;

/// The move to the state that an order of an actor leads to, with its reply and its report.
/// The world itself stays: the edits of the move are for `World::prepare` and `World::install`. Want of memory is the
/// only error.
pub fn step(alloc: Global, world: &World, actor: u32, order: &Order) -> Result<Move, NoMemory>
    requires known { IsKnown world.now.tables.setting order.now }
    requires performed { IsPerformed order.now }
    requires actor { actor < length world.now.tables.setting.actors }
    requires fence { world.now.tables.fence < 2 ^ 63 }
    ensures { IfOk result (IsMove world.now.tables (step (state_of world.now.tables) actor order.now)) }
{
    world.facts();
    match order {
        Order::Send { .. } => ax_step_log::step(alloc, world, actor, order),
        Order::Append => ax_step_log::step(alloc, world, actor, order),
        Order::Tick { .. } => ax_step_log::step(alloc, world, actor, order),
        Order::Void { .. } => ax_step_log::step(alloc, world, actor, order),
        Order::Stop => ax_step_log::step(alloc, world, actor, order),
        Order::Claim { .. } => ax_step_claims::step(alloc, world, actor, order),
        Order::Extend { .. } => ax_step_claims::step(alloc, world, actor, order),
        Order::Release { .. } => ax_step_claims::step(alloc, world, actor, order),
        Order::Split { .. } => ax_step_claims::step(alloc, world, actor, order),
        Order::Merge { .. } => ax_step_claims::step(alloc, world, actor, order),
        Order::Fetch { .. } => ax_step_work::step(alloc, world, actor, order),
        Order::Commit => ax_step_work::step(alloc, world, actor, order),
        Order::ShowRows { .. } => ax_report::step(alloc, world, actor, order),
        Order::ShowTokens { .. } => ax_report::step(alloc, world, actor, order),
        Order::ShowLog => ax_report::step(alloc, world, actor, order),
        _ => unreachable!(),
    }
}
