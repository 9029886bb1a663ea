ghost use Rattle.std.specs.Prelude.{◌≡◌, ◌<◌, [], ◌∷◌, length, IfOk};
ghost use Rattle.ax_world.specs.WorldTables.{state_of};
ghost use Rattle.ax_world.specs.Moves.{IsMove};
ghost use Rattle.ax_step_log.specs.Logging.{tick, void, stop};

use ax_journal::Reply;
use ax_log::{CellPut, CellPuts, LogFault};
use ax_values::NoMemory;
use ax_world::{Desk, Edit, Edits, Move, World};
use std::alloc::Global;

/// The last moment that a clock can show, in milliseconds.
const MAX_CLOCK: u64 = 1_000_000_000_000_000_000;

/// The clock rises, at most to its last moment.
pub(crate) fn tick(alloc: Global, world: &World, ms: u64) -> Result<Move, NoMemory>
    ensures { IfOk result (IsMove world.now.tables (tick (state_of world.now.tables) ms)) }
{
    let clock = world.clock();
    let now = clock + ms.min(MAX_CLOCK - clock);
    let edits = one_edit(alloc, Edit::Clock(now))?;
    Ok(Move::of(alloc, edits, Reply::Now { moment: now }))
}

/// A cell that has been reserved for too long becomes void.
pub(crate) fn void(alloc: Global, world: &World, cell: u32) -> Result<Move, NoMemory>
    ensures { IfOk result (IsMove world.now.tables (void (state_of world.now.tables) cell)) }
{
    match world.log().void(cell, world.clock()) {
        Ok(put) => {
            let edits = one_edit(alloc, Edit::Cells(one_put(alloc, put)?))?;
            Ok(Move::of(alloc, edits, Reply::Voided { cell }))
        }
        Err(LogFault::Young { since }) => Ok(Move::without_edits(alloc, Reply::Young { since })),
        Err(LogFault::NotReserved) => Ok(Move::without_edits(alloc, Reply::NotReserved)),
        Err(LogFault::Conflict { .. }) => unreachable!(),
        Err(LogFault::Voided { .. }) => unreachable!(),
        Err(LogFault::LogFull) => unreachable!(),
        Err(LogFault::Memory) => unreachable!(),
    }
}

/// The actor's desk is emptied.
pub(crate) fn stop(alloc: Global, world: &World, actor: u32) -> Result<Move, NoMemory>
    requires { actor < length world.now.tables.setting.actors }
    ensures { IfOk result (IsMove world.now.tables (stop (state_of world.now.tables) actor)) }
{
    world.facts();
    let desk = Desk::empty(alloc);
    let edits = one_edit(alloc, Edit::SetDesk { actor, desk })?;
    Ok(Move::of(alloc, edits, Reply::Done))
}

fn one_edit(alloc: Global, edit: Edit) -> Result<Edits, NoMemory>
    ensures { IfOk result (λ edits. edits ≡ edit ∷ []) }
{
    let mut edits = Vec::with_capacity(alloc, 1)?;
    edits.push(edit)?;
    Ok(Edits::of(edits))
}

fn one_put(alloc: Global, put: CellPut) -> Result<CellPuts, NoMemory>
    ensures { IfOk result (λ puts. puts ≡ put ∷ []) }
{
    let mut puts = Vec::with_capacity(alloc, 1)?;
    puts.push(put)?;
    Ok(CellPuts::of(puts))
}
