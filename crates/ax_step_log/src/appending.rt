ghost use Rattle.std.specs.Prelude.{◌≡◌, ◌<◌, Some, length, slice_get, IfOk};
ghost use Rattle.ax_world.specs.WorldTables.{desk_of, state_of};
ghost use Rattle.ax_world.specs.Moves.{IsMove};
ghost use Rattle.ax_step_log.specs.Logging.{append, appended};

use crate::puts::{cells_and_desk, void_puts};
use ax_journal::Reply;
use ax_log::{CellPuts, LogFault};
use ax_values::{Duplicate, NoMemory};
use ax_world::{Desk, Move, Reservation, World};
use std::alloc::Global;

/// The events of the desk's reservation take its cells.
pub(crate) fn append(alloc: Global, world: &World, actor: u32) -> Result<Move, NoMemory>
    requires { actor < length world.now.tables.setting.actors }
    ensures { IfOk result (IsMove world.now.tables (append (state_of world.now.tables) actor)) }
{
    world.facts();
    let desk = world.desk(actor);
    match &desk.reservation {
        None => Ok(Move::without_edits(alloc, Reply::NoReservation)),
        Some(reservation) => append_records(alloc, world, actor, desk, reservation),
    }
}

fn append_records(
    alloc: Global,
    world: &World,
    actor: u32,
    desk: &Desk,
    reservation: &Reservation,
) -> Result<Move, NoMemory>
    requires desk { slice_get world.now.tables.desks actor ≡ Some (desk_of desk.now) }
    requires batch { slice_get world.now.tables.bases actor ≡ Some desk.now.batch }
    requires reservation { desk.now.reservation ≡ Some reservation.now }
    ensures { IfOk result (IsMove world.now.tables (appended (state_of world.now.tables) actor (Some reservation.now))) }
{
    let log = world.log();
    let first = reservation.first;
    let count = reservation.records.parts().len() as u32;
    let records = reservation.records.copy(alloc)?;
    match log.append(alloc, first, records.into_parts()) {
        Ok(puts) => {
            let desk = desk.with_reservation(alloc, None)?;
            let seq = reservation.first_seq;
            cells_and_desk(alloc, puts, actor, desk, Reply::Appended { seq, count })
        }
        Err(LogFault::Conflict { expected, found }) => {
            let puts = CellPuts::of(void_puts(alloc, log.cells(), first, count)?);
            let desk = desk.with_reservation(alloc, None)?;
            let reply = Reply::Conflict { expected, found };
            cells_and_desk(alloc, puts, actor, desk, reply)
        }
        Err(LogFault::Voided { index: cell }) => {
            Ok(Move::without_edits(alloc, Reply::VoidedCell { cell }))
        }
        Err(LogFault::Memory) => Err(NoMemory),
        Err(LogFault::LogFull) => unreachable!(),
        Err(LogFault::NotReserved) => unreachable!(),
        Err(LogFault::Young { .. }) => unreachable!(),
    }
}
