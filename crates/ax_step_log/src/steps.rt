ghost use Rattle.std.specs.Prelude.{◌<◌, length, IfOk};
ghost use Rattle.ax_world.specs.WorldTables.{state_of};
ghost use Rattle.ax_world.specs.Moves.{IsMove};
ghost use Rattle.ax_step_log.specs.Logging.{IsLogged, IsDeclared, step};

use crate::appending::append;
use crate::others::{stop, tick, void};
use crate::sending::send;
use ax_journal::Order;
use ax_values::NoMemory;
use ax_world::{Move, World};
use std::alloc::Global;

/// What an order on the clock, the log or a desk makes of the world: a send, an append, a tick, a void or a stop.
///
/// A send decides the command for the aggregate's state, which is the fold of all its items, where one that does not apply
/// leaves the row. GuardFails names the first guard that fails, and LogFull comes where the cells would pass 200,000: these
/// change nothing. Else the reply is Reserved: the actor's desk holds a reservation of new cells at the end of the log, one
/// for each event, for events that go on with the stream as it is. The cells of an older reservation that are still
/// reserved become void.
///
/// An append puts the events of the desk's reservation into its cells. NoReservation comes where there is none, and
/// VoidedCell, with the first such, where one of its cells is void: these two change nothing. Conflict comes where the
/// stream no longer has the length that it had at the send, with both lengths: the reserved cells become void. Else the
/// reply is Appended, with the first number and the count. After both the desk holds no reservation.
///
/// A tick moves the clock by so many milliseconds, at most to 10^18; the reply is Now, with the clock then.
///
/// A void makes a cell void that has been reserved for more than 60,000 ms; the reply is Voided. NotReserved comes where there
/// is no such cell or it is not reserved, and Young, with the moment of its reservation, where it is reserved for no longer than
/// that: both change nothing.
///
/// A stop empties the actor's desk; the reply is Done. Cells that it had reserved stay reserved, and rows that it owns stay its
/// own until they expire.
///
/// The world itself stays: the edits of the move are for `World::prepare` and `World::install`. Want of memory is the only
/// error.
pub fn step(alloc: Global, world: &World, actor: u32, order: &Order) -> Result<Move, NoMemory>
    requires kind { IsLogged order.now }
    requires command { IsDeclared world.now.tables.setting.sheet order.now }
    requires actor { actor < length world.now.tables.setting.actors }
    ensures { (kind : IsLogged order.now) → IfOk result (IsMove world.now.tables (step (state_of world.now.tables) actor order.now kind)) }
{
    match order {
        Order::Send {
            aggregate,
            command,
            args,
        } => send(alloc, world, actor, aggregate, command, args),
        Order::Append => append(alloc, world, actor),
        Order::Tick { ms } => tick(alloc, world, *ms),
        Order::Void { cell } => void(alloc, world, *cell),
        Order::Stop => stop(alloc, world, actor),
        _ => unreachable!(),
    }
}
