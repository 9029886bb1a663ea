ghost use Rattle.std.specs.Prelude.{◌≡◌, ◌+◌, ◌<◌, ◌^◌, length, is_some, IfOk, IsTrue};
ghost use Rattle.ax_sheet.specs.Sheet.{command_fits, command_named};
ghost use Rattle.ax_sheet.specs.Decision.{decision};
ghost use Rattle.ax_state.specs.Positions.{aggregate_state};
ghost use Rattle.ax_world.specs.WorldTables.{state_of};
ghost use Rattle.ax_world.specs.Moves.{IsMove};
ghost use Rattle.ax_step_log.specs.Logging.{as_records, send, sent_decided, sent_events};
ghost use Rattle.ax_step_log.specs.SendParts.{EventsFit, DecidedFits, puts_number};

use crate::fold::aggregate_row;
use crate::puts::{cells_and_desk, release};
use ax_journal::Reply;
use ax_log::{CellPut, LogFault};
use ax_sheet::{Command, Decided, Events, decide};
use ax_upcast::Event;
use ax_values::{Cell, Duplicate, Name, NoMemory, Payload, Record, Records};
use ax_world::{Move, Reservation, World};
use std::alloc::Global;

/// The command is decided, and new cells are reserved for its events.
pub(crate) fn send(
    alloc: Global,
    world: &World,
    actor: u32,
    aggregate: &Name,
    command: &Name,
    args: &Payload,
) -> Result<Move, NoMemory>
    requires actor { actor < length world.now.tables.setting.actors }
    requires command { IsTrue (is_some (command_named world.now.tables.setting.sheet command.now)) }
    ensures { IfOk result (IsMove world.now.tables (send (state_of world.now.tables) actor aggregate.now command.now args.now)) }
{
    world.facts();
    let Some(command) = world.sheet().command(command) else {
        unreachable!()
    };
    let decided = decided(alloc, world, aggregate, command, args)?;
    reserve(alloc, world, actor, aggregate, decided)
}

/// The decision of a command for the aggregate's state.
fn decided(
    alloc: Global,
    world: &World,
    aggregate: &Name,
    command: &Command,
    args: &Payload,
) -> Result<Decided, NoMemory>
    requires { IsTrue (command_fits (length world.now.tables.setting.sheet.aggregate.fields) command.now) }
    ensures value { IfOk result (λ decided. decided ≡ decision command.now args.now (aggregate_state (state_of world.now.tables) aggregate.now)) }
    ensures fits { IfOk result DecidedFits }
{
    let sheet = world.sheet();
    let row = aggregate_row(
        alloc,
        world.log(),
        sheet.chain(),
        sheet.aggregate(),
        aggregate,
    )?;
    decide(alloc, command, args, &row)
}

fn reserve(
    alloc: Global,
    world: &World,
    actor: u32,
    aggregate: &Name,
    decided: Decided,
) -> Result<Move, NoMemory>
    requires actor { actor < length world.now.tables.setting.actors }
    requires fit { DecidedFits decided }
    ensures { IfOk result (IsMove world.now.tables (sent_decided (state_of world.now.tables) actor aggregate.now decided)) }
{
    world.facts();
    match decided {
        Decided::Guard(guard) => Ok(Move::without_edits(alloc, Reply::GuardFails { guard })),
        Decided::Events(events) => reserve_cells(alloc, world, actor, aggregate, events),
    }
}

fn reserve_cells(
    alloc: Global,
    world: &World,
    actor: u32,
    aggregate: &Name,
    events: Events,
) -> Result<Move, NoMemory>
    requires actor { actor < length world.now.tables.setting.actors }
    requires fit { EventsFit events }
    ensures { IfOk result (IsMove world.now.tables (sent_events (state_of world.now.tables) actor aggregate.now events)) }
{
    let count = events.parts().len() as u32;
    let log = world.log();
    let name = world.actor_name(actor);
    let reserved = match log.reserve(alloc, aggregate, name, count, world.clock()) {
        Ok(puts) => puts,
        Err(LogFault::LogFull) => return Ok(Move::without_edits(alloc, Reply::LogFull)),
        Err(_) => return Err(NoMemory),
    };
    let first = log.cells().len() as u32;
    let first_seq = first_number(reserved.parts());
    let desk = world.desk(actor);
    let puts = release(alloc, log.cells(), &desk.reservation, reserved)?;
    let reservation = Reservation {
        first,
        first_seq,
        records: records_of(alloc, aggregate, first_seq, events)?,
    };
    let desk = desk.with_reservation(alloc, Some(reservation))?;
    let reply = Reply::Reserved {
        cell: first,
        count,
        first: first_seq,
    };
    cells_and_desk(alloc, puts, actor, desk, reply)
}

/// The first number for which the first put reserves its cell.
fn first_number(puts: &[CellPut]) -> u32
    ensures { result ≡ puts_number puts.now }
{
    let [first, ..] = puts else {
        return 0;
    };
    match &first.cell {
        Cell::Reserved { first_seq, .. } => *first_seq,
        Cell::Void | Cell::Event(_) => 0,
    }
}

/// The events as records of an aggregate, numbered from `first` on.
fn records_of(
    alloc: Global,
    aggregate: &Name,
    first: u32,
    events: Events,
) -> Result<Records, NoMemory>
    requires { first + length events < 2 ^ 32 }
    ensures { IfOk result (λ records. records ≡ as_records aggregate.now first events) }
{
    let mut records = Vec::with_capacity(alloc, events.parts().len())?;
    let mut seq = first;
    for event in events.into_parts() {
        let Event {
            kind,
            revision,
            payload,
        } = event;
        records.push(Record {
            aggregate: aggregate.copy(alloc)?,
            seq,
            kind,
            revision,
            payload,
        })?;
        seq += 1;
    }
    Ok(Records::of(records))
}
