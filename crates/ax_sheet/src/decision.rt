ghost use Rattle.std.specs.Prelude.{◌≡◌, ◌<◌, ◌^◌, ◌&&◌, length, map, IsTrue, IfOk};
ghost use Rattle.std.specs.List.{list_all};
ghost use Rattle.ax_values.specs.Words.{same_name};
ghost use Rattle.ax_rules.specs.Guards.{guard_fits, guard_holds};
ghost use Rattle.ax_upcast.specs.Upcast.{event_of_template};
ghost use Rattle.ax_sheet_parts.specs.Sheet.{is_held, first_failing, fits, fits_params, is_kind};
ghost use Rattle.ax_sheet.specs.Decision.{decision};

use crate::{Command, Event, Param};
use ax_rules::{Guard, Row};
use ax_sheet_parts::is_kind;
use ax_upcast::Template;
use ax_values::{Field, ListOf, NoMemory, Payload};
use std::alloc::Global;

pub type Events = ListOf<Event>;

/// What a command makes of an aggregate's row.
#[derive(Drop)]
pub enum Decided {
    /// The number, counted from 0, of the first guard that is false or has no value.
    Guard(u32),
    /// The events, where each guard is true.
    Events(Events),
}

/// The decision of a command with these arguments for an aggregate's row.
pub fn decide(
    alloc: Global,
    command: &Command,
    args: &Payload,
    row: &Row,
) -> Result<Decided, NoMemory>
    requires places { IsTrue (list_all (guard_fits (length row.now)) command.now.guards) }
    ensures value { IfOk result (λ decided. decided ≡ decision command.now args.now row.now) }
{
    match first_failing(command.guards(), args, row.parts()) {
        Some(number) => Ok(Decided::Guard(number)),
        None => Ok(Decided::Events(events_of(alloc, command.events(), args)?)),
    }
}

fn first_failing(guards: &[Guard], args: &Payload, row: &[i64]) -> Option<u32>
    requires count { length guards.now < 2 ^ 32 }
    requires places { IsTrue (list_all (guard_fits (length row.now)) guards.now) }
    ensures { result ≡ first_failing 0 guards.now row.now args.now }
{
    for (number, guard) in guards.iter().enumerate() {
        if !is_held(guard, args, row) {
            return Some(number as u32);
        }
    }
    None
}

fn is_held(guard: &Guard, args: &Payload, row: &[i64]) -> bool
    requires { IsTrue (guard_fits (length row.now) guard.now) }
    ensures { result ≡ is_held (guard_holds guard.now row.now args.now) }
{
    guard.holds(row, args).unwrap_or(false)
}

fn events_of(alloc: Global, templates: &[Template], args: &Payload) -> Result<Events, NoMemory>
    ensures { IfOk result (λ events. events ≡ map (event_of_template args.now) templates.now) }
{
    let mut events = Events::new(alloc);
    for template in templates {
        events.push(template.event(alloc, args)?)?;
    }
    Ok(events)
}

/// Whether the arguments are exactly the command's parameters with their kinds.
#[tactic(auto, using(crate::proofs::Fits::unlike))]
pub fn fits_command(command: &Command, args: &Payload) -> bool
    ensures value { result ≡ fits command.now args.now }
{
    let (params, fields) = (command.params(), args.parts());
    params.len() == fields.len() && all_fit(params, fields)
}

fn all_fit(params: &[Param], fields: &[Field]) -> bool
    requires { length params.now ≡ length fields.now }
    ensures { result ≡ fits_params params.now fields.now }
{
    for place in 0..params.len() {
        if !is_given(&params[place], &fields[place]) {
            return false;
        }
    }
    true
}

fn is_given(param: &Param, field: &Field) -> bool
    ensures { result ≡ (same_name param.now.name field.now.name && is_kind param.now.kind field.now.value) }
{
    param.name.same(&field.name) && is_kind(param.kind, &field.value)
}
