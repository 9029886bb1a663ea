ghost use Rattle.std.specs.Prelude.{◌≡◌, ◌<◌, ◌^◌, length};

use crate::{Param, Params};
use ax_rules::{Guard, Guards, Rules, SagaRules};
use ax_upcast::{Template, Templates};
use ax_values::{Duplicate, ListOf, Name, NoMemory};
use std::alloc::Global;
use std::marker::Model;

/// What a command takes, asks of the aggregate's row, and records. It has fewer than 2^32 guards.
#[derive(Drop)]
pub struct Command {
    params: Params,
    guards: Guards,
    events: Templates,
}

impl Model for Command {
    ghost use Rattle.std.specs.Prelude.{◌<◌, ◌^◌, length};
    ghost use Rattle.std.specs.Coded.{codes};
    ghost use Rattle.ax_rules.specs.ExprCode.{coded_expr};
    ghost use Rattle.ax_sheet_parts.specs.Commands.{Command as Taken};

    ghost Value = { Taken };

    ghost coded = { Prim.hlevel (codes, coded_expr) };

    ghost view = { λ command. record { params = command.params; guards = command.guards; events = command.events } };

    ghost invariant = { λ command. length command.guards < 2 ^ 32 };
}

impl Command {
    /// The command of these parts.
    pub fn of(params: Params, guards: Guards, events: Templates) -> Command
        requires { length guards < 2 ^ 32 }
        ensures value { result ≡ record { params = params; guards = guards; events = events } }
    {
        Command {
            params,
            guards,
            events,
        }
    }

    /// The parameters, rising by name in a sheet.
    pub fn params(&self) -> &[Param]
        ensures value { result.now ≡ self.now.params }
    {
        self.params.parts()
    }

    /// What is asked of the aggregate's row.
    pub fn guards(&self) -> &[Guard]
        ensures value { result.now ≡ self.now.guards }
        ensures few { length self.now.guards < 2 ^ 32 }
    {
        self.guards.parts()
    }

    /// What is recorded.
    pub fn events(&self) -> &[Template]
        ensures value { result.now ≡ self.now.events }
    {
        self.events.parts()
    }
}

#[derive(Drop)]
pub struct NamedCommand {
    pub name: Name,
    pub command: Command,
}

pub type Commands = ListOf<NamedCommand>;

/// The rules of a projection.
#[derive(Drop)]
pub struct NamedRules {
    pub name: Name,
    pub rules: Rules,
}

pub type Projections = ListOf<NamedRules>;

#[derive(Drop)]
pub struct NamedSaga {
    pub name: Name,
    pub rules: SagaRules,
}

pub type SagaList = ListOf<NamedSaga>;

/// A processor that a script declares: of a saga or else of a projection, by its name in the sheet, with its number of
/// segments at the start.
#[derive(Drop)]
pub struct Processor {
    pub name: Name,
    pub saga: bool,
    pub segments: u32,
}

pub type Processors = ListOf<Processor>;

impl Duplicate for Command {
    fn copy(&self, alloc: Global) -> Result<Command, NoMemory> {
        Ok(Command {
            params: self.params.copy(alloc)?,
            guards: self.guards.copy(alloc)?,
            events: self.events.copy(alloc)?,
        })
    }
}

impl Duplicate for NamedCommand {
    fn copy(&self, alloc: Global) -> Result<NamedCommand, NoMemory> {
        Ok(NamedCommand {
            name: self.name.copy(alloc)?,
            command: self.command.copy(alloc)?,
        })
    }
}

impl Duplicate for NamedRules {
    fn copy(&self, alloc: Global) -> Result<NamedRules, NoMemory> {
        Ok(NamedRules {
            name: self.name.copy(alloc)?,
            rules: self.rules.copy(alloc)?,
        })
    }
}

impl Duplicate for NamedSaga {
    fn copy(&self, alloc: Global) -> Result<NamedSaga, NoMemory> {
        Ok(NamedSaga {
            name: self.name.copy(alloc)?,
            rules: self.rules.copy(alloc)?,
        })
    }
}

impl Duplicate for Processor {
    fn copy(&self, alloc: Global) -> Result<Processor, NoMemory> {
        Ok(Processor {
            name: self.name.copy(alloc)?,
            saga: self.saga,
            segments: self.segments,
        })
    }
}
