ghost use Rattle.std.specs.Prelude.{◌≡◌, length, IsTrue, IfSome, option_copied};
ghost use Rattle.std.specs.List.{list_all};

use crate::{Declared, Guards, Initial, Sets};
use ax_values::{Duplicate, Given, ListOf, Name, NoMemory};
use std::alloc::Global;
use std::marker::Model;

/// What an item gives: its aggregate's identifier, written `@`, or the value of one of its fields.
#[derive(Drop)]
pub enum Source {
    Aggregate,
    Property(Name),
}

/// A key and the value that is associated under it.
#[derive(Drop)]
pub struct Association {
    pub key: Source,
    pub from: Source,
}

pub type Associations = ListOf<Association>;

/// What a command takes as a parameter.
#[derive(Clone, Copy)]
pub enum ParamKind {
    Int,
    Text,
}

/// A parameter of a command, with the kind that the command gives it, and what it is given.
#[derive(Drop)]
pub struct GivenParam {
    pub name: Name,
    pub kind: ParamKind,
    pub given: Given,
}

pub type GivenParams = ListOf<GivenParam>;

/// A command that is sent to an aggregate, with exactly the command's parameters.
#[derive(Drop)]
pub struct Dispatch {
    pub command: Name,
    pub target: Source,
    pub params: GivenParams,
}

pub type Dispatches = ListOf<Dispatch>;

/// What an item of a kind does to a saga whose property has the value that the item gives.
#[derive(Drop)]
pub struct Handler {
    pub kind: Name,
    /// The association property.
    pub by: Source,
    /// Whether such an item starts a saga.
    pub start: bool,
    pub guards: Guards,
    pub sets: Sets,
    pub associate: Associations,
    pub dissociate: Associations,
    pub send: Dispatches,
    /// Whether such an item ends the saga.
    pub end: bool,
}

pub type Handlers = ListOf<Handler>;

/// Declared fields of a saga, and a handler for each kind of item that it receives. Each field place in a handler is below
/// the number of fields, and no handler has 2^32 guards.
#[derive(Drop)]
pub struct SagaRules {
    fields: Declared,
    handlers: Handlers,
}

impl Model for SagaRules {
    ghost use Rattle.std.specs.Prelude.{length, IsTrue};
    ghost use Rattle.std.specs.List.{list_all};
    ghost use Rattle.std.specs.Coded.{codes};
    ghost use Rattle.ax_rules.specs.ExprCode.{coded_expr};
    ghost use Rattle.ax_rules.specs.SagaRules.{SagaRules as Receiving, handler_fits};

    ghost Value = { Receiving };

    ghost coded = { Prim.hlevel (codes, coded_expr) };

    ghost view = { λ rules. record { fields = rules.fields; handlers = rules.handlers } };

    ghost invariant = { λ rules. IsTrue (list_all (handler_fits (length rules.fields)) rules.handlers) };
}

impl SagaRules {
    ghost use Rattle.ax_rules.specs.SagaRules.{handler_fits, handler_for};

    /// The saga rules over these fields.
    pub fn of(fields: Declared, handlers: Handlers) -> SagaRules
        requires { IsTrue (list_all (handler_fits (length fields)) handlers) }
        ensures { result ≡ record { fields = fields; handlers = handlers } }
    {
        SagaRules { fields, handlers }
    }

    /// The declared fields.
    pub fn fields(&self) -> &[Initial]
        ensures { result.now ≡ self.now.fields }
    {
        self.fields.parts()
    }

    /// The handlers, in order.
    pub fn handlers(&self) -> &[Handler]
        ensures value { result.now ≡ self.now.handlers }
        ensures places { IsTrue (list_all (handler_fits (length self.now.fields)) self.now.handlers) }
    {
        self.handlers.parts()
    }

    /// The first handler for a kind.
    pub fn handler_for(&self, kind: &Name) -> Option<&Handler>
        ensures value { option_copied result ≡ handler_for self.now kind.now }
        ensures places { IfSome result (λ handler. IsTrue (handler_fits (length self.now.fields) handler.now)) }
    {
        self.handlers()
            .iter()
            .find(|handler| handler.kind.same(kind))
    }
}

impl Duplicate for Source {
    fn copy(&self, alloc: Global) -> Result<Source, NoMemory> {
        match self {
            Source::Aggregate => Ok(Source::Aggregate),
            Source::Property(name) => Ok(Source::Property(name.copy(alloc)?)),
        }
    }
}

impl Duplicate for Association {
    fn copy(&self, alloc: Global) -> Result<Association, NoMemory> {
        Ok(Association {
            key: self.key.copy(alloc)?,
            from: self.from.copy(alloc)?,
        })
    }
}

impl Duplicate for GivenParam {
    fn copy(&self, alloc: Global) -> Result<GivenParam, NoMemory> {
        Ok(GivenParam {
            name: self.name.copy(alloc)?,
            kind: self.kind,
            given: self.given.copy(alloc)?,
        })
    }
}

impl Duplicate for Dispatch {
    fn copy(&self, alloc: Global) -> Result<Dispatch, NoMemory> {
        Ok(Dispatch {
            command: self.command.copy(alloc)?,
            target: self.target.copy(alloc)?,
            params: self.params.copy(alloc)?,
        })
    }
}

impl Duplicate for Handler {
    fn copy(&self, alloc: Global) -> Result<Handler, NoMemory> {
        Ok(Handler {
            kind: self.kind.copy(alloc)?,
            by: self.by.copy(alloc)?,
            start: self.start,
            guards: self.guards.copy(alloc)?,
            sets: self.sets.copy(alloc)?,
            associate: self.associate.copy(alloc)?,
            dissociate: self.dissociate.copy(alloc)?,
            send: self.send.copy(alloc)?,
            end: self.end,
        })
    }
}

impl Duplicate for SagaRules {
    fn copy(&self, alloc: Global) -> Result<SagaRules, NoMemory> {
        Ok(SagaRules {
            fields: self.fields.copy(alloc)?,
            handlers: self.handlers.copy(alloc)?,
        })
    }
}
