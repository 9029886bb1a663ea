ghost use Rattle.std.specs.Prelude.{◌≡◌};
ghost use Rattle.ax_script.specs.Plans.{Plan as Planned, IsPlan};

use ax_journal::Orders;
use ax_sheet::{Processors, Sheet};
use ax_values::{ListOf, Name, Names};
use std::marker::Model;

/// The steps of each actor, by its number.
pub type OrderLists = ListOf<Orders>;

/// Numbers of actors, in the order of their steps.
pub type Schedule = ListOf<u32>;

/// What a script declares and orders: a sheet, its processors and the actors, each by its place in the head; the steps
/// of each actor; and the order in which they are performed.
/// There are at most 16 processors of distinct names, each a projection or a saga of the sheet, with 1, 2, 4, 8 or 16
/// segments, and at most 64 actors of distinct names. The steps, at most 100,000 and of them at most 8 show orders, name
/// declared processors of the right kind and commands of the sheet with exactly their parameters; nobody has a step
/// after a stop. Each actor stands in the schedule exactly as often as it has steps.
#[derive(Drop)]
pub struct Plan {
    sheet: Sheet,
    processors: Processors,
    actors: Names,
    orders: OrderLists,
    schedule: Schedule,
}

impl Model for Plan {
    ghost use Rattle.std.specs.Coded.{codes};
    ghost use Rattle.ax_rules.specs.ExprCode.{coded_expr};
    ghost use Rattle.ax_script.specs.Plans.{Plan as Planned, IsPlan};

    ghost Value = { Planned };

    ghost coded = { Prim.hlevel (codes, coded_expr) };

    ghost view = { λ p. record { sheet = p.sheet; processors = p.processors; actors = p.actors; orders = p.orders; schedule = p.schedule } };

    ghost invariant = { λ p. IsPlan (record { sheet = p.sheet; processors = p.processors; actors = p.actors; orders = p.orders; schedule = p.schedule }) };
}

/// What a plan is made of.
#[derive(Drop)]
pub struct PlanParts {
    pub sheet: Sheet,
    pub processors: Processors,
    pub actors: Names,
    pub orders: OrderLists,
    pub schedule: Schedule,
}

impl Plan {
    /// The plan of these parts.
    pub fn of(
        sheet: Sheet,
        processors: Processors,
        actors: Names,
        orders: OrderLists,
        schedule: Schedule,
    ) -> Plan
        requires { IsPlan (record { sheet = sheet; processors = processors; actors = actors; orders = orders; schedule = schedule }) }
        ensures { result ≡ record { sheet = sheet; processors = processors; actors = actors; orders = orders; schedule = schedule } }
    {
        Plan {
            sheet,
            processors,
            actors,
            orders,
            schedule,
        }
    }

    /// The declared application.
    pub fn sheet(&self) -> &Sheet
        ensures value { result.now ≡ self.now.sheet }
        ensures plan { IsPlan self.now }
    {
        &self.sheet
    }

    /// The processors, in the order of the head.
    pub fn processors(&self) -> &Processors
        ensures value { result.now ≡ self.now.processors }
        ensures plan { IsPlan self.now }
    {
        &self.processors
    }

    /// The actors, in the order of the head.
    pub fn actors(&self) -> &Names
        ensures value { result.now ≡ self.now.actors }
        ensures plan { IsPlan self.now }
    {
        &self.actors
    }

    /// The steps of each actor, in order.
    pub fn orders(&self) -> &OrderLists
        ensures value { result.now ≡ self.now.orders }
        ensures plan { IsPlan self.now }
    {
        &self.orders
    }

    /// Whose step is performed when.
    pub fn schedule(&self) -> &Schedule
        ensures value { result.now ≡ self.now.schedule }
        ensures plan { IsPlan self.now }
    {
        &self.schedule
    }

    /// The plan's parts, given away.
    pub fn into_parts(self) -> PlanParts
        ensures value { result ≡ record { sheet = self.sheet; processors = self.processors; actors = self.actors; orders = self.orders; schedule = self.schedule } }
        ensures plan { IsPlan self }
    {
        let Plan {
            sheet,
            processors,
            actors,
            orders,
            schedule,
        } = self;
        PlanParts {
            sheet,
            processors,
            actors,
            orders,
            schedule,
        }
    }
}
