ghost use Rattle.std.specs.Prelude.{◌≡◌, ◌+◌, ◌^◌, ◌<◌, [], ◌∷◌, ◌++◌, length, replicate, option_copied, IfOk, OnOk};
ghost use Rattle.ax_script.specs.declared.line.Part.{Part};
ghost use Rattle.ax_script.specs.Judging.{nothing_read};
ghost use Rattle.ax_script.specs.Reading.{with_line, with_steps, plan_of};
ghost use Rattle.ax_script.specs.Stands.{Stands, HasActor};

use crate::judge::{actor_place, count_shows, places_of};
use crate::line::{Part, ScriptLine};
use crate::plan::{OrderLists, Plan, Schedule};
use ax_journal::Orders;
use ax_sheet::{Processor, Processors, Sheet};
use ax_values::{Name, Names, NoMemory};
use std::alloc::Global;
use std::marker::Model;

/// What has been read of a script.
#[derive(Drop)]
pub(crate) struct Reading {
    part: Part,
    sheet: Option<Sheet>,
    processors: Vec<Processor>,
    actors: Vec<Name>,
    orders: Vec<Orders>,
    schedule: Vec<u32>,
    steps: usize,
    shows: usize,
}

impl Model for Reading {
    ghost use Rattle.std.specs.Coded.{codes};
    ghost use Rattle.ax_rules.specs.ExprCode.{coded_expr};
    ghost use Rattle.ax_script.specs.Judging.{Reading as Read};
    ghost use Rattle.ax_script.specs.Stands.{Stands};

    ghost Value = { Read };

    ghost coded = { Prim.hlevel (codes, coded_expr) };

    ghost view = { λ r. record {
      part = r.part;
      sheet = r.sheet;
      processors = r.processors.items;
      actors = r.actors.items;
      orders = r.orders.items;
      schedule = r.schedule.items;
      steps = r.steps;
      shows = r.shows;
    } };

    ghost invariant = { λ r. Stands (record {
      part = r.part;
      sheet = r.sheet;
      processors = r.processors.items;
      actors = r.actors.items;
      orders = r.orders.items;
      schedule = r.schedule.items;
      steps = r.steps;
      shows = r.shows;
    }) };
}

impl Reading {
    /// Nothing has been read.
    pub(crate) fn new(alloc: Global) -> Reading
        ensures { result ≡ nothing_read }
    {
        Reading {
            part: Part::Start,
            sheet: None,
            processors: Vec::new(alloc),
            actors: Vec::new(alloc),
            orders: Vec::new(alloc),
            schedule: Vec::new(alloc),
            steps: 0,
            shows: 0,
        }
    }

    pub(crate) fn part(&self) -> Part
        ensures { result ≡ self.now.part }
    {
        self.part
    }

    pub(crate) fn sheet(&self) -> Option<&Sheet>
        ensures { option_copied result ≡ self.now.sheet }
    {
        self.sheet.as_ref()
    }

    pub(crate) fn processors(&self) -> &[Processor]
        ensures value { result.now ≡ self.now.processors }
        ensures stands { Stands self.now }
    {
        &self.processors
    }

    pub(crate) fn actors(&self) -> &[Name]
        ensures value { result.now ≡ self.now.actors }
        ensures stands { Stands self.now }
    {
        &self.actors
    }

    /// The steps of each actor.
    pub(crate) fn orders(&self) -> &[Orders]
        ensures value { result.now ≡ self.now.orders }
        ensures stands { Stands self.now }
    {
        &self.orders
    }

    /// How many steps there are.
    pub(crate) fn steps(&self) -> usize
        ensures value { result ≡ self.now.steps }
        ensures stands { Stands self.now }
    {
        self.steps
    }

    /// How many show orders there are.
    pub(crate) fn shows(&self) -> usize
        ensures value { result ≡ self.now.shows }
        ensures stands { Stands self.now }
    {
        self.shows
    }

    /// What has been read, with a line that has no fault.
    #[tactic(auto, unfolding(crate::specs::Reading::with_line))]
    pub(crate) fn with_line(self, alloc: Global, line: ScriptLine) -> Result<Reading, NoMemory>
        requires stands { Stands (with_line self line) }
        requires known { HasActor self line }
        ensures { IfOk result (λ next. next ≡ with_line self line) }
    {
        match line {
            ScriptLine::Axon => Ok(self.at(Part::Sheet)),
            ScriptLine::Sheet(sheet) => Ok(self.with_sheet(sheet)),
            ScriptLine::Processor(processor) => self.with_processor(processor),
            ScriptLine::Actor(name) => self.with_actor(alloc, name),
            ScriptLine::Orders => Ok(self.at(Part::Orders)),
            ScriptLine::Order { actor, steps, .. } => {
                let place = actor_place(&self.actors, &actor);
                self.with_steps(place, steps)
            }
            ScriptLine::Schedule(names) => {
                let places = places_of(alloc, &self.actors, names.parts())?;
                Ok(self.with_schedule(places))
            }
        }
    }

    fn at(self, part: Part) -> Reading
        requires { Stands (record self { part = part }) }
        ensures { result ≡ record self { part = part } }
    {
        let mut next = self;
        next.part = part;
        next
    }

    fn with_sheet(self, sheet: Option<Sheet>) -> Reading
        requires { Stands (record self { part = Part.Head; sheet = sheet }) }
        ensures { result ≡ record self { part = Part.Head; sheet = sheet } }
    {
        let mut next = self;
        next.part = Part::Head;
        next.sheet = sheet;
        next
    }

    fn with_processor(self, processor: Processor) -> Result<Reading, NoMemory>
        requires { Stands (record self { processors = self.processors ++ processor ∷ [] }) }
        ensures { IfOk result (λ next. next ≡ record self { processors = self.processors ++ processor ∷ [] }) }
    {
        let mut next = self;
        next.processors.push(processor)?;
        Ok(next)
    }

    fn with_actor(self, alloc: Global, name: Name) -> Result<Reading, NoMemory>
        requires { Stands (record self { actors = self.actors ++ name ∷ []; orders = self.orders ++ [] ∷ [] }) }
        ensures { IfOk result (λ next. next ≡ record self { actors = self.actors ++ name ∷ []; orders = self.orders ++ [] ∷ [] }) }
    {
        let mut next = self;
        next.actors.push(name)?;
        next.orders.push(Orders::new(alloc))?;
        Ok(next)
    }

    fn with_steps(self, place: usize, steps: Orders) -> Result<Reading, NoMemory>
        requires place { place < length self.orders }
        requires stands { Stands (with_steps self place steps) }
        ensures { IfOk result (λ next. next ≡ with_steps self place steps) }
    {
        let mut next = self;
        next.steps += steps.parts().len();
        next.shows += count_shows(steps.parts());
        repeat(&mut next.schedule, place as u32, steps.parts().len())?;
        add_steps(&mut next.orders[place], steps)?;
        Ok(next)
    }

    fn with_schedule(self, places: Vec<u32>) -> Reading
        requires { Stands (record self { part = Part.End; schedule = places.items }) }
        ensures { result ≡ record self { part = Part.End; schedule = places.items } }
    {
        let mut next = self;
        next.part = Part::End;
        next.schedule = places;
        next
    }

    /// The parts of a plan, where the sheet was read.
    pub(crate) fn into_plan(self) -> Option<Plan>
        ensures { result ≡ plan_of self }
    {
        let Reading {
            part: _,
            sheet,
            processors,
            actors,
            orders,
            schedule,
            steps: _,
            shows: _,
        } = self;
        Some(Plan::of(
            sheet?,
            Processors::of(processors),
            Names::of(actors),
            OrderLists::of(orders),
            Schedule::of(schedule),
        ))
    }
}

/// Adds a number as often as `count` says.
fn repeat(numbers: &mut Vec<u32>, number: u32, count: usize) -> Result<(), NoMemory>
    requires { length numbers.old.items + count < 2 ^ 32 }
    ensures { OnOk result (numbers.new.items ≡ numbers.old.items ++ replicate count number) }
{
    let length = numbers.len() + count;
    numbers.resize(length, number)?;
    Ok(())
}

/// Adds the steps at the end of the queue.
fn add_steps(queue: &mut Orders, steps: Orders) -> Result<(), NoMemory>
    ensures { OnOk result (queue.new ≡ queue.old ++ steps) }
{
    for step in steps.into_parts() {
        queue.push(step)?;
    }
    Ok(())
}
