ghost use Rattle.std.specs.Prelude.{ℕ, ◌≡◌, ◌+◌, ◌^◌, ◌<◌, [], ◌∷◌, ◌++◌, length, map, vec_len, vec_capacity, IfOk, IfSome, OnOk, OnErr};
ghost use Rattle.ax_script.specs.Queues.{queue_of};
ghost use Rattle.ax_state.specs.Setting.{name_at};
ghost use Rattle.ax_world.specs.WorldTables.{starting, state_of};
ghost use Rattle.ax_machine.specs.Run.{IsKnown, IsPerformed, step, attempt, entry_of, setting_of, run_of, end_of, first_left, left_after, orders_by};
ghost use Rattle.ax_machine.specs.Machines.{ArePerformed, IsMachine};
ghost use Rattle.ax_machine.specs.Promises.{IsRightRun};

use crate::steps::step;
use crate::turns::{Queue, count_left, first_order, next_order, queues_of};
use ax_journal::{Entry, Lines, Order, Reply};
use ax_script::{Plan, PlanParts, Schedule};
use ax_values::{Duplicate, NoMemory};
use ax_world::{Move, World};
use std::alloc::Global;
use std::marker::Model;
use std::snapshot::Snapshot;

/// A plan, the journal of what was performed of it, the world that this led to, and the orders that are left.
///
/// The journal is the run of the plan from its first state along the actors that the journal shows, and the world is the last
/// state of that run. Each actor's entries are, in order, the first of its orders, and what it has left is the rest.
/// The plan stands here for contracts alone: its orders move from what is left into the journal.
#[derive(Drop)]
pub struct Machine {
    plan: Snapshot<Plan>,
    world: World,
    journal: Vec<Entry>,
    left: Vec<Queue>,
}

impl Model for Machine {
    ghost use Rattle.std.specs.Prelude.{◌+◌, ◌≤◌, length, vec_len, vec_capacity};
    ghost use Rattle.std.specs.Coded.{codes};
    ghost use Rattle.ax_rules.specs.ExprCode.{coded_expr};
    ghost use Rattle.ax_tokens.specs.TokenCode.{coded_token};
    ghost use Rattle.ax_script.specs.Queues.{all_of};
    ghost use Rattle.ax_machine.specs.Machines.{MachineView, IsMachine};

    ghost Value = { MachineView };

    ghost coded = { Prim.hlevel (codes, coded_expr, coded_token) };

    ghost view = { λ m. record { plan = m.plan.value; journal = m.journal.items; tables = m.world.tables; left = m.left.items } };

    // The journal has room for an entry of each order that is left.
    ghost invariant = { λ m. IsMachine (record { plan = m.plan.value; journal = m.journal.items; tables = m.world.tables; left = m.left.items })
        × (vec_len m.journal + length (all_of m.left.items) ≤ vec_capacity m.journal) };
}

/// A machine, and the schedule of its plan.
struct Opened {
    machine: Machine,
    schedule: Schedule,
}

impl Machine {
    /// The plan with its first world: nothing is performed, and each actor has all of its orders left.
    ///
    /// The plan's schedule is dropped: `perform` goes along any schedule, and `run` along the plan's own.
    pub fn open(alloc: Global, plan: Plan) -> Result<Machine, NoMemory>
        requires { ArePerformed plan.orders }
        ensures plan { IfOk result (λ machine. machine.plan ≡ plan) }
        ensures journal { IfOk result (λ machine. machine.journal ≡ []) }
        ensures tables { IfOk result (λ machine. machine.tables ≡ starting (setting_of plan)) }
        ensures left { IfOk result (λ machine. machine.left ≡ plan.orders) }
    {
        let Opened {
            machine,
            schedule: _,
        } = open_scheduled(alloc, plan)?;
        Ok(machine)
    }

    /// Says to a proof what the type keeps. It does nothing.
    pub fn facts(&self)
        ensures { IsMachine self.now }
    {
        let _ = &self.plan;
    }

    /// How many orders an actor has left: none, where no actor has the number.
    pub fn left(&self, actor: u32) -> u32
        ensures { result ≡ length (queue_of self.now.left actor) }
    {
        count_left(&self.left, actor) as u32
    }

    /// What was performed, in order.
    pub fn journal(&self) -> &[Entry]
        ensures value { result.now ≡ self.now.journal }
        ensures machine { IsMachine self.now }
    {
        self.journal.as_slice()
    }

    /// What it led to.
    pub fn world(&self) -> &World
        ensures { result.now.tables ≡ self.now.tables }
    {
        &self.world
    }

    /// The journal and the world, given away.
    pub fn into_parts(self) -> (Vec<Entry>, World)
        ensures journal { result.0.items ≡ self.journal }
        ensures world { result.1.tables ≡ self.tables }
    {
        let Machine {
            plan: _,
            world,
            journal,
            left: _,
        } = self;
        (journal, world)
    }

    /// Performs the next order of an actor, which moves into the journal.
    ///
    /// The actor has one order less left, and the others as many as before. Where memory is wanting, all is as it was.
    pub fn perform(&mut self, actor: u32) -> Result<(), NoMemory>
        requires { 0 < length (queue_of self.old.left actor) }
        ensures plan { self.new.plan ≡ self.old.plan }
        ensures entry { OnOk result (IfSome (first_left self.old.left actor)
            (λ order. self.new.journal ≡ self.old.journal ++ entry_of (state_of self.old.tables) (attempt actor order) ∷ [])) }
        ensures state { OnOk result (IfSome (first_left self.old.left actor)
            (λ order. state_of self.new.tables ≡ (step (state_of self.old.tables) actor order).state)) }
        ensures left { OnOk result (self.new.left ≡ left_after self.old.left actor) }
        ensures stays { OnErr result (self.new ≡ self.old) }
    {
        perform_next(&mut self.world, &mut self.journal, &mut self.left, actor)?;
        Ok(())
    }
}

/// The machine of a plan of which nothing is performed, and the plan's schedule.
fn open_scheduled(alloc: Global, plan: Plan) -> Result<Opened, NoMemory>
    requires { ArePerformed plan.orders }
    ensures plan { IfOk result (λ opened. opened.machine.plan ≡ plan) }
    ensures journal { IfOk result (λ opened. opened.machine.journal ≡ []) }
    ensures tables { IfOk result (λ opened. opened.machine.tables ≡ starting (setting_of plan)) }
    ensures left { IfOk result (λ opened. opened.machine.left ≡ plan.orders) }
    ensures schedule { IfOk result (λ opened. opened.schedule ≡ plan.schedule) }
{
    // what the sheet says of its commands: that they fit its fields
    let _ = plan.sheet().commands();
    let kept = Snapshot::of(&plan);
    let PlanParts {
        sheet,
        processors,
        actors,
        orders,
        schedule,
    } = plan.into_parts();
    let journal = Vec::with_capacity(alloc, schedule.parts().len())?;
    let left = queues_of(alloc, orders)?;
    let world = World::start(alloc, sheet, processors, actors)?;
    let machine = Machine {
        plan: kept,
        world,
        journal,
        left,
    };
    Ok(Opened { machine, schedule })
}

/// Performs the next order of an actor on the parts of a machine. Where memory is wanting, they are as they were.
fn perform_next(
    world: &mut World,
    journal: &mut Vec<Entry>,
    left: &mut Vec<Queue>,
    actor: u32,
) -> Result<(), NoMemory>
    requires left { 0 < length (queue_of left.old.items actor) }
    requires known { IfSome (first_left left.old.items actor) (IsKnown world.old.tables.setting) }
    requires performed { IfSome (first_left left.old.items actor) IsPerformed }
    requires actor { actor < length world.old.tables.setting.actors }
    requires fence { world.old.tables.fence < 2 ^ 63 }
    requires room { vec_len journal.old < vec_capacity journal.old }
    ensures entry { OnOk result (IfSome (first_left left.old.items actor)
        (λ order. journal.new.items ≡ journal.old.items ++ entry_of (state_of world.old.tables) (attempt actor order) ∷ [])) }
    ensures state { OnOk result (IfSome (first_left left.old.items actor)
        (λ order. state_of world.new.tables ≡ (step (state_of world.old.tables) actor order).state)) }
    ensures left { OnOk result (left.new.items ≡ left_after left.old.items actor) }
    ensures world_stays { OnErr result (world.new.tables ≡ world.old.tables) }
    ensures journal_stays { OnErr result (journal.new ≡ journal.old) }
    ensures left_stays { OnErr result (left.new.items ≡ left.old.items) }
    ensures len { OnOk result (vec_len journal.new ≡ vec_len journal.old + 1) }
    ensures capacity { OnOk result (vec_capacity journal.new ≡ vec_capacity journal.old) }
{
    let alloc = *journal.allocator();
    let name = world.actor_name(actor).copy(alloc)?;
    let (reply, report) = make(alloc, world, actor, first_order(left, actor))?;
    let Some(order) = next_order(left, actor) else {
        unreachable!()
    };
    journal.push_reserved(Entry {
        actor: name,
        order,
        reply,
        report,
    });
    Ok(())
}

/// Makes the step of an order of an actor, and returns its reply and its report. Where memory is wanting, the world stays.
fn make(
    alloc: Global,
    world: &mut World,
    actor: u32,
    order: &Order,
) -> Result<(Reply, Lines), NoMemory>
    requires known { IsKnown world.old.tables.setting order.now }
    requires performed { IsPerformed order.now }
    requires actor { actor < length world.old.tables.setting.actors }
    requires fence { world.old.tables.fence < 2 ^ 63 }
    ensures reply { IfOk result (λ made. made.0 ≡ (step (state_of world.old.tables) actor order.now).reply) }
    ensures report { IfOk result (λ made. made.1 ≡ (step (state_of world.old.tables) actor order.now).report) }
    ensures state { OnOk result (state_of world.new.tables ≡ (step (state_of world.old.tables) actor order.now).state) }
    ensures stays { OnErr result (world.new.tables ≡ world.old.tables) }
{
    let Move {
        edits,
        reply,
        report,
    } = step(alloc, world, actor, order)?;
    world.prepare(&edits)?;
    world.install(edits);
    Ok((reply, report))
}

/// Performs the whole plan from its first state: along the schedule, each actor's orders in its own order.
///
/// After each number of orders, every row that a projection shows is the fold, each item once, of a prefix of its aggregate's
/// items in order; at the head the rows are those that the log alone gives; and each report of rows in the journal has the
/// lines of the state that stood before it (`right`).
pub fn run(alloc: Global, plan: Plan) -> Result<Machine, NoMemory>
    requires { ArePerformed plan.orders }
    ensures plan { IfOk result (λ machine. machine.plan ≡ plan) }
    ensures journal { IfOk result (λ machine. machine.journal ≡ run_of plan) }
    ensures state { IfOk result (λ machine. state_of machine.tables ≡ end_of plan) }
    // One entry for each place of the schedule, each actor's orders in their order.
    ensures places { IfOk result (λ machine. map (λ entry. entry.actor) machine.journal ≡ map (name_at plan.actors) plan.schedule) }
    ensures orders { IfOk result (λ machine. (actor : ℕ) → actor < length plan.actors → orders_by (name_at plan.actors actor) machine.journal ≡ queue_of plan.orders actor) }
    ensures right { IfOk result (λ _. IsRightRun plan) }
{
    let Opened {
        mut machine,
        schedule,
    } = open_scheduled(alloc, plan)?;
    for actor in schedule.parts() {
        machine.facts();
        machine.perform(*actor)?;
    }
    machine.facts();
    Ok(machine)
}
