ghost use Rattle.std.specs.Prelude.{◌≡◌, ◌<◌, ◌∷◌, [], length, Some, None, Ok, Err, slice_get, IfOk};
ghost use Rattle.ax_rules.specs.Why.{why_text};
ghost use Rattle.ax_basis.specs.Outcomes.{results_of};
ghost use Rattle.ax_state.specs.Setting.{projection_at};
ghost use Rattle.ax_state.specs.State.{desk_at};
ghost use Rattle.ax_state.specs.Batches.{batch_of};
ghost use Rattle.ax_world.specs.WorldTables.{state_of, rows_at};
ghost use Rattle.ax_world.specs.Moves.{IsMove};
ghost use Rattle.ax_world.specs.declared.edit.Edit.{Edit};
ghost use Rattle.ax_journal.specs.declared.reply.Reply.{Reply};
ghost use Rattle.ax_step_work.specs.Working.{commit, commit_batch, unapplied_text};
ghost use Rattle.ax_step_work.specs.Installing.{IsCleared, stored};

use crate::installing::{install, store_batch};
use crate::tally::first_unapplied;
use ax_basis::{Basis, BasisItem, Handled, Outcome, Results, results_of};
use ax_claims::Rows;
use ax_journal::Reply;
use ax_rules::Why;
use ax_values::{Duplicate, Line, NoMemory};
use ax_world::{Desk, Edit, Edits, Move, World};
use std::alloc::Global;

/// Folds the batch of the actor's desk into the rows of its processor.
pub(crate) fn commit(alloc: Global, world: &World, actor: u32) -> Result<Move, NoMemory>
    requires actor { actor < length world.now.tables.setting.actors }
    ensures { IfOk result (IsMove world.now.tables (commit (state_of world.now.tables) actor)) }
{
    world.facts();
    match &world.desk(actor).batch {
        None => Ok(Move::without_edits(alloc, Reply::NoBatch)),
        Some(basis) => commit_basis(alloc, world, actor, basis),
    }
}

/// Handles the batch of the actor's desk where it stands, and commits it.
fn commit_basis(alloc: Global, world: &World, actor: u32, basis: &Basis) -> Result<Move, NoMemory>
    requires actor { actor < length world.now.tables.setting.actors }
    requires batch { slice_get world.now.tables.bases actor ≡ Some (Some basis.now) }
    ensures { IfOk result (IsMove world.now.tables (commit (state_of world.now.tables) actor)) }
{
    world.facts();
    let _ = &world.desk(actor).batch;
    let rules = world.projection(basis.processor);
    let results = results_of(alloc, rules, basis)?;
    commit_results(alloc, world, actor, basis, results)
}

/// What the commit of a batch makes of the world: the batch of the actor's desk, which was handled by the rules of its
/// processor.
///
/// Stale comes where the batch's row is gone or has another fence: the batch is given up. NotApplied, with the item and the
/// cause, comes for the first item that does not apply, by sequence: this changes nothing. Else the reply is Committed, with
/// the number of items: the rows are those after the items, the segment's token is the batch's, at the clock's time, and the
/// desk holds no batch.
pub fn commit_with(
    alloc: Global,
    world: &World,
    actor: u32,
    handled: Handled,
) -> Result<Move, NoMemory>
    requires actor { actor < length world.now.tables.setting.actors }
    requires batch { slice_get world.now.tables.bases actor ≡ Some (Some handled.basis) }
    requires rules { handled.rules ≡ projection_at world.now.tables.setting handled.basis.processor }
    ensures { IfOk result (IsMove world.now.tables (commit (state_of world.now.tables) actor)) }
{
    let (basis, rules, results) = handled.into_parts();
    drop(rules);
    let made = commit_results(alloc, world, actor, &basis, results);
    drop(basis);
    made
}

/// What the commit of the batch of the actor's desk makes of the world: these results are what the rules of its processor
/// make of it.
fn commit_results(
    alloc: Global,
    world: &World,
    actor: u32,
    basis: &Basis,
    results: Results,
) -> Result<Move, NoMemory>
    requires actor { actor < length world.now.tables.setting.actors }
    requires batch { slice_get world.now.tables.bases actor ≡ Some (Some basis.now) }
    requires results { results ≡ results_of (projection_at world.now.tables.setting basis.now.processor) basis.now }
    ensures { IfOk result (IsMove world.now.tables (commit (state_of world.now.tables) actor)) }
{
    world.facts();
    let _ = &world.desk(actor).batch;
    let desk = without_batch(alloc, world, actor)?;
    commit_over(alloc, world, actor, basis, results, desk)
}

/// The desk of the actor without its batch.
fn without_batch(alloc: Global, world: &World, actor: u32) -> Result<Desk, NoMemory>
    requires { actor < length world.now.tables.desks }
    ensures { IfOk result (IsCleared world.now.tables actor) }
{
    world.desk(actor).with_batch(alloc, None)
}

fn commit_over(
    alloc: Global,
    world: &World,
    actor: u32,
    basis: &Basis,
    results: Results,
    desk: Desk,
) -> Result<Move, NoMemory>
    requires actor { actor < length world.now.tables.desks }
    requires batch { slice_get world.now.tables.bases actor ≡ Some (Some basis.now) }
    requires mine { (desk_at (state_of world.now.tables) actor).batch ≡ Some (batch_of basis.now) }
    requires results { results ≡ results_of (projection_at world.now.tables.setting basis.now.processor) basis.now }
    requires desk { IsCleared world.now.tables actor desk }
    ensures { IfOk result (IsMove world.now.tables (commit_batch (state_of world.now.tables) actor (Some (batch_of basis.now)))) }
{
    let now = world.clock();
    match store_batch(alloc, world.rows(basis.processor), now, basis)? {
        Ok(rows) => commit_rows(alloc, world, actor, basis, results, rows, desk),
        Err(reply) => {
            drop(results);
            give_up(alloc, actor, desk, reply)
        }
    }
}

/// Applies a batch whose row is under its fence. The rows have the batch's token already.
fn commit_rows(
    alloc: Global,
    world: &World,
    actor: u32,
    basis: &Basis,
    results: Results,
    rows: Rows,
    desk: Desk,
) -> Result<Move, NoMemory>
    requires actor { actor < length world.now.tables.desks }
    requires batch { slice_get world.now.tables.bases actor ≡ Some (Some basis.now) }
    requires mine { (desk_at (state_of world.now.tables) actor).batch ≡ Some (batch_of basis.now) }
    requires results { results ≡ results_of (projection_at world.now.tables.setting basis.now.processor) basis.now }
    requires rows { Ok rows ≡ stored world.now.tables.clock (batch_of basis.now) (rows_at world.now.tables basis.now.processor) }
    requires desk { IsCleared world.now.tables actor desk }
    ensures { IfOk result (IsMove world.now.tables (commit_batch (state_of world.now.tables) actor (Some (batch_of basis.now)))) }
{
    world.facts();
    let _ = world.sheet().chain().parts();
    let _ = world.table(basis.processor).len();
    match first_unapplied(basis.shares.parts(), results.parts()) {
        Some((item, outcome)) => {
            drop(rows);
            drop(desk);
            let made = not_applied(alloc, item, outcome);
            drop(results);
            made
        }
        None => install(alloc, actor, basis, results, rows, desk),
    }
}

/// The batch is dropped.
fn give_up(alloc: Global, actor: u32, desk: Desk, reply: Reply) -> Result<Move, NoMemory>
    ensures { IfOk result (λ made. made ≡ record { edits = Edit.SetDesk actor desk ∷ []; reply = reply; report = [] }) }
{
    let mut edits = Edits::new(alloc);
    match edits.push(Edit::SetDesk { actor, desk }) {
        Ok(()) => Ok(Move::of(alloc, edits, reply)),
        Err(error) => {
            drop(reply);
            Err(error)
        }
    }
}

/// The reply that an item does not apply. Nothing changes, and the batch stays.
fn not_applied(alloc: Global, item: &BasisItem, outcome: &Outcome) -> Result<Move, NoMemory>
    ensures { IfOk result (λ made. made ≡ record { edits = []; reply = Reply.NotApplied item.now.item.name (unapplied_text outcome.now); report = [] }) }
{
    let item = item.item.name.copy(alloc)?;
    let why = unapplied_text(alloc, outcome)?;
    Ok(Move::without_edits(alloc, Reply::NotApplied { item, why }))
}

fn unapplied_text(alloc: Global, outcome: &Outcome) -> Result<Line, NoMemory>
    ensures { IfOk result (λ text. text ≡ unapplied_text outcome.now) }
{
    match outcome {
        Outcome::Applied => Ok(Line::new(alloc)),
        Outcome::Parked(why) => why_text(alloc, why),
        Outcome::Dropped(why) => why_text(alloc, why),
    }
}

fn why_text(alloc: Global, why: &Why) -> Result<Line, NoMemory>
    ensures { IfOk result (λ text. text ≡ why_text why.now) }
{
    let mut text = Vec::new(alloc);
    why.write(&mut text)?;
    Ok(Line::of(text))
}
