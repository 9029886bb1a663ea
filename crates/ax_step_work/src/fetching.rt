ghost use Rattle.std.specs.Prelude.{◌≡◌, ◌<◌, filter, length, None, Some, IfOk, IsTrue};
ghost use Rattle.ax_log.specs.Log.{events};
ghost use Rattle.ax_state.specs.Batches.{is_fetched};
ghost use Rattle.ax_claims.specs.Rows.{row_at};
ghost use Rattle.ax_state.specs.Setting.{is_projection};
ghost use Rattle.ax_state.specs.State.{desk_at};
ghost use Rattle.ax_world.specs.Holding.{held_fence};
ghost use Rattle.ax_world.specs.WorldTables.{state_of, rows_at};
ghost use Rattle.ax_world.specs.Moves.{IsMove};
ghost use Rattle.ax_tokens.specs.Nodes.{token_of};
ghost use Rattle.ax_step_work.specs.Working.{fetch_at, fetched, fetched_batch};
ghost use Rattle.ax_step_work.specs.Sharing.{read_shares, taken};

use crate::bound::fetched_token;
use crate::gathering::fetched_items;
use crate::sharing::shares_of;
use ax_basis::{Basis, Shares};
use ax_claims::TokenRow;
use ax_journal::Reply;
use ax_segments::Segment;
use ax_tokens::Token;
use ax_values::{Duplicate, NoMemory};
use ax_world::{Edit, Edits, Move, World, held_check, held_fence};
use std::alloc::Global;

/// Puts a batch of at most so many records on the actor's desk.
pub(crate) fn fetch(
    alloc: Global,
    world: &World,
    actor: u32,
    processor: u32,
    segment: Segment,
    most: u32,
) -> Result<Move, NoMemory>
    requires projection { IsTrue (is_projection world.now.tables.setting processor) }
    requires actor { actor < length world.now.tables.setting.actors }
    ensures { IfOk result (IsMove world.now.tables (fetch_at (state_of world.now.tables) actor processor segment most)) }
{
    world.facts();
    let held = held_fence(world.desk(actor).held.parts(), processor, segment);
    let row = world.rows(processor).get(segment);
    if let Some(refusal) = held_check(held, row) {
        return Ok(Move::without_edits(alloc, refusal));
    }
    match row {
        Some(row) => fetch_row(alloc, world, actor, processor, row, most),
        None => Ok(Move::without_edits(alloc, Reply::NoSegment)),
    }
}

/// Puts the batch of a row, whose fence the actor holds, on its desk.
fn fetch_row(
    alloc: Global,
    world: &World,
    actor: u32,
    processor: u32,
    row: &TokenRow,
    most: u32,
) -> Result<Move, NoMemory>
    requires projection { IsTrue (is_projection world.now.tables.setting processor) }
    requires actor { actor < length world.now.tables.setting.actors }
    requires found { row_at row.now.segment (rows_at world.now.tables processor) ≡ Some row.now }
    requires held { held_fence processor row.now.segment (desk_at (state_of world.now.tables) actor).held ≡ Some row.now.fence }
    ensures { IfOk result (IsMove world.now.tables (fetched (state_of world.now.tables) actor (fetched_batch (state_of world.now.tables) processor row.now.segment most row.now))) }
{
    world.facts();
    let cells = world.log().cells();
    let new = fetched_token(alloc, None, row.segment, &row.token, cells, most)?;
    let (shares, records) = gather(alloc, world, processor, row.segment, &row.token, &new)?;
    let old = row.token.copy(alloc)?;
    let basis = Basis {
        processor,
        segment: row.segment,
        fence: row.fence,
        old,
        new,
        keep: true,
        shares,
    };
    let desk = world.desk(actor).with_batch(alloc, Some(basis))?;
    let mut edits = Edits::new(alloc);
    edits.push(Edit::SetDesk { actor, desk })?;
    Ok(Move::of(alloc, edits, Reply::Fetched { records }))
}

/// The items that the new token covers and the old one does not, by aggregate, with the rows that are kept, and of how many
/// records they are.
fn gather(
    alloc: Global,
    world: &World,
    processor: u32,
    segment: Segment,
    old: &Token,
    new: &Token,
) -> Result<(Shares, u32), NoMemory>
    requires { IsTrue (is_projection world.now.tables.setting processor) }
    ensures shares { IfOk result (λ made. made.0 ≡ read_shares world.now.tables processor (taken segment (token_of old.now) (token_of new.now))) }
    ensures records { IfOk result (λ made. made.1 ≡ length (filter (is_fetched None segment (token_of old.now) (token_of new.now)) (events world.now.tables.cells))) }
{
    world.facts();
    let chain = world.sheet().chain();
    let cells = world.log().cells();
    let (items, records) = fetched_items(alloc, chain, segment, old, new, cells)?;
    let rules = world.projection(processor);
    let shares = shares_of(alloc, rules, world.table(processor), items)?;
    Ok((shares, records))
}
