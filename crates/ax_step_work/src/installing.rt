ghost use Rattle.std.specs.Prelude.{◌≡◌, ◌≤◌, ◌+◌, ◌∷◌, [], ◌++◌, length, IfOk, OnOk};
ghost use Rattle.std.specs.List.{AllByRecursion};
ghost use Rattle.ax_rules.specs.Expr.{Row};
ghost use Rattle.ax_step_work.specs.Installing.{HasOneRow, IsSingle, IsStale, entries_by, entries_in, install_move, row_edits, share_items, stale_reply, stored};
ghost use Rattle.ax_state.specs.Batches.{batch_of};

use crate::tally::item_count;
use ax_basis::{Basis, Results, RowList, Share, ShareResult};
use ax_claims::{Refused, Rows};
use ax_journal::Reply;
use ax_projections::Positioned;
use ax_rules::Row;
use ax_values::{Duplicate, NoMemory};
use ax_world::{Desk, Edit, Edits, Move};
use std::alloc::Global;

/// The rows with the batch's token, or the reply that the batch's row is gone or under another fence.
pub(crate) fn store_batch(
    alloc: Global,
    rows: &Rows,
    now: u64,
    basis: &Basis,
) -> Result<Result<Rows, Reply>, NoMemory>
    ensures { IfOk result (λ made. made ≡ stored now (batch_of basis.now) rows.now) }
{
    let mut rows = rows.copy(alloc)?;
    match rows.store(basis.segment, basis.fence, basis.new.copy(alloc)?, now) {
        Ok(()) => Ok(Ok(rows)),
        Err((refused, _token)) => Ok(Err(stale_reply(refused))),
    }
}

fn stale_reply(refused: Refused) -> Reply
    requires { IsStale refused }
    ensures { result ≡ stale_reply refused }
{
    match refused {
        Refused::Stale { held, found } => Reply::Stale { held, found },
        Refused::NoSegment => unreachable!(),
        Refused::Claimed { .. } => unreachable!(),
        Refused::NotHeld => unreachable!(),
        Refused::MaskFull => unreachable!(),
        Refused::Alone => unreachable!(),
    }
}

/// Puts the rows after the batch, which the results have, the token rows, and the desk.
pub(crate) fn install(
    alloc: Global,
    actor: u32,
    basis: &Basis,
    results: Results,
    rows: Rows,
    desk: Desk,
) -> Result<Move, NoMemory>
    requires single { AllByRecursion IsSingle basis.now.shares }
    requires few { length (share_items basis.now.shares) ≤ 1600000 }
    requires paired { length results ≡ length basis.now.shares }
    requires row { AllByRecursion HasOneRow results }
    ensures { IfOk result (λ made. made ≡ install_move basis.now (entries_in basis.now.shares results) rows actor desk) }
{
    let processor = basis.processor;
    let shares = basis.shares.parts();
    let applied = item_count(shares);
    let mut edits = Vec::with_capacity(alloc, shares.len() + 2)?;
    push_rows(alloc, &mut edits, processor, shares, results)?;
    edits.push(Edit::SetRows { processor, rows })?;
    edits.push(Edit::SetDesk { actor, desk })?;
    let reply = Reply::Committed {
        applied,
        parked: 0,
        dropped: 0,
    };
    Ok(Move::of(alloc, Edits::of(edits), reply))
}

/// Adds an edit for the row of each share.
fn push_rows(
    alloc: Global,
    edits: &mut Vec<Edit>,
    processor: u32,
    shares: &[Share],
    results: Results,
) -> Result<(), NoMemory>
    requires single { AllByRecursion IsSingle shares.now }
    requires paired { length results ≡ length shares.now }
    requires row { AllByRecursion HasOneRow results }
    ensures { OnOk result (edits.new.items ≡ edits.old.items ++ row_edits processor (entries_in shares.now results)) }
{
    let mut place = 0;
    for made in results.into_parts() {
        push_row(alloc, edits, processor, &shares[place], made)?;
        place += 1;
    }
    Ok(())
}

/// Adds an edit for the row of a share, which is moved into it.
fn push_row(
    alloc: Global,
    edits: &mut Vec<Edit>,
    processor: u32,
    share: &Share,
    made: ShareResult,
) -> Result<(), NoMemory>
    requires single { IsSingle share.now }
    requires row { HasOneRow made }
    ensures { OnOk result (edits.new.items ≡ edits.old.items ++ row_edits processor (entries_by share.now.members (length share.now.items) made.rows)) }
{
    let member = &share.members.parts()[0];
    let position = member.seen.position + share.items.parts().len() as u32;
    let aggregate = member.aggregate.copy(alloc)?;
    let ShareResult { outcomes: _, rows } = made;
    let row = only_row(rows);
    let value = Positioned { position, row };
    edits.push(Edit::PutRow {
        processor,
        aggregate,
        value,
    })?;
    Ok(())
}

/// The row of a list that has one.
fn only_row(rows: RowList) -> Row
    requires { (row : Row) × (rows ≡ row ∷ []) }
    ensures { rows ≡ result ∷ [] }
{
    match rows.into_parts().pop() {
        Some(row) => row,
        None => unreachable!(),
    }
}
