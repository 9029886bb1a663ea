ghost use Rattle.std.specs.Prelude.{◌≡◌, ◌+◌, ◌<◌, ◌^◌, [], ◌∷◌, ◌++◌, length, slice_get, IfOk, IfSome};
ghost use Rattle.ax_log.specs.Log.{is_reserved, option_is};
ghost use Rattle.ax_world.specs.declared.edit.Edit.{Edit};
ghost use Rattle.ax_step_log.specs.SendParts.{void_puts, release_puts};

use ax_journal::Reply;
use ax_log::{CellPut, CellPuts};
use ax_values::{Cell, NoMemory};
use ax_world::{Desk, Edit, Edits, Move, Reservation};
use std::alloc::Global;

/// The puts that make the reserved cells of a reservation void, and then further ones.
pub(crate) fn release(
    alloc: Global,
    cells: &[Cell],
    reservation: &Option<Reservation>,
    more: CellPuts,
) -> Result<CellPuts, NoMemory>
    requires { IfSome reservation.now (λ r. r.first + length r.records < 2 ^ 32) }
    ensures { IfOk result (λ puts. puts ≡ release_puts cells.now reservation.now ++ more) }
{
    match reservation {
        None => Ok(more),
        Some(old) => {
            let count = old.records.parts().len() as u32;
            let mut puts = void_puts(alloc, cells, old.first, count)?;
            let mut more = more.into_parts();
            puts.append(&mut more)?;
            Ok(CellPuts::of(puts))
        }
    }
}

/// The puts that make the reserved ones of some cells void.
pub(crate) fn void_puts(
    alloc: Global,
    cells: &[Cell],
    first: u32,
    count: u32,
) -> Result<Vec<CellPut>, NoMemory>
    requires { first + count < 2 ^ 32 }
    ensures { IfOk result (λ puts. puts.items ≡ void_puts cells.now first count) }
{
    let mut puts = Vec::new(alloc);
    for place in 0..count {
        let index = first + place;
        if is_reserved_at(cells, index) {
            puts.push(CellPut {
                index,
                cell: Cell::Void,
            })?;
        }
    }
    Ok(puts)
}

fn is_reserved_at(cells: &[Cell], index: u32) -> bool
    ensures { result ≡ option_is is_reserved (slice_get cells.now index) }
{
    match cells.get(index as usize) {
        Some(Cell::Reserved { .. }) => true,
        _ => false,
    }
}

/// The move that puts cells and then sets a desk.
pub(crate) fn cells_and_desk(
    alloc: Global,
    puts: CellPuts,
    actor: u32,
    desk: Desk,
    reply: Reply,
) -> Result<Move, NoMemory>
    ensures { IfOk result (λ answer. answer ≡ record { edits = Edit.Cells puts ∷ Edit.SetDesk actor desk ∷ []; reply = reply; report = [] }) }
{
    let mut edits = Vec::with_capacity(alloc, 2)?;
    edits.push(Edit::Cells(puts))?;
    edits.push(Edit::SetDesk { actor, desk })?;
    Ok(Move::of(alloc, Edits::of(edits), reply))
}
