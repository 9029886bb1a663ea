ghost use Rattle.std.specs.Prelude.{◌≡◌, [], ◌∷◌, IfOk};
ghost use Rattle.ax_world.specs.declared.edit.Edit.{Edit};

use ax_claims::Rows;
use ax_values::NoMemory;
use ax_world::{Desk, Edit, Edits};
use std::alloc::Global;

/// The edits that put the rows of a processor in.
pub(crate) fn rows_edits(alloc: Global, processor: u32, rows: Rows) -> Result<Edits, NoMemory>
    ensures { IfOk result (λ edits. edits ≡ Edit.SetRows processor rows ∷ []) }
{
    let mut edits = Edits::new(alloc);
    edits.push(Edit::SetRows { processor, rows })?;
    Ok(edits)
}

/// The edits that put the rows of a processor in, of which this is the last fence.
pub(crate) fn fenced_edits(
    alloc: Global,
    processor: u32,
    rows: Rows,
    fence: u64,
) -> Result<Edits, NoMemory>
    ensures { IfOk result (λ edits. edits ≡ Edit.SetRows processor rows ∷ Edit.Fence fence ∷ []) }
{
    let mut edits = rows_edits(alloc, processor, rows)?;
    edits.push(Edit::Fence(fence))?;
    Ok(edits)
}

/// The same, and the actor's desk.
pub(crate) fn desk_edits(
    alloc: Global,
    processor: u32,
    rows: Rows,
    fence: u64,
    actor: u32,
    desk: Desk,
) -> Result<Edits, NoMemory>
    ensures { IfOk result (λ edits. edits ≡ Edit.SetRows processor rows ∷ Edit.Fence fence ∷ Edit.SetDesk actor desk ∷ []) }
{
    let mut edits = fenced_edits(alloc, processor, rows, fence)?;
    edits.push(Edit::SetDesk { actor, desk })?;
    Ok(edits)
}
