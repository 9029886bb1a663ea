ghost use Rattle.std.specs.Prelude.{◌≡◌, IfOk};
ghost use Rattle.ax_sagas.specs.Sagas.{sending_of, sendings_of};

use crate::args::args_of;
use crate::source::value_of;
use crate::{Sending, Sends};
use ax_rules::Dispatch;
use ax_values::{Duplicate, Item, Name, NoMemory};
use itoa::Buffer;
use std::alloc::Global;

/// The commands of all dispatches, in order. None comes exactly where one of them gives none.
pub(crate) fn sendings_of(
    alloc: Global,
    dispatches: &[Dispatch],
    item: &Item,
) -> Result<Option<Sends>, NoMemory>
    ensures { IfOk result (λ sends. sends ≡ sendings_of item.now dispatches.now) }
{
    let mut sends = Vec::with_capacity(alloc, dispatches.len())?;
    for dispatch in dispatches {
        match sending_of(alloc, dispatch, item)? {
            Some(sending) => sends.push(sending)?,
            None => return Ok(None),
        }
    }
    Ok(Some(Sends::of(sends)))
}

/// The command of a dispatch. None comes exactly where its target has no value or one that is no name, or an argument has
/// no value.
fn sending_of(alloc: Global, dispatch: &Dispatch, item: &Item) -> Result<Option<Sending>, NoMemory>
    ensures { IfOk result (λ sending. sending ≡ sending_of item.now dispatch.now) }
{
    let mut digits = Buffer::new();
    let Some(target) = value_of(&dispatch.target, item, &mut digits) else {
        return Ok(None);
    };
    let Some(aggregate) = Name::read(alloc, target)? else {
        return Ok(None);
    };
    let Some(args) = args_of(alloc, dispatch.params.parts(), &item.payload)? else {
        return Ok(None);
    };
    Ok(Some(Sending {
        aggregate,
        command: dispatch.command.copy(alloc)?,
        args,
    }))
}
