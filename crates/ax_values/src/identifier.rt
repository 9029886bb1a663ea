ghost use Rattle.std.specs.Prelude.{◌≡◌, IfOk};
ghost use Rattle.ax_values.specs.EventId.{event_id};

use crate::{Name, NoMemory, write_u32};
use std::alloc::Global;
use uuid::Uuid;

/// The identifier of an event: version 5 (RFC 9562) of the text `aggregate/seq`, under the namespace
/// 6ba7b811-9dad-11d1-80b4-00c04fd430c8.
pub fn event_id(alloc: Global, aggregate: &Name, seq: u32) -> Result<Uuid, NoMemory>
    ensures { IfOk result (λ id. id ≡ event_id aggregate.now seq) }
{
    let mut text = Vec::new(alloc);
    aggregate.write(&mut text)?;
    text.push(b'/')?;
    write_u32(seq, &mut text)?;
    Ok(Uuid::new_v5(&Uuid::NAMESPACE_URL, &text))
}
