ghost use Rattle.std.specs.Prelude.{◌≡◌};
ghost use Rattle.std.specs.Option.{option_copied};
ghost use Rattle.ax_segments.specs.Segments.{hash_of};
ghost use Rattle.ax_segments.specs.Sequences.{hash_in};

use ax_values::Name;

/// The hash of an identifier's bytes: from 0, `31 * hash + byte` modulo 2^32 for each byte, as Java's `String.hashCode`.
pub fn hash_of(bytes: &[u8]) -> u32
    ensures { result ≡ hash_of bytes.now }
{
    let mut hash: u32 = 0;
    for &byte in bytes {
        hash = hash.wrapping_mul(31).wrapping_add(u32::from(byte));
    }
    hash
}

/// The hash that the events of an aggregate are served by: that of the aggregate, or of the processor's name where the
/// processor is whole, so that all its events are one sequence.
pub fn hash_in(whole: Option<&Name>, aggregate: &Name) -> u32
    ensures { result ≡ hash_in (option_copied whole.entry) aggregate.now }
{
    let sequence = whole.unwrap_or(aggregate);
    hash_of(sequence.parts())
}
