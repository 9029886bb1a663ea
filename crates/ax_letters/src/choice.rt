ghost use Rattle.std.specs.Prelude.{◌≡◌, option_map};
ghost use Rattle.ax_letters.specs.Letters.{later_older, oldest, oldest_free};
ghost use Rattle.ax_letters.specs.Room.{queue_of};

use crate::sequence::Sequence;

/// The sequence of those that are free whose first letter was touched least recently.
pub(crate) fn oldest_free(sequences: &[Sequence], now: u64) -> Option<&Sequence>
    ensures { option_map (λ s. s.now.sequence) result ≡ oldest_free now (queue_of sequences.now) }
{
    let mut oldest = None;
    for sequence in sequences {
        if sequence.is_free_at(now) {
            oldest = Some(older(oldest, sequence));
        }
    }
    oldest
}

/// The sequence whose first letter was touched least recently.
pub(crate) fn oldest(sequences: &[Sequence]) -> Option<&Sequence>
    ensures { option_map (λ s. s.now.sequence) result ≡ oldest (queue_of sequences.now) }
{
    let mut oldest = None;
    for sequence in sequences {
        oldest = Some(older(oldest, sequence));
    }
    oldest
}

/// The one whose first letter was touched less recently, or the first where both were touched at one moment.
fn older<'a>(first: Option<&'a Sequence>, second: &'a Sequence) -> &'a Sequence
    ensures { result.now.sequence ≡ later_older (option_map (λ s. s.now.sequence) first.entry) second.now.sequence }
{
    match first {
        Some(first) if first.touched() <= second.touched() => first,
        _ => second,
    }
}
