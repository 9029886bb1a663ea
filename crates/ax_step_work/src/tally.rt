ghost use Rattle.std.specs.Prelude.{◌≡◌, ◌≤◌, find, length, option_map};
ghost use Rattle.ax_step_work.specs.Working.{is_unapplied, item_outcomes};
ghost use Rattle.ax_step_work.specs.Installing.{outcomes_in, share_items, tell};

use ax_basis::{BasisItem, Outcome, Share, ShareResult};

/// The first item that is not applied, by sequence, then in the order of the sequence's items, with its outcome.
pub(crate) fn first_unapplied<'a>(
    shares: &'a [Share],
    results: &'a [ShareResult],
) -> Option<(&'a BasisItem, &'a Outcome)>
    ensures { option_map (λ left. tell left.0.now left.1.now) result ≡ find (λ t. is_unapplied t.outcome) (outcomes_in shares.now results.now) }
{
    for (place, share) in shares.iter().enumerate() {
        let Some(made) = results.get(place) else {
            return None;
        };
        if let Some(left) = left_among(share.items.parts(), made.outcomes.parts()) {
            return Some(left);
        }
    }
    None
}

/// The first of the items that is not applied, with its outcome.
fn left_among<'a>(
    items: &'a [BasisItem],
    outcomes: &'a [Outcome],
) -> Option<(&'a BasisItem, &'a Outcome)>
    ensures { option_map (λ left. tell left.0.now left.1.now) result ≡ find (λ t. is_unapplied t.outcome) (item_outcomes items.now outcomes.now) }
{
    for (place, item) in items.iter().enumerate() {
        let Some(outcome) = outcomes.get(place) else {
            return None;
        };
        if is_unapplied(outcome) {
            return Some((item, outcome));
        }
    }
    None
}

fn is_unapplied(outcome: &Outcome) -> bool
    ensures { result ≡ is_unapplied outcome.now }
{
    match outcome {
        Outcome::Applied => false,
        Outcome::Parked(_) => true,
        Outcome::Dropped(_) => true,
    }
}

/// How many items the shares have.
pub(crate) fn item_count(shares: &[Share]) -> u32
    requires { length (share_items shares.now) ≤ 1600000 }
    ensures { result ≡ length (share_items shares.now) }
{
    let mut count = 0;
    for share in shares {
        count += share.items.parts().len() as u32;
    }
    count
}
