ghost use Rattle.std.specs.Prelude.{◌≡◌, ℕ, suc, ◌+◌, ◌<◌, ◌≤◌, true, false, IsTrue, length};
ghost use Rattle.ax_tokens.specs.Nodes.{token_of};
ghost use Rattle.ax_tokens.specs.Plain.{has};
ghost use Rattle.ax_tokens.specs.Tokens.{misses};
ghost use Rattle.ax_step_work.specs.Reach.{IsCoveredBetween, IsOpenFrom, some_has};

use ax_tokens::{Plain, Token};

/// The least index, at least `from`, that a plain part lacks: a gap, found by halves, or what lies past the last index.
fn next_lacking(part: &Plain, from: u32) -> u32
    ensures from { from ≤ result }
    ensures between { (index : ℕ) → from ≤ index → index < result → has part.now index ≡ true }
    ensures lacking { has part.now result ≡ false }
{
    if from >= part.next() {
        return from;
    }
    match part.gaps().binary_search(&from) {
        Ok(_) => from,
        Err(place) => match part.gaps().get(place) {
            Some(gap) => *gap,
            None => part.next(),
        },
    }
}

/// The least index, at least `from`, that the token does not cover for some hash: each between is covered for every hash.
pub(crate) fn next_open(token: &Token, from: u32) -> u32
    ensures from { from ≤ result }
    ensures between { IsCoveredBetween (token_of token.now) from result }
    ensures missed { IsTrue (misses (token_of token.now) result) }
{
    match token {
        Token::Plain(part) => next_lacking(part, from),
        Token::Merged(lower, upper) => {
            next_open(lower.get(), from).min(next_open(upper.get(), from))
        }
        Token::Replay {
            at_reset: _,
            current,
        } => next_lacking(current, from),
    }
}

/// One more than the last index that the token covers for some hash, or 0: from it on none is covered, for any hash.
pub(crate) fn high_of(token: &Token) -> u32
    ensures above { IsOpenFrom (token_of token.now) result }
    ensures last { (index : ℕ) → result ≡ suc index → IsTrue (some_has (token_of token.now) index) }
{
    match token {
        Token::Plain(part) => part.next(),
        Token::Merged(lower, upper) => high_of(lower.get()).max(high_of(upper.get())),
        Token::Replay {
            at_reset: _,
            current,
        } => current.next(),
    }
}
