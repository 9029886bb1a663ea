ghost use Rattle.std.specs.Prelude.{◌≡◌, ◌≤◌, ℕ, ◌&&◌, true, false, length, IsTrue, IfOk};
ghost use Rattle.ax_tokens.specs.Plain.{has};
ghost use Rattle.ax_tokens.specs.Tokens.{merged, covers, replays, meets, advanced, ever_covered, reset, lower_part, upper_part, joins, joined, caught_up, collapsed, is_collapsed, is_canonical};
ghost use Rattle.ax_tokens.specs.Meaning.{SameSets, CoversTo, ServesHalves, IsPartFor, IsAllMet};
ghost use Rattle.ax_tokens.specs.Nodes.{token_of};

use crate::{Half, Plain, Token};
use ax_values::{Cell, Duplicate, NoMemory, Same};
use std::alloc::Global;

impl Token {
    /// The token with the indexes below `to` covered, for every hash, whose cells are not reserved.
    pub fn advance(&self, alloc: Global, cells: &[Cell], to: u32) -> Result<Token, NoMemory>
        requires { to ≤ length cells.now }
        ensures value { IfOk result (λ later. token_of later ≡ advanced cells.now to (token_of self.now)) }
        ensures sets { IfOk result (λ later. CoversTo cells.now to (token_of self.now) (token_of later)) }
        ensures replayed { IfOk result (λ later. SameSets replays (token_of self.now) (token_of later)) }
        ensures canonical { IfOk result (λ later. IsTrue (is_canonical (token_of later))) }
    {
        let later = self.advanced(alloc, cells, to)?;
        later.facts();
        Ok(later)
    }

    /// One token whose halves are the two: each hash keeps the set of its half, and what it replays.
    pub fn merge(alloc: Global, lower: Token, upper: Token) -> Result<Token, NoMemory>
        ensures value { IfOk result (λ both. token_of both ≡ merged (token_of lower) (token_of upper)) }
        ensures sets { IfOk result (λ both. ServesHalves covers (token_of lower) (token_of upper) (token_of both)) }
        ensures replayed { IfOk result (λ both. ServesHalves replays (token_of lower) (token_of upper) (token_of both)) }
        ensures canonical { IfOk result (λ both. IsTrue (is_canonical (token_of both))) }
    {
        let both = Token::Merged(Half::of(alloc, lower)?, Half::of(alloc, upper)?);
        both.facts();
        Ok(both)
    }

    /// The tokens of the lower and the upper half of the segment: the halves of a merged token, and else two copies.
    pub fn split_token(&self, alloc: Global) -> Result<(Token, Token), NoMemory>
        ensures lower { IfOk result (λ halves. token_of halves.0 ≡ lower_part (token_of self.now)) }
        ensures upper { IfOk result (λ halves. token_of halves.1 ≡ upper_part (token_of self.now)) }
        ensures lower_sets { IfOk result (λ halves. IsPartFor covers false (token_of self.now) (token_of halves.0)) }
        ensures upper_sets { IfOk result (λ halves. IsPartFor covers true (token_of self.now) (token_of halves.1)) }
        ensures lower_replayed { IfOk result (λ halves. IsPartFor replays false (token_of self.now) (token_of halves.0)) }
        ensures upper_replayed { IfOk result (λ halves. IsPartFor replays true (token_of self.now) (token_of halves.1)) }
        ensures canonical { IfOk result (λ halves. IsTrue (is_canonical (token_of halves.0) && is_canonical (token_of halves.1))) }
    {
        let halves = self.halves(alloc)?;
        halves.0.facts();
        halves.1.facts();
        Ok(halves)
    }

    /// A replay that covers nothing, before whose reset every hash had covered what some plain half or some part of a replay has.
    pub fn reset(&self, alloc: Global) -> Result<Token, NoMemory>
        ensures value { IfOk result (λ anew. token_of anew ≡ reset (token_of self.now)) }
        ensures covered { IfOk result (λ anew. (mask hash index : ℕ) → covers (token_of anew) mask hash index ≡ false) }
        ensures before { IfOk result (λ anew. (mask hash index : ℕ) → replays (token_of anew) mask hash index ≡ has (ever_covered (token_of self.now)) index) }
        ensures met { IfOk result (λ anew. IsAllMet (token_of self.now)) }
        ensures canonical { IfOk result (λ anew. IsTrue (is_canonical (token_of anew))) }
    {
        let anew = Token::Replay {
            at_reset: self.ever_covered(alloc)?,
            current: Plain::nothing(alloc),
        };
        anew.facts();
        Ok(anew)
    }

    /// The token with, the innermost parts first, two equal halves made one where they are plain or replays, and each replay that
    /// has covered all of `at_reset` made plain. Equal halves that are merged themselves stay, since their own halves are
    /// chosen by the next bit.
    pub fn collapse(self, alloc: Global) -> Result<Token, NoMemory>
        ensures value { IfOk result (λ less. token_of less ≡ collapsed (token_of self)) }
        ensures covered { IfOk result (λ less. SameSets covers (token_of self) (token_of less)) }
        ensures met { IfOk result (λ less. SameSets meets (token_of self) (token_of less)) }
        ensures collapsed { IfOk result (λ less. IsTrue (is_collapsed (token_of less))) }
        ensures again { IfOk result (λ less. collapsed (token_of less) ≡ token_of less) }
        ensures canonical { IfOk result (λ less. IsTrue (is_canonical (token_of less))) }
    {
        let less = self.collapsed(alloc)?;
        less.facts();
        Ok(less)
    }

    fn advanced(&self, alloc: Global, cells: &[Cell], to: u32) -> Result<Token, NoMemory>
        requires { to ≤ length cells.now }
        ensures { IfOk result (λ later. token_of later ≡ advanced cells.now to (token_of self.now)) }
    {
        match self {
            Token::Plain(plain) => Ok(Token::Plain(plain.advance(alloc, cells, to)?)),
            Token::Merged(lower, upper) => {
                let lower = lower.get().advanced(alloc, cells, to)?;
                let upper = upper.get().advanced(alloc, cells, to)?;
                Ok(Token::Merged(Half::of(alloc, lower)?, Half::of(alloc, upper)?))
            }
            Token::Replay { at_reset, current } => Ok(Token::Replay {
                at_reset: at_reset.copy(alloc)?,
                current: current.advance(alloc, cells, to)?,
            }),
        }
    }

    fn halves(&self, alloc: Global) -> Result<(Token, Token), NoMemory>
        ensures lower { IfOk result (λ halves. token_of halves.0 ≡ lower_part (token_of self.now)) }
        ensures upper { IfOk result (λ halves. token_of halves.1 ≡ upper_part (token_of self.now)) }
    {
        match self {
            Token::Merged(lower, upper) => {
                Ok((lower.get().copy(alloc)?, upper.get().copy(alloc)?))
            }
            Token::Plain(_) | Token::Replay { .. } => Ok((self.copy(alloc)?, self.copy(alloc)?)),
        }
    }

    fn ever_covered(&self, alloc: Global) -> Result<Plain, NoMemory>
        ensures { IfOk result (λ all. all ≡ ever_covered (token_of self.now)) }
    {
        match self {
            Token::Plain(plain) => plain.copy(alloc),
            Token::Merged(lower, upper) => {
                let lower = lower.get().ever_covered(alloc)?;
                let upper = upper.get().ever_covered(alloc)?;
                lower.union(alloc, &upper)
            }
            Token::Replay { at_reset, current } => at_reset.union(alloc, current),
        }
    }

    fn collapsed(self, alloc: Global) -> Result<Token, NoMemory>
        ensures { IfOk result (λ less. token_of less ≡ collapsed (token_of self)) }
    {
        match self {
            Token::Plain(plain) => Ok(Token::Plain(plain)),
            Token::Merged(lower, upper) => {
                let lower = lower.into_token().collapsed(alloc)?;
                let upper = upper.into_token().collapsed(alloc)?;
                joined(alloc, lower, upper)
            }
            Token::Replay { at_reset, current } => Ok(caught_up(at_reset, current)),
        }
    }

    fn joins(&self, other: &Token) -> bool
        ensures { result ≡ joins (token_of self.now) (token_of other.now) }
    {
        match (self, other) {
            (Token::Plain(plain), Token::Plain(other)) => plain.same(other),
            (
                Token::Replay { at_reset, current },
                Token::Replay {
                    at_reset: before,
                    current: now,
                },
            ) => at_reset.same(before) && current.same(now),
            _ => false,
        }
    }
}

fn joined(alloc: Global, lower: Token, upper: Token) -> Result<Token, NoMemory>
    ensures { IfOk result (λ less. token_of less ≡ joined (token_of lower) (token_of upper)) }
{
    if lower.joins(&upper) {
        return Ok(lower);
    }
    Ok(Token::Merged(Half::of(alloc, lower)?, Half::of(alloc, upper)?))
}

fn caught_up(at_reset: Plain, current: Plain) -> Token
    ensures { token_of result ≡ caught_up at_reset current }
{
    if current.includes(&at_reset) {
        Token::Plain(current)
    } else {
        Token::Replay { at_reset, current }
    }
}
