ghost use Rattle.std.specs.Prelude.{◌≡◌, ℕ, false, IfOk};
ghost use Rattle.ax_tokens.specs.Tokens.{IsKept, start, half, covers, replays};
ghost use Rattle.ax_tokens.specs.Nodes.{token_of};

use crate::Plain;
use ax_segments::Segment;
use ax_values::{Duplicate, NoMemory, Same};
use std::alloc::Global;
use std::marker::Model;

/// A tracking token of a segment, as Axon Framework has them: for each hash of the segment, the set of the indexes of the
/// log that are covered.
#[cycle(token)]
#[derive(Drop)]
pub enum Token {
    /// One set, for every hash.
    Plain(Plain),
    /// Under a mask m, a hash is served by the second half where it has the bit m + 1, else by the first; that half stands
    /// under the mask 2 * m + 1. Bits past the 32nd count as absent.
    Merged(Half, Half),
    /// The set `current`, for every hash, after a reset of a token that had covered `at_reset`.
    Replay { at_reset: Plain, current: Plain },
}

/// A half of a merged token.
#[cycle(token)]
#[derive(Drop)]
pub struct Half {
    token: Box<Token>,
}

impl Model for Half {
    ghost use Rattle.ax_tokens.specs.Tokens.{Token, IsKept};
    ghost use Rattle.ax_tokens.specs.TokenCode.{coded_token};

    ghost Value = { Token };

    ghost coded = { coded_token };

    ghost use Rattle.ax_tokens.specs.Nodes.{token_of, size_of};

    ghost view = { λ half. token_of half.token.value };

    ghost invariant = { λ half. IsKept (token_of half.token.value) };

    ghost size = { size_of };

    ghost use Rattle.ax_tokens.specs.Falls.{falls};

    ghost size_decreases = { λ a h. falls a.token.value };
}

impl Half {
    /// The token as a half.
    pub fn of(alloc: Global, token: Token) -> Result<Half, NoMemory>
        ensures value { IfOk result (λ half. half ≡ token_of token) }
    {
        token.facts();
        Ok(Half {
            token: Box::new(alloc, token)?,
        })
    }

    /// The token of this half.
    pub fn get(&self) -> &Token
        ensures value { token_of result.now ≡ self.now }
        ensures kept { IsKept self.now }
    {
        &self.token
    }

    /// The token, given up.
    pub fn into_token(self) -> Token
        ensures value { token_of result ≡ self }
    {
        let Half { token } = self;
        Box::into_inner(token)
    }
}

impl Token {
    /// The token at the start of the log.
    pub fn start(alloc: Global) -> Token
        ensures value { token_of result ≡ start }
        ensures nothing { (mask hash index : ℕ) → covers (token_of result) mask hash index ≡ false }
    {
        Token::Plain(Plain::nothing(alloc))
    }

    /// The plain token or replay that serves the hash, in the token of a segment.
    pub fn at(&self, segment: Segment, hash: u32) -> &Token
        ensures value { token_of result.now ≡ half (token_of self.now) segment.mask hash }
    {
        let mut token = self;
        let mut bits = hash / (segment.mask + 1);
        while let Token::Merged(lower, upper) = token {
            token = if bits % 2 == 1 {
                upper.get()
            } else {
                lower.get()
            };
            bits /= 2;
        }
        token
    }

    /// Whether the index is covered for the hash, in the token of a segment.
    pub fn covers(&self, segment: Segment, hash: u32, index: u32) -> bool
        ensures value { result ≡ covers (token_of self.now) segment.mask hash index }
    {
        match self.at(segment, hash) {
            Token::Plain(plain) => plain.has(index),
            Token::Replay {
                at_reset: _,
                current,
            } => current.has(index),
            Token::Merged(..) => false,
        }
    }

    /// Whether the half of the hash is a replay, and the index was covered before its reset, in the token of a segment.
    pub fn replayed(&self, segment: Segment, hash: u32, index: u32) -> bool
        ensures value { result ≡ replays (token_of self.now) segment.mask hash index }
    {
        match self.at(segment, hash) {
            Token::Replay {
                at_reset,
                current: _,
            } => at_reset.has(index),
            Token::Plain(_) | Token::Merged(..) => false,
        }
    }

    /// Says to a proof what the types of the parts keep, of the whole token. It does nothing.
    pub fn facts(&self)
        ensures { IsKept (token_of self.now) }
    {
        match self {
            Token::Plain(plain) => {
                let _ = plain.next();
            }
            Token::Merged(lower, upper) => {
                let _ = lower.get();
                let _ = upper.get();
            }
            Token::Replay { at_reset, current } => {
                let _ = at_reset.next();
                let _ = current.next();
            }
        }
    }
}

impl Duplicate for Token {
    #[cycle(copy)]
    fn copy(&self, alloc: Global) -> Result<Token, NoMemory> {
        match self {
            Token::Plain(plain) => Ok(Token::Plain(plain.copy(alloc)?)),
            Token::Merged(lower, upper) => {
                Ok(Token::Merged(lower.copy(alloc)?, upper.copy(alloc)?))
            }
            Token::Replay { at_reset, current } => Ok(Token::Replay {
                at_reset: at_reset.copy(alloc)?,
                current: current.copy(alloc)?,
            }),
        }
    }
}

impl Duplicate for Half {
    #[cycle(copy)]
    fn copy(&self, alloc: Global) -> Result<Half, NoMemory> {
        Half::of(alloc, self.get().copy(alloc)?)
    }
}

impl Same for Token {
    #[cycle(same)]
    fn same(&self, other: &Token) -> bool {
        match (self, other) {
            (Token::Plain(this), Token::Plain(that)) => this.same(that),
            (Token::Merged(lower, upper), Token::Merged(first, second)) => {
                lower.same(first) && upper.same(second)
            }
            (
                Token::Replay { at_reset, current },
                Token::Replay {
                    at_reset: before,
                    current: now,
                },
            ) => at_reset.same(before) && current.same(now),
            _ => false,
        }
    }
}

impl Same for Half {
    #[cycle(same)]
    fn same(&self, other: &Half) -> bool {
        self.get().same(other.get())
    }
}
