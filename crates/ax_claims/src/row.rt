ghost use Rattle.std.specs.Prelude.{◌≡◌, IfOk};

use ax_segments::Segment;
use ax_tokens::Token;
use ax_values::{Duplicate, Name, NoMemory};
use std::alloc::Global;
use std::marker::Model;

/// What a processor keeps of one of its segments, after the token entry of Axon Framework's token store.
#[derive(Drop)]
pub struct TokenRow {
    pub segment: Segment,
    /// What the segment has covered.
    pub token: Token,
    /// Who works on the segment.
    pub owner: Option<Name>,
    /// When the claim was made or extended last, in milliseconds; 0 without an owner.
    pub since: u64,
    /// The number of the last change of hands.
    pub fence: u64,
}

impl Model for TokenRow {
    ghost use Rattle.std.specs.Coded.{codes};
    ghost use Rattle.ax_tokens.specs.TokenCode.{coded_token};
    ghost use Rattle.ax_tokens.specs.Nodes.{token_of};
    ghost use Rattle.ax_claims.specs.Rows.{TokenRow as Row};

    ghost Value = { Row };

    ghost coded = { Prim.hlevel (codes, coded_token) };

    ghost view = { λ row. record { segment = row.segment; token = token_of row.token; owner = row.owner; since = row.since; fence = row.fence } };
}

impl Duplicate for TokenRow {
    fn copy(&self, alloc: Global) -> Result<TokenRow, NoMemory> {
        Ok(TokenRow {
            segment: self.segment,
            token: self.token.copy(alloc)?,
            owner: self.owner.copy(alloc)?,
            since: self.since,
            fence: self.fence,
        })
    }
}
