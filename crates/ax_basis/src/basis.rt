ghost use Rattle.std.specs.Prelude.{◌≡◌, ◌↔◌, IsTrue};

use crate::Shares;
use ax_segments::Segment;
use ax_tokens::Token;
use ax_values::{Duplicate, NoMemory, Same};
use std::alloc::Global;
use std::marker::Model;

/// A batch as a fetch leaves it, with all that its handling reads.
#[derive(Drop)]
pub struct Basis {
    /// The number of the processor.
    pub processor: u32,
    pub segment: Segment,
    /// The fence of the segment at the fetch.
    pub fence: u64,
    /// How far the segment was at the fetch.
    pub old: Token,
    /// How far it is after the commit.
    pub new: Token,
    /// Whether a failed item is parked, and not dropped.
    pub keep: bool,
    /// The items by sequence.
    pub shares: Shares,
}

impl Model for Basis {
    ghost use Rattle.std.specs.Coded.{codes};
    ghost use Rattle.ax_tokens.specs.TokenCode.{coded_token};
    ghost use Rattle.ax_tokens.specs.Nodes.{token_of};
    ghost use Rattle.ax_basis.specs.Basis.{Basis as Batch};

    ghost Value = { Batch };

    ghost coded = { Prim.hlevel (codes, coded_token) };

    ghost view = { λ b. record {
      processor = b.processor;
      segment = b.segment;
      fence = b.fence;
      old = token_of b.old;
      new = token_of b.new;
      keep = b.keep;
      shares = b.shares;
    } };
}

impl Basis {
    /// Whether both are equal. It takes no memory.
    pub fn same(&self, other: &Basis) -> bool
        ensures { IsTrue result ↔ (self.now ≡ other.now) }
    {
        self.processor == other.processor
            && self.segment == other.segment
            && self.fence == other.fence
            && self.old.same(&other.old)
            && self.new.same(&other.new)
            && self.keep == other.keep
            && self.shares.same(&other.shares)
    }
}

impl Duplicate for Basis {
    fn copy(&self, alloc: Global) -> Result<Basis, NoMemory> {
        Ok(Basis {
            processor: self.processor,
            segment: self.segment,
            fence: self.fence,
            old: self.old.copy(alloc)?,
            new: self.new.copy(alloc)?,
            keep: self.keep,
            shares: self.shares.copy(alloc)?,
        })
    }
}
