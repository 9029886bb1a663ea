ghost use Rattle.std.specs.Prelude.{◌≡◌, IfOk};

use crate::{BasisItems, Members};
use ax_values::{Duplicate, ListOf, Name, NoMemory, Same};
use std::alloc::Global;
use std::marker::Model;

/// The items of a batch that are of one sequence, by index, then part: of an aggregate, or of all aggregates of a whole
/// processor. Its members rise by identifier, and each item's aggregate is one of them.
#[derive(Drop)]
pub struct Share {
    /// The aggregate, or the name of the whole processor.
    pub sequence: Name,
    /// Whether the sequence had letters at the fetch.
    pub parked: bool,
    pub members: Members,
    pub items: BasisItems,
}

pub type Shares = ListOf<Share>;

impl Model for Share {
    ghost use Rattle.ax_basis.specs.Basis.{Share as Part, IsShare};

    ghost Value = { Part };

    ghost view = { λ s. record { sequence = s.sequence; parked = s.parked; members = s.members; items = s.items } };

    ghost invariant = { λ s. IsShare (record { sequence = s.sequence; parked = s.parked; members = s.members; items = s.items }) };
}

impl Duplicate for Share {
    fn copy(&self, alloc: Global) -> Result<Share, NoMemory> {
        Ok(Share {
            sequence: self.sequence.copy(alloc)?,
            parked: self.parked,
            members: self.members.copy(alloc)?,
            items: self.items.copy(alloc)?,
        })
    }
}

impl Same for Share {
    fn same(&self, other: &Share) -> bool {
        Same::same(&self.sequence, &other.sequence)
            && self.parked == other.parked
            && self.members.same(&other.members)
            && self.items.same(&other.items)
    }
}
