ghost use Rattle.std.specs.Prelude.{◌≡◌, ◌↔◌, ◌<◌, ℕ, Some, None, IsTrue, IfOk, IfSome, refl};
ghost use Rattle.std.specs.Int.Bits.{bit_and};
ghost use Rattle.std.proofs.Common.{rules};
ghost use Rattle.std.specs.Cmp.{partial_equiv_from_equiv, partial_order_from_own_ties};
ghost use Rattle.std.specs.Cmp.Rules.{comparing};
ghost use Rattle.std.specs.Ordering.{as_partial_cmp};
ghost use Rattle.ax_segments.specs.Segments.{matches, root, split, partner, merged, same_segment, segment_cmp, AreHalves};
ghost use Rattle.ax_segments.specs.Orders.{segment_cmp_total};

use std::cmp::Ordering;
use std::marker::Model;

/// A part of the space of hashes: those whose low bits, as many as the mask has, are the id.
/// The mask plus 1 is a power of two, the mask is at most 65,535, and the id at most the mask.
#[derive(Clone, Copy)]
pub struct Segment {
    pub id: u32,
    pub mask: u32,
}

/// A segment of mask 65,535 has no halves.
#[derive(Clone, Copy)]
pub struct MaskFull;

impl Model for Segment {
    ghost use Rattle.ax_segments.specs.Segments.{Segment as Part, IsSegment};

    ghost Value = { Part };

    ghost view = { λ s. record { id = s.id; mask = s.mask } };

    ghost invariant = { λ s. IsSegment (record { id = s.id; mask = s.mask }) };

    ghost inverse = { λ s. record { id = s.id; mask = s.mask } };
}

/// The segment that matches every hash.
pub fn root() -> Segment
    ensures value { result ≡ root }
    ensures all { (hash : ℕ) → IsTrue (matches result hash) }
{
    Segment { id: 0, mask: 0 }
}

impl Segment {
    /// Whether the hash is one of the segment's.
    pub fn matches(self, hash: u32) -> bool
        ensures value { result ≡ matches self hash }
        ensures bits { IsTrue result ↔ (bit_and hash self.mask ≡ self.id) }
    {
        hash & self.mask == self.id
    }

    /// The lower half, whose hashes have the next bit clear, and the upper half, whose hashes have it set.
    /// Merging the two gives the segment back.
    pub fn split(self) -> Result<(Segment, Segment), MaskFull>
        ensures value { result ≡ split self }
        ensures halves { IfOk result (λ halves. AreHalves self halves.0 halves.1) }
        ensures back { IfOk result (λ halves. merged halves.0 halves.1 ≡ Some self) }
    {
        if self.mask == 65_535 {
            return Err(MaskFull);
        }
        let mask = 2 * self.mask + 1;
        let lower = Segment { id: self.id, mask };
        let upper = Segment {
            id: self.id + (self.mask + 1),
            mask,
        };
        Ok((lower, upper))
    }

    /// The other half of the segment that this one is a half of. None comes exactly for the root.
    pub fn partner(self) -> Option<Segment>
        ensures value { result ≡ partner self }
        ensures back { IfSome result (λ other. partner other ≡ Some self) }
    {
        if self.mask == 0 {
            return None;
        }
        let bit = (self.mask + 1) / 2;
        let id = if self.id < bit {
            self.id + bit
        } else {
            self.id - bit
        };
        Some(Segment {
            id,
            mask: self.mask,
        })
    }

    /// The segment that the two are the halves of. None comes exactly where `other` is not the partner.
    pub fn merged_with(self, other: Segment) -> Option<Segment>
        ensures value { result ≡ merged self other }
        ensures halves { IfSome result (λ whole. AreHalves whole self other) }
    {
        if self.partner()? != other {
            return None;
        }
        Some(Segment {
            id: self.id.min(other.id),
            mask: self.mask / 2,
        })
    }
}

impl PartialEq for Segment {
    ghost eq = { same_segment };

    ghost laws = { partial_equiv_from_equiv (Prim.search (comparing, rules)) };

    fn eq(&self, other: &Segment) -> bool {
        self.id == other.id && self.mask == other.mask
    }
}

impl Eq for Segment {
    ghost laws = { Prim.search (comparing, rules) };
}

impl PartialOrd for Segment {
    ghost partial_cmp = { as_partial_cmp segment_cmp };

    ghost laws = { partial_order_from_own_ties (Prim.search (comparing, segment_cmp_total, rules)) (Prim.search (comparing, rules)) };

    fn partial_cmp(&self, other: &Segment) -> Option<Ordering> {
        Some(self.cmp(other))
    }
}

impl Ord for Segment {
    ghost cmp = { segment_cmp };

    ghost total = { segment_cmp_total };

    ghost matches_partial_cmp = { λ x y. refl };

    ghost matches_eq = { Prim.search (comparing, rules) };

    fn cmp(&self, other: &Segment) -> Ordering {
        self.id.cmp(&other.id).then(self.mask.cmp(&other.mask))
    }
}
