ghost use Rattle.std.specs.Prelude.{◌≡◌, ◌≤◌, ◌++◌, length, take, Some, IfOk, IfSome, OnOk, OnErr, refl};
ghost use Rattle.ax_values.specs.Readers.{item_in};
ghost use Rattle.ax_values.specs.Words.{item_text, item_cmp, same_item};
ghost use Rattle.std.proofs.Common.{rules};
ghost use Rattle.std.specs.Cmp.{partial_equiv_from_equiv, partial_order_from_own_ties};
ghost use Rattle.std.specs.Cmp.Rules.{comparing};
ghost use Rattle.std.specs.Ordering.{as_partial_cmp};
ghost use Rattle.ax_values.specs.Orders.{item_cmp_total};

use crate::{Duplicate, ListOf, Mark, Name, NoMemory, Payload, cut_at, undo_on_error, write_u32};
use std::alloc::Global;
use std::cmp::Ordering;
use std::marker::Model;

/// Which item of an aggregate: the sequence number of its record, and its part of that record, from 0 to 7.
/// It is written `aggregate.seq.part`.
#[derive(Drop)]
pub struct ItemName {
    pub aggregate: Name,
    pub seq: u32,
    pub part: u32,
}

pub type ItemNames = ListOf<ItemName>;

impl Model for ItemName {
    ghost use Rattle.std.specs.Prelude.{◌≤◌};
    ghost use Rattle.ax_values.specs.Grammar.{ItemName as Label};

    ghost Value = { Label };

    ghost view = { λ name. record { aggregate = name.aggregate; seq = name.seq; part = name.part } };

    ghost invariant = { λ name. name.part ≤ 7 };
}

impl ItemName {
    /// The item that the text `aggregate.seq.part` names. None comes exactly outside the grammar of items.
    pub fn read(alloc: Global, text: &[u8]) -> Result<Option<ItemName>, NoMemory>
        ensures value { IfOk result (λ read. read ≡ item_in text.now) }
        ensures written { IfOk result (λ read. IfSome read (λ item. item_text item ≡ text.now)) }
    {
        let Some((aggregate, mark)) = cut_at(b'.', text) else {
            return Ok(None);
        };
        let Some(aggregate) = Name::read(alloc, aggregate)? else {
            return Ok(None);
        };
        let Some(mark) = Mark::read(mark) else {
            return Ok(None);
        };
        Ok(Some(ItemName {
            aggregate,
            seq: mark.seq,
            part: mark.part,
        }))
    }

    /// Adds `aggregate.seq.part`. Where memory is wanting, nothing is added.
    pub fn write(&self, out: &mut Vec<u8>) -> Result<(), NoMemory>
        ensures ok { OnOk result (out.new.items ≡ out.old.items ++ item_text self.now) }
        ensures err { OnErr result (out.new.items ≡ out.old.items) }
        ensures again { OnOk result (item_in (item_text self.now) ≡ Some self.now) }
    {
        let start = out.len();
        let written = self.write_parts(out);
        undo_on_error(out, start, written)
    }

    fn write_parts(&self, out: &mut Vec<u8>) -> Result<(), NoMemory>
        ensures ok { OnOk result (out.new.items ≡ out.old.items ++ item_text self.now) }
        ensures front { OnErr result (take (length out.old.items) out.new.items ≡ out.old.items) }
        ensures again { OnOk result (item_in (item_text self.now) ≡ Some self.now) }
    {
        self.aggregate.write(out)?;
        out.push(b'.')?;
        write_u32(self.seq, out)?;
        out.push(b'.')?;
        write_u32(self.part, out)
    }
}

/// What upcasting makes of a record, for projections and sagas.
#[derive(Drop)]
pub struct Item {
    pub name: ItemName,
    pub kind: Name,
    pub payload: Payload,
}

pub type Items = ListOf<Item>;

impl PartialEq for ItemName {
    ghost eq = { same_item };

    ghost laws = { partial_equiv_from_equiv (Prim.search (comparing, rules)) };

    fn eq(&self, other: &ItemName) -> bool {
        self.aggregate == other.aggregate && self.seq == other.seq && self.part == other.part
    }
}

impl Eq for ItemName {
    ghost laws = { Prim.search (comparing, rules) };
}

impl PartialOrd for ItemName {
    ghost partial_cmp = { as_partial_cmp item_cmp };

    ghost laws = { partial_order_from_own_ties (Prim.search (comparing, item_cmp_total, rules)) (Prim.search (comparing, rules)) };

    fn partial_cmp(&self, other: &ItemName) -> Option<Ordering> {
        Some(self.cmp(other))
    }
}

impl Ord for ItemName {
    ghost cmp = { item_cmp };

    ghost total = { item_cmp_total };

    ghost matches_partial_cmp = { λ x y. refl };

    ghost matches_eq = { Prim.search (comparing, rules) };

    fn cmp(&self, other: &ItemName) -> Ordering {
        self.aggregate
            .cmp(&other.aggregate)
            .then(self.seq.cmp(&other.seq))
            .then(self.part.cmp(&other.part))
    }
}

impl Duplicate for ItemName {
    fn copy(&self, alloc: Global) -> Result<ItemName, NoMemory> {
        Ok(ItemName {
            aggregate: self.aggregate.copy(alloc)?,
            seq: self.seq,
            part: self.part,
        })
    }
}

impl Duplicate for Item {
    fn copy(&self, alloc: Global) -> Result<Item, NoMemory> {
        Ok(Item {
            name: self.name.copy(alloc)?,
            kind: self.kind.copy(alloc)?,
            payload: self.payload.copy(alloc)?,
        })
    }
}
