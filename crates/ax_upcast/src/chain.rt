ghost use Rattle.std.specs.Prelude.{◌≡◌, ◌≤◌, length, flat_map, IfOk};
ghost use Rattle.std.specs.List.{list_any};
ghost use Rattle.ax_upcast.specs.Upcast.{KeepsLimit, takes, replaced, upcast, most_items};

use crate::Upcaster;
use crate::member::{Member, numbered};
use ax_values::{Duplicate, Items, NoMemory, Record, copy_all};
use std::alloc::Global;
use std::marker::Model;

/// Rules in order, after each of which no record gives more than 8 items.
#[derive(Drop)]
pub struct Chain {
    rules: Vec<Upcaster>,
}

impl Model for Chain {
    ghost use Rattle.std.specs.Prelude.{List};
    ghost use Rattle.ax_upcast.specs.declared.upcaster.Upcaster.{Upcaster};
    ghost use Rattle.ax_upcast.specs.Upcast.{KeepsLimit};

    ghost Value = { List Upcaster };

    ghost view = { λ chain. chain.rules.items };

    ghost invariant = { λ chain. KeepsLimit chain.rules.items };
}

impl Chain {
    /// The chain of these rules. `keeps_limit` says whether they may form one.
    pub fn of(parts: Vec<Upcaster>) -> Chain
        requires { KeepsLimit parts.items }
        ensures { result ≡ parts.items }
    {
        Chain { rules: parts }
    }

    /// The rules, in order.
    pub fn parts(&self) -> &[Upcaster]
        ensures value { result.now ≡ self.now }
        ensures few { KeepsLimit self.now }
    {
        &self.rules
    }

    /// What the rules make of a record: items that keep its aggregate and sequence number, numbered by part from 0.
    pub fn upcast(&self, alloc: Global, event: &Record) -> Result<Items, NoMemory>
        ensures value { IfOk result (λ items. items ≡ upcast self.now event.now) }
        ensures few { IfOk result (λ items. length items ≤ most_items) }
    {
        let mut members = Vec::with_capacity(alloc, 1)?;
        members.push(Member::of(alloc, event)?)?;
        for rule in self.parts() {
            members = replaced(alloc, rule, members)?;
        }
        numbered(alloc, event, members)
    }
}

fn is_for_any(rule: &Upcaster, members: &[Member]) -> bool
    ensures { result ≡ list_any (λ e. takes rule.now e.kind e.revision) members.now }
{
    members.iter().any(|member| rule.takes(member))
}

/// The members after a rule.
fn replaced(alloc: Global, rule: &Upcaster, members: Vec<Member>) -> Result<Vec<Member>, NoMemory>
    ensures { IfOk result (λ later. later.items ≡ flat_map (replaced rule.now) members.items) }
{
    if !is_for_any(rule, &members) {
        return Ok(members);
    }
    let mut later = Vec::with_capacity(alloc, members.len())?;
    for member in members {
        rule.replace(alloc, member, &mut later)?;
    }
    Ok(later)
}

impl Duplicate for Chain {
    fn copy(&self, alloc: Global) -> Result<Chain, NoMemory> {
        Ok(Chain {
            rules: copy_all(alloc, self.parts())?,
        })
    }
}
