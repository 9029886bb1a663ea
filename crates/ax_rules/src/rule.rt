ghost use Rattle.std.specs.Prelude.{◌≡◌, length, IsTrue, IfOk};
ghost use Rattle.std.specs.List.{list_all};
ghost use Rattle.ax_rules.specs.Cause.{with_cause};
ghost use Rattle.ax_rules.specs.Rules.{set_fits, sets_made};

use crate::{BorrowedCause, Expr, Guards};
use ax_values::{Duplicate, ListOf, Name, NoMemory, Payload, Same};
use std::alloc::Global;

/// One number per declared field.
pub type Row = ListOf<i64>;

/// What a declared field, named by its place counted from 0, is set to.
#[derive(Drop)]
pub struct Set {
    pub field: u32,
    pub value: Expr,
}

pub type Sets = ListOf<Set>;

/// What an item of a kind does to a row, and whether it makes a notice.
#[derive(Drop)]
pub struct Rule {
    pub kind: Name,
    pub guards: Guards,
    pub sets: Sets,
    pub announce: bool,
}

pub type RuleList = ListOf<Rule>;

/// The row with all sets made, each computed over the row as it was, or the first cause that one has no value.
pub fn sets_made<'a>(
    alloc: Global,
    sets: &'a [Set],
    row: &[i64],
    payload: &Payload,
) -> Result<Result<Row, BorrowedCause<'a>>, NoMemory>
    requires { IsTrue (list_all (set_fits (length row.now)) sets.now) }
    ensures { IfOk result (λ made. with_cause made ≡ sets_made sets.now row.now payload.now row.now) }
{
    let mut made = Vec::from_slice(alloc, row)?;
    for set in sets {
        match set.value.value_of(row, payload) {
            Ok(value) => made[set.field as usize] = value,
            Err(cause) => return Ok(Err(cause)),
        }
    }
    Ok(Ok(Row::of(made)))
}

impl Duplicate for Set {
    fn copy(&self, alloc: Global) -> Result<Set, NoMemory> {
        Ok(Set {
            field: self.field,
            value: self.value.copy(alloc)?,
        })
    }
}

impl Duplicate for Rule {
    fn copy(&self, alloc: Global) -> Result<Rule, NoMemory> {
        Ok(Rule {
            kind: self.kind.copy(alloc)?,
            guards: self.guards.copy(alloc)?,
            sets: self.sets.copy(alloc)?,
            announce: self.announce,
        })
    }
}

impl Same for Set {
    fn same(&self, other: &Set) -> bool {
        self.field == other.field && self.value.same(&other.value)
    }
}

impl Same for Rule {
    fn same(&self, other: &Rule) -> bool {
        Same::same(&self.kind, &other.kind)
            && self.guards.same(&other.guards)
            && self.sets.same(&other.sets)
            && self.announce == other.announce
    }
}
