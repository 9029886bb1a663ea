ghost use Rattle.std.specs.Prelude.{◌≡◌, ◌≤◌, ◌^◌, ◌&&◌, length, IsTrue, option_map};
ghost use Rattle.std.specs.List.{list_all};
ghost use Rattle.ax_rules.specs.Cause.{cause_of, with_cause};
ghost use Rattle.ax_rules.specs.Guards.{test_passes, guard_fits, guard_holds, guards_cause};

use crate::{BorrowedCause, Expr};
use ax_values::{Duplicate, ListOf, NoMemory, Payload, Same};
use std::alloc::Global;

/// How a guard compares its sides: by `=`, `!=`, `<` or `<=`.
#[derive(Clone, Copy, PartialEq, Eq)]
pub enum Test {
    Equal,
    Differ,
    Less,
    AtMost,
}

/// A condition on a row and an item.
#[derive(Drop)]
pub struct Guard {
    pub left: Expr,
    pub test: Test,
    pub right: Expr,
}

pub type Guards = ListOf<Guard>;

impl Test {
    fn passes(self, left: i64, right: i64) -> bool
        ensures { result ≡ test_passes self left right }
    {
        match self {
            Test::Equal => left == right,
            Test::Differ => left != right,
            Test::Less => left < right,
            Test::AtMost => left <= right,
        }
    }
}

impl Guard {
    /// Whether the guard is true, or the first cause that a side has no value, left side first.
    pub fn holds<'a>(&'a self, row: &[i64], payload: &Payload) -> Result<bool, BorrowedCause<'a>>
        requires { IsTrue (guard_fits (length row.now) self.now) }
        ensures { with_cause result ≡ guard_holds self.now row.now payload.now }
    {
        let left = self.left.value_of(row, payload)?;
        let right = self.right.value_of(row, payload)?;
        Ok(self.test.passes(left, right))
    }
}

/// The first cause that the guards give, in order. A guard that is false is one by its number, counted from 0.
pub fn guards_cause<'a>(
    guards: &'a [Guard],
    row: &[i64],
    payload: &Payload,
) -> Option<BorrowedCause<'a>>
    requires count { length guards.now ≤ 2 ^ 32 }
    requires places { IsTrue (list_all (guard_fits (length row.now)) guards.now) }
    ensures { option_map cause_of result ≡ guards_cause 0 guards.now row.now payload.now }
{
    for (number, guard) in guards.iter().enumerate() {
        match guard.holds(row, payload) {
            Ok(true) => {}
            Ok(false) => return Some(BorrowedCause::Guard(number as u32)),
            Err(cause) => return Some(cause),
        }
    }
    None
}

impl Duplicate for Guard {
    fn copy(&self, alloc: Global) -> Result<Guard, NoMemory> {
        Ok(Guard {
            left: self.left.copy(alloc)?,
            test: self.test,
            right: self.right.copy(alloc)?,
        })
    }
}

impl Same for Guard {
    fn same(&self, other: &Guard) -> bool {
        self.left.same(&other.left) && self.test == other.test && self.right.same(&other.right)
    }
}
