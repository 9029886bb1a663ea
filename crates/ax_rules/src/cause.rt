ghost use Rattle.std.specs.Prelude.{◌≡◌, IfOk};
ghost use Rattle.ax_rules.specs.Cause.{cause_of};

use ax_values::{Duplicate, Name, NoMemory};
use std::alloc::Global;

/// Why rules do not apply to an item.
#[derive(Drop)]
pub enum Cause {
    /// A value leaves 64 bits with sign.
    Overflow,
    /// The item has no field of this name, or a text in it.
    Missing(Name),
    /// The guard of this number, counted from 0, is false.
    Guard(u32),
}

/// A cause whose name is still that of the expression.
#[derive(Drop)]
pub enum BorrowedCause<'a> {
    Overflow,
    Missing(&'a Name),
    Guard(u32),
}

impl BorrowedCause<'_> {
    /// The cause with a name of its own. It needs memory for that name alone.
    pub fn own(self, alloc: Global) -> Result<Cause, NoMemory>
        ensures { IfOk result (λ cause. cause ≡ cause_of self.entry) }
    {
        match self {
            BorrowedCause::Overflow => Ok(Cause::Overflow),
            BorrowedCause::Missing(name) => Ok(Cause::Missing(name.copy(alloc)?)),
            BorrowedCause::Guard(number) => Ok(Cause::Guard(number)),
        }
    }
}

impl Duplicate for Cause {
    fn copy(&self, alloc: Global) -> Result<Cause, NoMemory> {
        match self {
            Cause::Overflow => Ok(Cause::Overflow),
            Cause::Missing(name) => Ok(Cause::Missing(name.copy(alloc)?)),
            Cause::Guard(number) => Ok(Cause::Guard(*number)),
        }
    }
}
