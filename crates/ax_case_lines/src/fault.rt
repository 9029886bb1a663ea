use ax_values::NoMemory;
use std::alloc::{AllocError, AllocFailed};

/// Why a case has no answer.
#[derive(Clone, Copy, Debug, PartialEq, Eq)]
pub enum CaseFault {
    /// There is no such case: the line is not in the grammar, or a call may not be made so.
    Line,
    /// Memory was wanting.
    Memory,
}

impl From<NoMemory> for CaseFault {
    ghost use Rattle.std.specs.Prelude.{◌≡◌};
    ghost use Rattle.ax_case_lines.specs.declared.fault.CaseFault.TheVariants as fault;

    ghost from_gives = { λ _ made. made ≡ fault.Memory };

    fn from(_: NoMemory) -> CaseFault {
        CaseFault::Memory
    }
}

impl From<AllocError> for CaseFault {
    fn from(_: AllocError) -> CaseFault {
        CaseFault::Memory
    }
}

impl<T: Drop> From<AllocFailed<T>> for CaseFault {
    fn from(_: AllocFailed<T>) -> CaseFault {
        CaseFault::Memory
    }
}
