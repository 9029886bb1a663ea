use ax_values::NoMemory;
use thiserror::Error;

/// Why the log refuses a change. No change is then made.
#[derive(Debug, Drop, Error)]
pub enum LogFault {
    /// The stream does not have as many events as when its cells were reserved.
    #[error("the stream has {found} events in place of {expected}")]
    Conflict { expected: u32, found: u32 },
    /// A reserved cell was given up. This is the first such.
    #[error("cell {index} is void")]
    Voided { index: u32 },
    /// There is no such cell, or it is not reserved.
    #[error("the cell is not reserved")]
    NotReserved,
    /// The cell is reserved since this moment, in milliseconds, which is not long enough ago.
    #[error("the cell is reserved since {since} ms")]
    Young { since: u64 },
    /// The cells would pass 200,000.
    #[error("the log is full")]
    LogFull,
    #[error("there is no memory")]
    Memory,
}

impl From<NoMemory> for LogFault {
    ghost use Rattle.std.specs.Prelude.{◌≡◌};
    ghost use Rattle.ax_log.specs.declared.fault.LogFault.TheVariants.{Memory};

    ghost from_gives = { λ _ fault. fault ≡ Memory };

    fn from(_: NoMemory) -> LogFault {
        LogFault::Memory
    }
}
