use ax_values::{Name, NoMemory};

/// Why a queue refuses a change. The queue is then as it was.
#[derive(Drop)]
pub enum QueueFault {
    /// There are 1,024 sequences, and the letter's is none of them.
    SequencesFull,
    /// The letter's sequence has 1,024 letters.
    SequenceFull,
    /// The item has no letter.
    NoLetter,
    /// Every sequence is taken. The one whose first letter was touched least recently is taken by this actor since this
    /// moment, in milliseconds.
    LettersTaken { by: Name, since: u64 },
    /// There is no memory.
    Memory,
}

impl From<NoMemory> for QueueFault {
    ghost use Rattle.std.specs.Prelude.{◌≡◌};
    ghost use Rattle.ax_letters.specs.declared.fault.QueueFault.TheVariants.{Memory};

    ghost from_gives = { λ _ fault. fault ≡ Memory };

    fn from(_: NoMemory) -> QueueFault {
        QueueFault::Memory
    }
}
