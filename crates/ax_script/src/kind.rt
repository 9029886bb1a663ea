ghost use Rattle.std.specs.Prelude.{◌≡◌};
ghost use Rattle.ax_script.specs.Kinds.{kind_text};

use ax_values::NoMemory;
use std::alloc::AllocError;

/// What is wrong with a line.
#[derive(Clone, Copy, Debug, PartialEq, Eq)]
pub enum ScriptKind {
    /// The script has more than 8,388,608 bytes.
    Long,
    /// The last line has no end, or the input ends before the orders.
    Cut,
    /// A byte is outside 32 to 126.
    Bytes,
    /// The line is not of a form that may stand there.
    Form,
    /// The form is not built yet.
    Later,
    /// What follows `sheet ` is neither `cards` nor the text of a sheet.
    Sheet,
    /// A processor or an actor is declared again under its name.
    Twice,
    /// A name is not declared, or of the wrong kind, or the arguments are not the command's parameters with their kinds.
    Unknown,
    /// The actors, processors, steps or show orders pass their limit here.
    Limit,
    /// The actor stopped on an earlier line.
    Stopped,
    /// An actor does not stand in the schedule as often as it has steps.
    Schedule,
}

impl ScriptKind {
    /// The kind's word, as messages have it.
    pub fn word(self) -> &'static [u8]
        ensures { result.now ≡ kind_text self }
    {
        match self {
            ScriptKind::Long => b"long",
            ScriptKind::Cut => b"cut",
            ScriptKind::Bytes => b"bytes",
            ScriptKind::Form => b"form",
            ScriptKind::Later => b"later",
            ScriptKind::Sheet => b"sheet",
            ScriptKind::Twice => b"twice",
            ScriptKind::Unknown => b"unknown",
            ScriptKind::Limit => b"limit",
            ScriptKind::Stopped => b"stopped",
            ScriptKind::Schedule => b"schedule",
        }
    }
}

/// Why a script was not read.
#[derive(Clone, Copy, Debug, PartialEq, Eq)]
pub enum ScriptFault {
    /// The first faulty line, counted from 1, and the first kind of its fault. A script that is too long has line 0.
    Wrong { line: u32, kind: ScriptKind },
    Memory,
}

impl From<NoMemory> for ScriptFault {
    ghost use Rattle.std.specs.Prelude.{◌≡◌};
    ghost use Rattle.ax_script.specs.declared.kind.ScriptFault.TheVariants as fault;

    ghost from_gives = { λ _ made. made ≡ fault.Memory };

    fn from(_: NoMemory) -> ScriptFault {
        ScriptFault::Memory
    }
}

/// Why a line was not read.
#[derive(Clone, Copy, Debug, PartialEq, Eq)]
pub(crate) enum LineFault {
    Wrong(ScriptKind),
    Memory,
}

impl From<NoMemory> for LineFault {
    ghost use Rattle.std.specs.Prelude.{◌≡◌};
    ghost use Rattle.ax_script.specs.declared.kind.LineFault.TheVariants as fault;

    ghost from_gives = { λ _ made. made ≡ fault.Memory };

    fn from(_: NoMemory) -> LineFault {
        LineFault::Memory
    }
}

impl From<AllocError> for LineFault {
    ghost use Rattle.std.specs.Prelude.{◌≡◌};
    ghost use Rattle.ax_script.specs.declared.kind.LineFault.TheVariants as fault;

    ghost from_gives = { λ _ made. made ≡ fault.Memory };

    fn from(_: AllocError) -> LineFault {
        LineFault::Memory
    }
}
