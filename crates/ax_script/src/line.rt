use ax_journal::{Form, Orders};
use ax_sheet::{Processor, Sheet};
use ax_values::{Name, Names};

/// Which lines may stand next.
#[derive(Clone, Copy, Debug, PartialEq, Eq)]
pub(crate) enum Part {
    /// `axon 1`.
    Start,
    /// The line of the sheet.
    Sheet,
    /// Declarations, up to `orders`.
    Head,
    /// Orders, and the schedule.
    Orders,
    /// Nothing more.
    End,
}

/// What a line is.
#[derive(Drop)]
pub(crate) enum ScriptLine {
    Axon,
    /// The sheet that the line names or spells, where it does.
    Sheet(Option<Sheet>),
    Processor(Processor),
    Actor(Name),
    Orders,
    /// An actor, the form of its order, and the steps of it.
    Order {
        actor: Name,
        form: Form,
        steps: Orders,
    },
    Schedule(Names),
}
