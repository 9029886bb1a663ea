//! Sheets: the JSON texts by which a user declares an application.
#![tactic(auto)]

mod cards;
mod decision;
mod sheet;
#[cfg(test)]
mod tests;
mod text;

pub use ax_sheet_parts::{
    Command, Commands, NamedCommand, NamedRules, NamedSaga, Param, Params, Processor, Processors,
    Projections, SagaList, SheetFault,
};
pub use ax_upcast::Event;
pub use decision::{Decided, Events, decide, fits_command};
pub use sheet::Sheet;
