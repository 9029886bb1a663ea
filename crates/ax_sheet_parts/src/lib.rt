//! What a sheet holds: its commands, projections and sagas, and what is declared beside it.
#![tactic(auto)]

mod fault;
mod params;
mod parts;
mod whole;

pub use fault::SheetFault;
pub use params::{Param, Params, is_kind};
pub use parts::{
    Command, Commands, NamedCommand, NamedRules, NamedSaga, Processor, Processors, Projections,
    SagaList,
};
pub use whole::SheetParts;
