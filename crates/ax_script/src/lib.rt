//! Scripts: read whole into a plan, or refused with the first faulty line and the first kind of its fault.
#![tactic(auto)]

mod form;
mod judge;
mod kind;
mod line;
mod plan;
mod reader;
mod reading;

pub use kind::{ScriptFault, ScriptKind};
pub use plan::{OrderLists, Plan, PlanParts, Schedule};
pub use reader::read;
