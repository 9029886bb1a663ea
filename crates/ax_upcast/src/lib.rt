//! Upcasting: rules that replace old events by the items that projections and sagas take.
#![tactic(auto)]

mod chain;
mod event;
mod few;
mod fields;
mod member;
mod upcaster;

pub use chain::Chain;
pub use event::{Event, GivenField, GivenFields, Template, Templates};
pub use few::keeps_limit;
pub use upcaster::{Act, Upcaster};
