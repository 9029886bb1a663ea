//! Batches: what they are handled from, and what becomes of each of their items.
#![tactic(auto)]

mod basis;
mod handled;
mod handling;
mod item;
mod lone;
mod outcome;
mod share;

pub use basis::Basis;
pub use handled::{Handled, handle};
pub use handling::results_of;
pub use item::{BasisItem, BasisItems, Member, Members};
pub use outcome::{Outcome, Outcomes, Results, RowList, ShareResult};
pub use share::{Share, Shares};
