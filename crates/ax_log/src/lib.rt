//! The log: its cells in order, and the changes that keep its numbering.
#![tactic(auto)]

mod fault;
mod log;
mod put;
mod streams;

pub use fault::LogFault;
pub use log::Log;
pub use put::{CellPut, CellPuts};
