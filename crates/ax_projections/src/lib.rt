//! Tables of rows by aggregate, and the rebuild of one from a log.
#![tactic(auto)]

mod rebuilding;
mod table;

pub use rebuilding::rebuild;
pub use table::{Positioned, Table};
