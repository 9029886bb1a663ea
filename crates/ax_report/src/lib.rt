//! Reports: the rows and the token rows that a processor shows, the log, and the text of a rebuild.
#![tactic(auto)]

mod cells;
mod line;
mod names;
mod rebuilding;
mod rows;
mod steps;
mod tokens;

pub use rebuilding::rebuild_text;
pub use steps::step;
