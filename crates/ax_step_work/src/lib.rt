//! Steps on batches: a fetch takes what a segment has not covered, and a commit folds it into the rows.
#![tactic(auto)]

mod bound;
mod committing;
mod fetching;
mod gathering;
mod installing;
mod reach;
mod sharing;
mod steps;
mod tally;

pub use committing::commit_with;
pub use steps::step;
