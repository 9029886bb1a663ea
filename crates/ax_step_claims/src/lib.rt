//! Steps on claims: actors take segments, keep them and give them back, split them and merge them.
#![tactic(auto)]

mod claim;
mod edits;
mod fences;
mod halves;
mod held;
mod refusals;
mod steps;

pub use steps::step;
