//! The machine: a plan, the world that it has led to, the journal of what was performed, and the orders that are left.
#![tactic(auto)]

mod machine;
mod steps;
mod turns;

pub use machine::{Machine, run};
pub use steps::step;
