//! Steps on the clock, the log and a desk: a command reserves cells for its events, and the events take them; a cell that is
//! reserved for too long becomes void; an actor stops.
#![tactic(auto)]

mod appending;
mod fold;
mod others;
mod puts;
mod sending;
mod steps;

pub use steps::step;
