//! Tracking tokens, after Axon Framework: which indexes of the log each hash has covered, with gaps, merged and under replay.
#![tactic(auto)]

mod change;
mod plain;
mod text;
mod token;

pub use plain::{Gaps, Plain};
pub use token::{Half, Token};
