//! Segments: parts of the space of hashes, each matched by an id and a mask, that are split in two and merged again.
#![tactic(auto)]

mod hash;
mod segment;

pub use hash::{hash_in, hash_of};
pub use segment::{MaskFull, Segment, root};
