//! Dead letters: the parked items of a processor by sequence, after the sequenced dead-letter queue of Axon Framework.
#![tactic(auto)]

mod choice;
mod fault;
mod letter;
mod places;
mod queue;
mod sequence;

pub use fault::QueueFault;
pub use letter::{Letter, Letters, Taken};
pub use queue::Queue;
