//! The repository of aggregates: their state, read from a snapshot and the events after it, after the event sourcing
//! repository and the snapshotter of Axon Framework.
#![tactic(auto)]

mod loading;
mod snapshot;
mod steps;

pub use loading::load;
pub use snapshot::{Snapshot, take_snapshot};
pub use steps::Steps;
