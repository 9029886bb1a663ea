//! What the runtime needs of the outside: a source of bytes, a sink for bytes, a keeper of tables and a gate.
//! Each counts its faults, and a fault is returned only where its count rose.
#![tactic(auto)]

mod calls;
mod gate;
mod keeper;
mod memory_keeper;
mod sink;
mod source;
mod whole;

pub use gate::{Gate, OpenGate};
pub use keeper::{Change, Keeper, KeeperFault, TableRow};
pub use memory_keeper::MemoryKeeper;
pub use sink::{MemorySink, Sink, StdSink};
pub use source::{MemorySource, Source, StdSource};
pub use whole::{ReadFault, read_all, write_all};

/// The outside failed; its count of faults rose.
#[derive(Clone, Copy, Debug, PartialEq, Eq)]
pub struct Failed;
