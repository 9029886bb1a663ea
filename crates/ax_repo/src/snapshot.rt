ghost use Rattle.std.specs.Prelude.{◌≡◌, IfOk};
ghost use Rattle.ax_repo.specs.Snapshots.{snapshot_of};

use crate::loading::whole_state;
use ax_log::Log;
use ax_rules::{Row, Rules};
use ax_upcast::Chain;
use ax_values::{Duplicate, Name, NoMemory};
use std::alloc::Global;

/// The state of an aggregate after some of its events, by the sheet of a revision.
#[derive(Drop)]
pub struct Snapshot {
    pub aggregate: Name,
    /// The revision of the sheet by whose rules the state was made.
    pub revision: u32,
    /// After how many events.
    pub events: u32,
    pub state: Row,
}

/// The snapshot of all events of an aggregate. None comes exactly where it has no event.
pub fn take_snapshot(
    alloc: Global,
    log: &Log,
    rules: &Rules,
    chain: &Chain,
    revision: u32,
    aggregate: &Name,
) -> Result<Option<Snapshot>, NoMemory>
    ensures { IfOk result (λ snapshot. snapshot ≡ snapshot_of rules.now chain.now revision aggregate.now log.now.cells) }
{
    let events = log.length_of(aggregate);
    if events == 0 {
        return Ok(None);
    }
    Ok(Some(Snapshot {
        aggregate: aggregate.copy(alloc)?,
        revision,
        events,
        state: whole_state(alloc, log, rules, chain, aggregate)?,
    }))
}

impl Duplicate for Snapshot {
    fn copy(&self, alloc: Global) -> Result<Snapshot, NoMemory> {
        Ok(Snapshot {
            aggregate: self.aggregate.copy(alloc)?,
            revision: self.revision,
            events: self.events,
            state: self.state.copy(alloc)?,
        })
    }
}
