ghost use Rattle.std.specs.Prelude.{◌≡◌, ◌+◌, length, IfOk};
ghost use Rattle.std.specs.Option.{option_copied};
ghost use Rattle.ax_repo.specs.Snapshots.{found_items, items_from, listed_items, saved};

use ax_case_lines::CaseFault;
use ax_log::Log;
use ax_repo::Snapshot;
use ax_upcast::Chain;
use ax_values::{Cell, Name};
use std::alloc::Global;

/// How many events a snapshot saves.
pub(crate) fn saved(revision: u32, snapshot: Option<&Snapshot>) -> u32
    ensures { result ≡ saved revision (option_copied snapshot.entry) }
{
    match snapshot {
        Some(snapshot) if snapshot.revision == revision => snapshot.events,
        _ => 0,
    }
}

/// How many items the events of an aggregate have, from a number on.
#[tactic(auto, using(crate::proofs::Counting::counted_later))]
pub(crate) fn count_from(
    alloc: Global,
    log: &Log,
    chain: &Chain,
    aggregate: &Name,
    from: u32,
) -> Result<u64, CaseFault>
    ensures { IfOk result (λ count. count ≡ length (items_from chain.now aggregate.now log.now.cells from)) }
{
    let indexes = log.stream(alloc, aggregate)?;
    let from = from as usize;
    if from > indexes.len() {
        return Err(CaseFault::Line);
    }
    count_items(alloc, log, chain, &indexes[from..])
}

/// How many items the cells at these indexes have.
fn count_items(alloc: Global, log: &Log, chain: &Chain, indexes: &[u32]) -> Result<u64, CaseFault>
    ensures { IfOk result (λ count. count ≡ length (listed_items chain.now log.now.cells indexes.now)) }
{
    let mut sum: u64 = 0;
    for index in indexes {
        sum = count_more(alloc, log.scan(*index), chain, sum)?;
    }
    Ok(sum)
}

/// The sum with the number of the items of a cell.
fn count_more(alloc: Global, cell: Option<&Cell>, chain: &Chain, sum: u64) -> Result<u64, CaseFault>
    ensures { IfOk result (λ count. count ≡ sum + length (found_items chain.now (option_copied cell.entry))) }
{
    let Some(Cell::Event(record)) = cell else {
        return Ok(sum);
    };
    let items = chain.upcast(alloc, record)?;
    let more = items.parts().len() as u64;
    if more > u64::MAX - sum {
        return Err(CaseFault::Line);
    }
    Ok(sum + more)
}
