ghost use Rattle.std.specs.Prelude.{◌≡◌, ◌+◌, IfOk, IfSome};
ghost use Rattle.ax_repo.specs.Snapshots.{IsSnapshotOf};

use crate::counts::{count_from, saved};
use crate::events::{Coming, append_all};
use ax_case_lines::CaseFault;
use ax_log::Log;
use ax_repo::{Snapshot, Steps, load, take_snapshot};
use ax_rules::{Row, Rules};
use ax_upcast::Chain;
use ax_values::Name;
use std::alloc::Global;
use std::marker::Brand;
use std::sync::ledger::{Blank, Ledger};

/// When a snapshot is taken: after how many events of a list, and by a sheet of which revision.
#[derive(Clone, Copy)]
pub(crate) struct Moment {
    pub(crate) after: usize,
    pub(crate) revision: u32,
}

/// A state that was read, and how many items were applied to read it.
#[derive(Drop)]
pub(crate) struct Loaded {
    pub(crate) state: Row,
    pub(crate) steps: u64,
}

/// The state of an aggregate after all events, by a sheet of a revision, from a snapshot that was taken at a moment.
pub(crate) fn load_at(
    alloc: Global,
    rules: &Rules,
    chain: &Chain,
    events: &[Coming],
    aggregate: &Name,
    revision: u32,
    moment: Moment,
) -> Result<Loaded, CaseFault> {
    let (first, later) = events
        .split_at_checked(moment.after)
        .ok_or(CaseFault::Line)?;
    let mut log = Log::new(alloc);
    append_all(alloc, &mut log, first)?;
    let taken = moment.revision;
    let snapshot = snapshot_before(alloc, &mut log, later, rules, chain, taken, aggregate)?;
    let snapshot = snapshot.as_ref();
    from_snapshot(alloc, &log, rules, chain, revision, snapshot, aggregate)
}

/// The snapshot that is taken before these events are added.
#[tactic(auto, using(crate::proofs::Growth::still))]
fn snapshot_before(
    alloc: Global,
    log: &mut Log,
    later: &[Coming],
    rules: &Rules,
    chain: &Chain,
    revision: u32,
    aggregate: &Name,
) -> Result<Option<Snapshot>, CaseFault>
    ensures { IfOk result (λ snapshot. IfSome snapshot (IsSnapshotOf rules.now chain.now aggregate.now log.new.cells)) }
{
    let snapshot = take_snapshot(alloc, log, rules, chain, revision, aggregate)?;
    append_all(alloc, log, later)?;
    Ok(snapshot)
}

/// The state of an aggregate from a snapshot, with the number of steps that a ledger has for it.
fn from_snapshot(
    alloc: Global,
    log: &Log,
    rules: &Rules,
    chain: &Chain,
    revision: u32,
    snapshot: Option<&Snapshot>,
    aggregate: &Name,
) -> Result<Loaded, CaseFault>
    requires { IfSome snapshot (λ s. s.now.revision ≡ revision → IsSnapshotOf rules.now chain.now aggregate.now log.now.cells s.now) }
{
    let blank = Blank::new(1);
    counted::<Brand>(
        alloc, log, rules, chain, revision, snapshot, aggregate, blank,
    )
}

fn counted<L: Ledger>(
    alloc: Global,
    log: &Log,
    rules: &Rules,
    chain: &Chain,
    revision: u32,
    snapshot: Option<&Snapshot>,
    aggregate: &Name,
    blank: Blank,
) -> Result<Loaded, CaseFault>
    requires name { blank.name ≡ L.name }
    requires parts { blank.parts ≡ L.parts }
    requires some { blank.parts ≡ 1 }
    requires snapshot { IfSome snapshot (λ s. s.now.revision ≡ revision → IsSnapshotOf rules.now chain.now aggregate.now log.now.cells s.now) }
{
    let mut steps = Steps::<L>::new(blank);
    load_counted(
        alloc, log, rules, chain, revision, snapshot, aggregate, &mut steps,
    )
}

/// The state of an aggregate from a snapshot, and how many steps the ledger has more after it.
fn load_counted<L: Ledger>(
    alloc: Global,
    log: &Log,
    rules: &Rules,
    chain: &Chain,
    revision: u32,
    snapshot: Option<&Snapshot>,
    aggregate: &Name,
    steps: &mut Steps<L>,
) -> Result<Loaded, CaseFault>
    requires { IfSome snapshot (λ s. s.now.revision ≡ revision → IsSnapshotOf rules.now chain.now aggregate.now log.now.cells s.now) }
    ensures { IfOk result (λ loaded. steps.new ≡ steps.old + loaded.steps) }
{
    let state = load(
        alloc, log, rules, chain, revision, snapshot, aggregate, steps,
    )?;
    let from = saved(revision, snapshot);
    let steps = count_from(alloc, log, chain, aggregate, from)?;
    Ok(Loaded { state, steps })
}
