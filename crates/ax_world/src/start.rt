ghost use Rattle.std.specs.Prelude.{◌≡◌, ◌+◌, ◌^◌, ◌<◌, ◌≤◌, ◌*◌, [], length, map, None, IsTrue, IfOk};
ghost use Rattle.std.specs.List.{list_all};
ghost use Rattle.ax_claims.specs.Rows.{starting};
ghost use Rattle.ax_sheet.specs.Declarations.{most_processors, is_segment_count};
ghost use Rattle.ax_state.specs.State.{fresh_processor, first_processors, row_count};
ghost use Rattle.ax_world.specs.WorldTables.{bare, no_desk};

use crate::Desk;
use crate::place::ProcessorTables;
use ax_claims::Rows;
use ax_letters::Queue;
use ax_projections::Table;
use ax_sheet::Processor;
use ax_values::{Name, NoMemory};
use std::alloc::Global;

/// The first rows of each processor, with fences from 1 on by processor and id. None is whole.
pub(crate) fn first_places(
    alloc: Global,
    processors: &[Processor],
) -> Result<Vec<ProcessorTables>, NoMemory>
    requires few { length processors.now ≤ most_processors }
    requires counts { IsTrue (list_all (λ q. is_segment_count q.segments) processors.now) }
    ensures { IfOk result (λ processor_tables. map (λ x. x.place) processor_tables.items ≡ map (bare None) (first_processors processors.now 1)) }
{
    let mut processor_tables = Vec::with_capacity(alloc, processors.len())?;
    let mut fence = 1;
    for processor in processors {
        processor_tables.push(first_place(alloc, processor.segments, fence)?)?;
        fence += processor.segments as u64;
    }
    Ok(processor_tables)
}

#[tactic(auto, using(ax_state::proofs::SegmentCounts::segment_counts))]
fn first_place(alloc: Global, segments: u32, fence: u64) -> Result<ProcessorTables, NoMemory>
    requires count { IsTrue (is_segment_count segments) }
    requires fences { fence < 2 ^ 60 }
    ensures { IfOk result (λ x. x.place ≡ bare None (fresh_processor (starting segments fence))) }
{
    Ok(ProcessorTables {
        rows: Rows::start(alloc, segments, fence)?,
        queue: Queue::new(alloc, None),
        drops: Vec::new(alloc),
        keep: true,
        marks: Vec::new(alloc),
        table: Table::new(alloc),
    })
}

/// How many segments there are at the start.
pub(crate) fn row_count(processors: &[Processor]) -> u64
    requires few { length processors.now ≤ most_processors }
    ensures { result ≡ row_count processors.now }
{
    let mut count = 0;
    for processor in processors {
        count += processor.segments as u64;
    }
    count
}

pub(crate) fn empty_desks(alloc: Global, actors: &[Name]) -> Result<Vec<Desk>, NoMemory>
    ensures { IfOk result (λ desks. desks.items ≡ map (λ actor. no_desk) actors.now) }
{
    let mut desks = Vec::with_capacity(alloc, actors.len())?;
    for _ in actors {
        desks.push(Desk::empty(alloc))?;
    }
    Ok(desks)
}
