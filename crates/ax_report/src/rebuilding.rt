ghost use Rattle.std.specs.Prelude.{◌≡◌, ◌<◌, ◌++◌, length, IfOk, OnOk, OnErr};
ghost use Rattle.ax_world.specs.WorldTables.{state_of};
ghost use Rattle.ax_report.specs.Reports.{processor_lines, rebuild_lines, rebuild_text};

use crate::line::processor_line;
use crate::rows::add_rows;
use ax_journal::{Lines, write_lines};
use ax_projections::rebuild;
use ax_values::NoMemory;
use ax_world::World;
use std::alloc::Global;

/// Adds the text of a rebuild: for each projection processor, in the order of the head, a line of its name, and the rows
/// that its rules make of the log alone. Where memory is wanting, nothing is added.
pub fn rebuild_text(alloc: Global, world: &World, out: &mut Vec<u8>) -> Result<(), NoMemory>
    ensures ok { OnOk result (out.new.items ≡ out.old.items ++ rebuild_text (state_of world.now.tables)) }
    ensures err { OnErr result (out.new.items ≡ out.old.items) }
{
    let lines = rebuild_lines(alloc, world)?;
    write_lines(lines.parts(), out)
}

fn rebuild_lines(alloc: Global, world: &World) -> Result<Lines, NoMemory>
    ensures { IfOk result (λ lines. lines ≡ rebuild_lines (state_of world.now.tables)) }
{
    let mut lines = Lines::new(alloc);
    world.facts();
    for number in 0..world.processors().parts().len() {
        add_rebuilt(alloc, world, number as u32, &mut lines)?;
    }
    Ok(lines)
}

/// Adds the lines of one processor, unless it is of a saga.
fn add_rebuilt(
    alloc: Global,
    world: &World,
    processor: u32,
    lines: &mut Lines,
) -> Result<(), NoMemory>
    requires { processor < length world.now.tables.setting.processors }
    ensures { OnOk result (lines.new ≡ lines.old ++ processor_lines (state_of world.now.tables) processor) }
{
    let declared = &world.processors().parts()[processor as usize];
    if declared.saga {
        return Ok(());
    }
    lines.push(processor_line(alloc, declared)?)?;
    let rules = world.projection(processor);
    let table = rebuild(alloc, world.log().cells(), world.sheet().chain(), rules)?;
    add_rows(alloc, rules.fields(), &table, lines)
}
