ghost use Rattle.std.specs.Prelude.{◌≡◌, ◌++◌, map, OnOk};
ghost use Rattle.ax_projections.specs.Table.{look_up};
ghost use Rattle.ax_report.specs.Reports.{shown_of, listed, line_of, AddsRows};

use crate::line::row_line;
use crate::names::sorted_names;
use ax_journal::Lines;
use ax_projections::Table;
use ax_rules::Initial;
use ax_values::{Name, NoMemory};
use std::alloc::Global;

/// Adds the line of the name's row, where the table has one.
fn add_row(
    alloc: Global,
    fields: &[Initial],
    table: &Table,
    name: &Name,
    lines: &mut Lines,
) -> Result<(), NoMemory>
    ensures { OnOk result (lines.new ≡ lines.old ++ map (line_of fields.now) (shown_of name.now (look_up name.now table.now.entries))) }
{
    match table.get(name) {
        Some(value) => lines.push(row_line(alloc, fields, name, value)?),
        None => Ok(()),
    }
}

fn add_each(
    alloc: Global,
    fields: &[Initial],
    table: &Table,
    names: &[Name],
    lines: &mut Lines,
) -> Result<(), NoMemory>
    ensures { OnOk result (lines.new ≡ lines.old ++ map (line_of fields.now) (listed table.now.entries names.now)) }
{
    for name in names {
        add_row(alloc, fields, table, name, lines)?;
    }
    Ok(())
}

/// Adds the lines of the table's rows, in the order of their names.
pub(crate) fn add_rows(
    alloc: Global,
    fields: &[Initial],
    table: &Table,
    lines: &mut Lines,
) -> Result<(), NoMemory>
    ensures { OnOk result (AddsRows fields.now table.now.entries lines.old lines.new) }
{
    let names = sorted_names(alloc, table)?;
    add_each(alloc, fields, table, &names, lines)
}
