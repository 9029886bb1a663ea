ghost use Rattle.std.specs.Prelude.{◌≡◌, map, IfOk};
ghost use Rattle.ax_report.specs.Reports.{AreNames};

use ax_projections::Table;
use ax_values::{Duplicate, Name, NoMemory};
use std::alloc::Global;

/// The names of the table's rows, in the order of the rows.
fn names_of(alloc: Global, table: &Table) -> Result<Vec<Name>, NoMemory>
    ensures { IfOk result (λ names. names.items ≡ map (λ row. row.name) table.now.entries) }
{
    let mut names = Vec::new(alloc);
    for place in 0..table.len() {
        let Some((name, _)) = table.at(place) else {
            unreachable!()
        };
        names.push(name.copy(alloc)?)?;
    }
    Ok(names)
}

/// The names of the table's rows, in the order of their bytes.
pub(crate) fn sorted_names(alloc: Global, table: &Table) -> Result<Vec<Name>, NoMemory>
    ensures { IfOk result (λ names. AreNames table.now.entries names.items) }
{
    let _ = table.len();
    let mut names = names_of(alloc, table)?;
    names.sort()?;
    Ok(names)
}
