ghost use Rattle.std.specs.Prelude.{◌≡◌, IfOk, codes};
ghost use Rattle.serde_json.specs.View.{view, members_view};
ghost use Rattle.ax_sheet_writing.specs.Text.{head_data, sheet_data};

use crate::parts::{list_of, object_of};
use crate::rules::rules_data;
use crate::values::{members, named, small};
use ax_sheet_parts::SheetParts;
use ax_values::NoMemory;
use serde_json::{Map, Value, put};
use std::alloc::Global;

/// Name, revision, upcasters and aggregate.
#[tactic(auto, unfolding(crate::specs::Text::head_data))]
fn head_data(alloc: Global, sheet: &SheetParts) -> Result<Map<String, Value>, NoMemory>
    ensures { IfOk result (λ map. members_view map.entries ≡ head_data sheet.now) }
{
    let name = named(alloc, &sheet.name)?;
    let upcasters = list_of(alloc, sheet.aggregate.fields(), sheet.chain.parts())?;
    let aggregate = rules_data(alloc, &sheet.aggregate)?;
    let mut map = Map::new(alloc);
    put(&mut map, alloc, "sheet", name)?;
    put(&mut map, alloc, "revision", small(sheet.revision))?;
    put(&mut map, alloc, "upcast", upcasters)?;
    put(&mut map, alloc, "aggregate", aggregate)?;
    Ok(map)
}

/// The JSON value of a sheet.
#[tactic(auto, unfolding(crate::specs::Text::sheet_data))]
pub fn sheet_data(alloc: Global, sheet: &SheetParts) -> Result<Value, NoMemory>
    ensures value { IfOk result (λ made. view made ≡ sheet_data sheet.now) }
{
    let fields = sheet.aggregate.fields();
    let commands = object_of(alloc, fields, sheet.commands.parts())?;
    let projections = object_of(alloc, fields, sheet.projections.parts())?;
    let sagas = object_of(alloc, fields, sheet.sagas.parts())?;
    let mut map = head_data(alloc, sheet)?;
    put(&mut map, alloc, "commands", commands)?;
    put(&mut map, alloc, "projections", projections)?;
    put(&mut map, alloc, "sagas", sagas)?;
    Ok(members(map))
}
