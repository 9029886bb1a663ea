ghost use Rattle.std.specs.Prelude.{◌≡◌, ◌≤◌, IfOk, length, codes, option_map};
ghost use Rattle.serde_json.specs.View.{view};
ghost use Rattle.ax_sheet_rules.specs.Members.{object_of, wanted};
ghost use Rattle.ax_sheet_rules.specs.Shape.{projection_of, is_saga, are_apart, sheet_keys, chain_of, sheet_of, sheet_around, json_in, sheet_in};

use crate::command::CommandReader;
use crate::saga::SagaReader;
use crate::upcasters::chain_of;
use ax_rules::Rules;
use ax_sheet_parts::{NamedRules, NamedSaga, SheetParts};
use ax_sheet_rules::{ReadsMember, name_of, object_of, rules_of, small_of, wanted_object};
use ax_upcast::Chain;
use ax_values::{Name, NoMemory};
use serde_json::{Category, Value};
use std::alloc::Global;

/// The sheet that a text is, where it is one.
#[tactic(auto, unfolding(ax_sheet_rules::specs::Shape::sheet_in))]
pub fn sheet_in(alloc: Global, text: &[u8]) -> Result<Option<SheetParts>, NoMemory>
    ensures value { IfOk result (λ sheet. sheet ≡ sheet_in text.now) }
{
    match json_in(alloc, text)? {
        Some(value) => sheet_of(alloc, &value),
        None => Ok(None),
    }
}

/// The JSON value that a text is.
fn json_in(alloc: Global, text: &[u8]) -> Result<Option<Value>, NoMemory>
    ensures { IfOk result (λ read. option_map view read ≡ json_in text.now) }
{
    match Value::from_slice(alloc, text) {
        Ok(value) => Ok(Some(value)),
        Err(error) => match error.classify() {
            Category::Memory => Err(NoMemory),
            _ => Ok(None),
        },
    }
}

/// Reads projections.
#[derive(Drop)]
struct ProjectionReader;

impl ReadsMember for ProjectionReader {
    type Part = NamedRules;

    ghost read = { λ reader. projection_of };

    #[tactic(auto, unfolding(ax_sheet_rules::specs::Shape::projection_of))]
    fn member(
        &self,
        alloc: Global,
        name: Name,
        value: &Value,
    ) -> Result<Option<NamedRules>, NoMemory> {
        match rules_of(alloc, true, value)? {
            Some(rules) => Ok(Some(NamedRules { name, rules })),
            None => Ok(None),
        }
    }
}

fn is_saga(sagas: &[NamedSaga], name: &Name) -> bool
    ensures { result ≡ is_saga sagas.now name.now }
{
    sagas.iter().any(|saga| saga.name.same(name))
}

fn are_apart(projections: &[NamedRules], sagas: &[NamedSaga]) -> bool
    ensures { result ≡ are_apart projections.now sagas.now }
{
    projections
        .iter()
        .all(|projection| !is_saga(sagas, &projection.name))
}

fn sheet_object(value: &Value) -> Option<&Value>
    ensures { option_map (λ found. view found.now) result ≡ object_of sheet_keys (view value.now) }
{
    object_of(
        &[
            "sheet",
            "revision",
            "aggregate",
            "commands",
            "upcast",
            "projections",
            "sagas",
        ],
        value,
    )
}

/// The sheet that a JSON value is.
#[tactic(auto, unfolding(ax_sheet_rules::specs::Shape::sheet_of))]
fn sheet_of(alloc: Global, value: &Value) -> Result<Option<SheetParts>, NoMemory>
    ensures { IfOk result (λ sheet. sheet ≡ sheet_of (view value.now)) }
{
    let Some(object) = sheet_object(value) else {
        return Ok(None);
    };
    let (Some(name), Some(revision), Some(aggregate)) = (
        object.get("sheet"),
        object.get("revision"),
        object.get("aggregate"),
    ) else {
        return Ok(None);
    };
    let Some(name) = name_of(alloc, name)? else {
        return Ok(None);
    };
    let Some(revision) = small_of(revision) else {
        return Ok(None);
    };
    match rules_of(alloc, false, aggregate)? {
        Some(aggregate) => sheet_around(alloc, name, revision, aggregate, object),
        None => Ok(None),
    }
}

/// The sheet with this aggregate and the other members of the object.
#[tactic(auto, unfolding(ax_sheet_rules::specs::Shape::sheet_around))]
fn sheet_around(
    alloc: Global,
    name: Name,
    revision: u32,
    aggregate: Rules,
    object: &Value,
) -> Result<Option<SheetParts>, NoMemory>
    requires { length aggregate.fields ≤ 8 }
    ensures { IfOk result (λ sheet. sheet ≡ sheet_around name revision aggregate (view object.now)) }
{
    let reader = CommandReader {
        fields: aggregate.fields(),
    };
    let Some(commands) = wanted_object(alloc, &reader, "commands", object)? else {
        return Ok(None);
    };
    let Some(chain) = wanted_chain(alloc, object)? else {
        return Ok(None);
    };
    let Some(projections) = wanted_object(alloc, &ProjectionReader, "projections", object)? else {
        return Ok(None);
    };
    let reader = SagaReader {
        commands: commands.parts(),
    };
    let Some(sagas) = wanted_object(alloc, &reader, "sagas", object)? else {
        return Ok(None);
    };
    if !are_apart(projections.parts(), sagas.parts()) {
        return Ok(None);
    }
    Ok(Some(SheetParts {
        name,
        revision,
        aggregate,
        commands,
        chain,
        projections,
        sagas,
    }))
}

fn wanted_chain(alloc: Global, object: &Value) -> Result<Option<Chain>, NoMemory>
    ensures { IfOk result (λ chain. chain ≡ wanted (codes "upcast") chain_of (view object.now)) }
{
    match object.get("upcast") {
        Some(upcasters) => chain_of(alloc, upcasters),
        None => Ok(None),
    }
}
