ghost use Rattle.std.specs.Prelude.{◌≡◌, ◌≤◌, IfOk, length};
ghost use Rattle.std.specs.List.{list_all};
ghost use Rattle.serde_json.specs.View.{view};
ghost use Rattle.ax_sheet_parts.specs.Sheet.{fits_record};
ghost use Rattle.ax_sheet_rules.specs.Shape.{kind_of, param_of, params_of, events_of, command_of};

use ax_rules::{Initial, ParamKind};
use ax_sheet_parts::{Command, NamedCommand, Param, Params};
use ax_sheet_rules::{Names, ReadsMember, guards_of, named_of, object_of, templates_of};
use ax_upcast::{Template, Templates};
use ax_values::{Name, NoMemory};
use serde_json::Value;
use std::alloc::Global;

fn kind_of(word: &[u8]) -> Option<ParamKind>
    ensures { result ≡ kind_of word.now }
{
    match word {
        b"int" => Some(ParamKind::Int),
        b"text" => Some(ParamKind::Text),
        _ => None,
    }
}

/// Reads parameters.
#[derive(Drop)]
struct ParamReader;

impl ReadsMember for ParamReader {
    type Part = Param;

    ghost read = { λ reader. param_of };

    #[tactic(auto, unfolding(ax_sheet_rules::specs::Shape::param_of))]
    fn member(&self, _alloc: Global, name: Name, value: &Value) -> Result<Option<Param>, NoMemory> {
        match value.as_str().and_then(|word| kind_of(word.as_bytes())) {
            Some(kind) => Ok(Some(Param { name, kind })),
            None => Ok(None),
        }
    }
}

/// At most 16 parameters.
#[tactic(auto, unfolding(ax_sheet_rules::specs::Shape::params_of))]
fn params_of(alloc: Global, value: &Value) -> Result<Option<Params>, NoMemory>
    ensures { IfOk result (λ params. params ≡ params_of (view value.now)) }
{
    match named_of(alloc, &ParamReader, value)? {
        Some(params) if params.parts().len() <= 16 => Ok(Some(params)),
        _ => Ok(None),
    }
}

fn fits_record(template: &Template) -> bool
    ensures { result ≡ fits_record template.now }
{
    template.fields.parts().len() <= 16
}

fn fit_records(templates: &[Template]) -> bool
    ensures { result ≡ list_all fits_record templates.now }
{
    templates.iter().all(|template| fits_record(template))
}

/// Events that copy parameters.
#[tactic(auto, unfolding(ax_sheet_rules::specs::Shape::events_of))]
fn events_of(alloc: Global, params: &[Param], value: &Value) -> Result<Option<Templates>, NoMemory>
    ensures { IfOk result (λ events. events ≡ events_of params.now (view value.now)) }
{
    match templates_of(alloc, Names::Of(params), value)? {
        Some(events) if fit_records(events.parts()) => Ok(Some(events)),
        _ => Ok(None),
    }
}

/// Reads the commands of an aggregate with these fields.
#[derive(Drop)]
pub(crate) struct CommandReader<'a> {
    pub(crate) fields: &'a [Initial],
    ghost few: { length fields.now ≤ 8 },
}

impl ReadsMember for CommandReader<'_> {
    type Part = NamedCommand;

    ghost read = { λ reader. command_of reader.fields.now };

    #[tactic(auto, unfolding(ax_sheet_rules::specs::Shape::command_of))]
    fn member(
        &self,
        alloc: Global,
        name: Name,
        value: &Value,
    ) -> Result<Option<NamedCommand>, NoMemory> {
        let Some(object) = object_of(&["params", "guards", "events"], value) else {
            return Ok(None);
        };
        let (Some(params), Some(guards), Some(events)) = (
            object.get("params"),
            object.get("guards"),
            object.get("events"),
        ) else {
            return Ok(None);
        };
        let Some(params) = params_of(alloc, params)? else {
            return Ok(None);
        };
        let names = Names::Ints(params.parts());
        let Some(guards) = guards_of(alloc, self.fields, names, guards)? else {
            return Ok(None);
        };
        let Some(events) = events_of(alloc, params.parts(), events)? else {
            return Ok(None);
        };
        let command = Command::of(params, guards, events);
        Ok(Some(NamedCommand { name, command }))
    }
}
