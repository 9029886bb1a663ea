ghost use Rattle.std.specs.Prelude.{◌≡◌, codes};
ghost use Rattle.serde_json.specs.Data.{string};
ghost use Rattle.ax_sheet_writing.specs.Text.{given_data, template_data, kind_text, command_data};

use crate::parts::{Keyed, Written, list_of, object_of};
use crate::values::{given_data, members, name_str, named, small, three, word};
use ax_rules::{Initial, ParamKind};
use ax_sheet_parts::{NamedCommand, Param};
use ax_upcast::{GivenField, Template};
use ax_values::NoMemory;
use serde_json::{Map, Value, put};
use std::alloc::Global;

fn kind_text(kind: ParamKind) -> &'static str
    ensures { result.now ≡ kind_text kind }
{
    match kind {
        ParamKind::Int => "int",
        ParamKind::Text => "text",
    }
}

impl Written for GivenField {
    ghost written = { λ fields field. given_data field.given };

    fn data(&self, alloc: Global, _fields: &[Initial]) -> Result<Value, NoMemory> {
        given_data(alloc, &self.given)
    }
}

impl Keyed for GivenField {
    ghost key = { λ fields field. field.name };

    fn name<'a>(&'a self, _fields: &'a [Initial]) -> &'a str {
        name_str(&self.name)
    }
}

impl Written for Template {
    ghost written = { λ fields template. template_data template };

    #[tactic(auto, unfolding(crate::specs::Text::template_data))]
    fn data(&self, alloc: Global, fields: &[Initial]) -> Result<Value, NoMemory> {
        let kind = named(alloc, &self.kind)?;
        let given = object_of(alloc, fields, self.fields.parts())?;
        three(alloc, kind, small(self.revision), given)
    }
}

impl Written for Param {
    ghost written = { λ fields param. string (kind_text param.kind) };

    fn data(&self, alloc: Global, _fields: &[Initial]) -> Result<Value, NoMemory> {
        word(alloc, kind_text(self.kind))
    }
}

impl Keyed for Param {
    ghost key = { λ fields param. param.name };

    fn name<'a>(&'a self, _fields: &'a [Initial]) -> &'a str {
        name_str(&self.name)
    }
}

impl Written for NamedCommand {
    ghost written = { λ fields named. command_data fields named.command };

    #[tactic(auto, unfolding(crate::specs::Text::command_data))]
    fn data(&self, alloc: Global, fields: &[Initial]) -> Result<Value, NoMemory> {
        let params = object_of(alloc, fields, self.command.params())?;
        let guards = list_of(alloc, fields, self.command.guards())?;
        let events = list_of(alloc, fields, self.command.events())?;
        let mut map = Map::new(alloc);
        put(&mut map, alloc, "params", params)?;
        put(&mut map, alloc, "guards", guards)?;
        put(&mut map, alloc, "events", events)?;
        Ok(members(map))
    }
}

impl Keyed for NamedCommand {
    ghost key = { λ fields named. named.name };

    fn name<'a>(&'a self, _fields: &'a [Initial]) -> &'a str {
        name_str(&self.name)
    }
}
