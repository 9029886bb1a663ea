ghost use Rattle.std.specs.Prelude.{◌≡◌, IfOk, codes};
ghost use Rattle.serde_json.specs.View.{view, members_view};
ghost use Rattle.ax_sheet_writing.specs.Text.{key_data, from_data, association_data, given_data, dispatch_data, changes_data, handler_data, saga_data};

use crate::parts::{Keyed, Written, object_of, put_list};
use crate::rules::{fields_and_on, put_sets};
use crate::values::{copy_of, given_data, members, name_str, named, put_flag, three, two, word};
use ax_rules::{Association, Dispatch, GivenParam, Handler, Initial, SagaRules, Source};
use ax_sheet_parts::NamedSaga;
use ax_values::NoMemory;
use serde_json::{Map, Value, put};
use std::alloc::Global;

fn key_data(alloc: Global, key: &Source) -> Result<Value, NoMemory>
    ensures { IfOk result (λ made. view made ≡ key_data key.now) }
{
    match key {
        Source::Aggregate => word(alloc, "@"),
        Source::Property(name) => named(alloc, name),
    }
}

fn from_data(alloc: Global, from: &Source) -> Result<Value, NoMemory>
    ensures { IfOk result (λ made. view made ≡ from_data from.now) }
{
    match from {
        Source::Aggregate => word(alloc, "@"),
        Source::Property(name) => copy_of(alloc, name),
    }
}

impl Written for Association {
    ghost written = { λ fields association. association_data association };

    fn data(&self, alloc: Global, _fields: &[Initial]) -> Result<Value, NoMemory> {
        let key = key_data(alloc, &self.key)?;
        let from = from_data(alloc, &self.from)?;
        two(alloc, key, from)
    }
}

impl Written for GivenParam {
    ghost written = { λ fields param. given_data param.given };

    fn data(&self, alloc: Global, _fields: &[Initial]) -> Result<Value, NoMemory> {
        given_data(alloc, &self.given)
    }
}

impl Keyed for GivenParam {
    ghost key = { λ fields param. param.name };

    fn name<'a>(&'a self, _fields: &'a [Initial]) -> &'a str {
        name_str(&self.name)
    }
}

impl Written for Dispatch {
    ghost written = { λ fields dispatch. dispatch_data dispatch };

    fn data(&self, alloc: Global, fields: &[Initial]) -> Result<Value, NoMemory> {
        let command = named(alloc, &self.command)?;
        let target = from_data(alloc, &self.target)?;
        let params = object_of(alloc, fields, self.params.parts())?;
        three(alloc, command, target, params)
    }
}

/// What a handler does to the row and to associations.
#[tactic(auto, unfolding(crate::specs::Text::changes_data))]
fn changes_data(
    alloc: Global,
    fields: &[Initial],
    handler: &Handler,
) -> Result<Map<String, Value>, NoMemory>
    ensures { IfOk result (λ map. members_view map.entries ≡ changes_data fields.now handler.now) }
{
    let mut map = Map::new(alloc);
    put_list(alloc, fields, "guards", handler.guards.parts(), &mut map)?;
    put_sets(alloc, fields, handler.sets.parts(), &mut map)?;
    put_list(
        alloc,
        fields,
        "associate",
        handler.associate.parts(),
        &mut map,
    )?;
    put_list(
        alloc,
        fields,
        "dissociate",
        handler.dissociate.parts(),
        &mut map,
    )?;
    Ok(map)
}

impl Written for Handler {
    ghost written = { handler_data };

    #[tactic(auto, unfolding(crate::specs::Text::handler_data))]
    fn data(&self, alloc: Global, fields: &[Initial]) -> Result<Value, NoMemory> {
        let by = key_data(alloc, &self.by)?;
        let mut map = changes_data(alloc, fields, self)?;
        put_list(alloc, fields, "send", self.send.parts(), &mut map)?;
        put_flag(alloc, "start", self.start, &mut map)?;
        put_flag(alloc, "end", self.end, &mut map)?;
        put(&mut map, alloc, "by", by)?;
        Ok(members(map))
    }
}

impl Keyed for Handler {
    ghost key = { λ fields handler. handler.kind };

    fn name<'a>(&'a self, _fields: &'a [Initial]) -> &'a str {
        name_str(&self.kind)
    }
}

#[tactic(auto, unfolding(crate::specs::Text::saga_data))]
fn saga_data(alloc: Global, rules: &SagaRules) -> Result<Value, NoMemory>
    ensures { IfOk result (λ made. view made ≡ saga_data rules.now) }
{
    let fields = object_of(alloc, rules.fields(), rules.fields())?;
    let on = object_of(alloc, rules.fields(), rules.handlers())?;
    fields_and_on(alloc, fields, on)
}

impl Written for NamedSaga {
    ghost written = { λ fields named. saga_data named.rules };

    fn data(&self, alloc: Global, _fields: &[Initial]) -> Result<Value, NoMemory> {
        saga_data(alloc, &self.rules)
    }
}

impl Keyed for NamedSaga {
    ghost key = { λ fields named. named.name };

    fn name<'a>(&'a self, _fields: &'a [Initial]) -> &'a str {
        name_str(&self.name)
    }
}
