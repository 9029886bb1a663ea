ghost use Rattle.std.specs.Prelude.{◌≡◌, [], ◌∷◌, IfOk, codes};
ghost use Rattle.serde_json.specs.Data.{string, array};
ghost use Rattle.serde_json.specs.View.{view, items_of};
ghost use Rattle.ax_sheet_writing.specs.Text.{template_data, list_data, act_data, upcaster_data, small_data, value_data, two_data, three_data};

use crate::parts::{Written, list_of};
use crate::values::{list, members, named, small, three, two, value_data, word};
use ax_rules::Initial;
use ax_upcast::{Act, Template, Upcaster};
use ax_values::{Name, NoMemory, Value};
use serde_json::{Map, Value as Json, put};
use std::alloc::Global;

fn four(
    alloc: Global,
    word_text: &str,
    first: Json,
    second: Json,
    third: Json,
) -> Result<Json, NoMemory>
    ensures { IfOk result (λ made. view made ≡ array (items_of (string word_text.now ∷ view first ∷ view second ∷ view third ∷ []))) }
{
    let mut values = Vec::with_capacity(alloc, 4)?;
    values.push(word(alloc, word_text)?)?;
    values.push(first)?;
    values.push(second)?;
    values.push(third)?;
    Ok(list(values))
}

fn rename_data(alloc: Global, old: &Name, new: &Name, revision: u32) -> Result<Json, NoMemory>
    ensures { IfOk result (λ made. view made ≡ array (items_of (string (codes "rename") ∷ string old.now ∷ string new.now ∷ small_data revision ∷ []))) }
{
    let old = named(alloc, old)?;
    let new = named(alloc, new)?;
    four(alloc, "rename", old, new, small(revision))
}

fn default_data(alloc: Global, name: &Name, value: &Value, revision: u32) -> Result<Json, NoMemory>
    ensures { IfOk result (λ made. view made ≡ array (items_of (string (codes "default") ∷ string name.now ∷ value_data value.now ∷ small_data revision ∷ []))) }
{
    let name = named(alloc, name)?;
    let value = value_data(alloc, value)?;
    four(alloc, "default", name, value, small(revision))
}

fn retype_data(alloc: Global, kind: &Name, revision: u32) -> Result<Json, NoMemory>
    ensures { IfOk result (λ made. view made ≡ three_data (string (codes "retype")) (string kind.now) (small_data revision)) }
{
    let retype = word(alloc, "retype")?;
    let kind = named(alloc, kind)?;
    three(alloc, retype, kind, small(revision))
}

fn split_data(alloc: Global, fields: &[Initial], parts: &[Template]) -> Result<Json, NoMemory>
    ensures { IfOk result (λ made. view made ≡ two_data (string (codes "split")) (list_data template_data parts.now)) }
{
    let split = word(alloc, "split")?;
    let parts = list_of(alloc, fields, parts)?;
    two(alloc, split, parts)
}

fn remove_data(alloc: Global) -> Result<Json, NoMemory>
    ensures { IfOk result (λ made. view made ≡ array (items_of (string (codes "remove") ∷ []))) }
{
    let mut values = Vec::with_capacity(alloc, 1)?;
    values.push(word(alloc, "remove")?)?;
    Ok(list(values))
}

/// No part of an act names a declared field: the fields only pass through.
#[tactic(auto, unfolding(crate::specs::Text::act_data))]
fn act_data(alloc: Global, fields: &[Initial], act: &Act) -> Result<Json, NoMemory>
    ensures { IfOk result (λ made. view made ≡ act_data act.now) }
{
    match act {
        Act::Rename { old, new, revision } => rename_data(alloc, old, new, *revision),
        Act::Default {
            name,
            value,
            revision,
        } => default_data(alloc, name, value, *revision),
        Act::Retype { kind, revision } => retype_data(alloc, kind, *revision),
        Act::Split(parts) => split_data(alloc, fields, parts.parts()),
        Act::Remove => remove_data(alloc),
    }
}

impl Written for Upcaster {
    ghost written = { λ fields upcaster. upcaster_data upcaster };

    #[tactic(auto, unfolding(crate::specs::Text::upcaster_data))]
    fn data(&self, alloc: Global, fields: &[Initial]) -> Result<Json, NoMemory> {
        let kind = named(alloc, &self.kind)?;
        let from = two(alloc, kind, small(self.revision))?;
        let act = act_data(alloc, fields, &self.act)?;
        let mut map = Map::new(alloc);
        put(&mut map, alloc, "from", from)?;
        put(&mut map, alloc, "do", act)?;
        Ok(members(map))
    }
}
