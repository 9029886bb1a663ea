ghost use Rattle.std.specs.Prelude.{◌≡◌, IfOk, IfSome, option_map};
ghost use Rattle.serde_json.specs.View.{view, items_view};
ghost use Rattle.ax_upcast.specs.Upcast.{KeepsLimit, keeps_limit};
ghost use Rattle.ax_sheet_rules.specs.Shape.{value_of, rename_of, default_of, retype_of, split_of, remove_of, act_by, act_in, act_of, upcaster_of, chain_of};

use ax_sheet_rules::{
    Names, ReadsItem, given_of, list_of, name_of, object_of, only_item, pair_of, small_of,
    templates_of, three_items, two_items,
};
use ax_upcast::{Act, Chain, Upcaster, keeps_limit};
use ax_values::{Given, NoMemory, Value};
use serde_json::Value as Json;
use std::alloc::Global;

/// A constant.
#[tactic(auto, unfolding(ax_sheet_rules::specs::Shape::value_of))]
fn value_of(alloc: Global, value: &Json) -> Result<Option<Value>, NoMemory>
    ensures { IfOk result (λ read. read ≡ value_of (view value.now)) }
{
    match given_of(alloc, Names::Nothing, value)? {
        Some(Given::Just(value)) => Ok(Some(value)),
        _ => Ok(None),
    }
}

#[tactic(auto, unfolding(ax_sheet_rules::specs::Shape::rename_of))]
fn rename_of(alloc: Global, values: &[Json]) -> Result<Option<Act>, NoMemory>
    ensures { IfOk result (λ act. act ≡ rename_of (items_view values.now)) }
{
    let Some((old, new, revision)) = three_items(values) else {
        return Ok(None);
    };
    let Some(old) = name_of(alloc, old)? else {
        return Ok(None);
    };
    let Some(new) = name_of(alloc, new)? else {
        return Ok(None);
    };
    match small_of(revision) {
        Some(revision) => Ok(Some(Act::Rename { old, new, revision })),
        None => Ok(None),
    }
}

#[tactic(auto, unfolding(ax_sheet_rules::specs::Shape::default_of))]
fn default_of(alloc: Global, values: &[Json]) -> Result<Option<Act>, NoMemory>
    ensures { IfOk result (λ act. act ≡ default_of (items_view values.now)) }
{
    let Some((name, value, revision)) = three_items(values) else {
        return Ok(None);
    };
    let Some(name) = name_of(alloc, name)? else {
        return Ok(None);
    };
    let Some(value) = value_of(alloc, value)? else {
        return Ok(None);
    };
    match small_of(revision) {
        Some(revision) => Ok(Some(Act::Default {
            name,
            value,
            revision,
        })),
        None => Ok(None),
    }
}

#[tactic(auto, unfolding(ax_sheet_rules::specs::Shape::retype_of))]
fn retype_of(alloc: Global, values: &[Json]) -> Result<Option<Act>, NoMemory>
    ensures { IfOk result (λ act. act ≡ retype_of (items_view values.now)) }
{
    let Some((kind, revision)) = two_items(values) else {
        return Ok(None);
    };
    let Some(kind) = name_of(alloc, kind)? else {
        return Ok(None);
    };
    match small_of(revision) {
        Some(revision) => Ok(Some(Act::Retype { kind, revision })),
        None => Ok(None),
    }
}

#[tactic(auto, unfolding(ax_sheet_rules::specs::Shape::split_of))]
fn split_of(alloc: Global, values: &[Json]) -> Result<Option<Act>, NoMemory>
    ensures { IfOk result (λ act. act ≡ split_of (items_view values.now)) }
{
    match only_item(values) {
        Some(parts) => Ok(templates_of(alloc, Names::Any, parts)?.map(Act::Split)),
        None => Ok(None),
    }
}

#[tactic(auto, using(ax_sheet_rules::proofs::Counts::not_removed))]
fn remove_of(values: &[Json]) -> Option<Act>
    ensures { result ≡ remove_of (items_view values.now) }
{
    match values {
        [] => Some(Act::Remove),
        _ => None,
    }
}

/// An act by its word and what follows it.
fn act_by(alloc: Global, word: &[u8], values: &[Json]) -> Result<Option<Act>, NoMemory>
    ensures { IfOk result (λ act. act ≡ act_by word.now (items_view values.now)) }
{
    if word == b"rename".as_slice() {
        rename_of(alloc, values)
    } else if word == b"default".as_slice() {
        default_of(alloc, values)
    } else if word == b"retype".as_slice() {
        retype_of(alloc, values)
    } else if word == b"split".as_slice() {
        split_of(alloc, values)
    } else if word == b"remove".as_slice() {
        Ok(remove_of(values))
    } else {
        Ok(None)
    }
}

#[tactic(auto, unfolding(ax_sheet_rules::specs::Shape::act_of))]
fn act_of(alloc: Global, value: &Json) -> Result<Option<Act>, NoMemory>
    ensures { IfOk result (λ act. act ≡ act_of (view value.now)) }
{
    let Some(values) = value.as_array() else {
        return Ok(None);
    };
    let [word, values @ ..] = values.as_slice() else {
        return Ok(None);
    };
    match word.as_str() {
        Some(word) => act_by(alloc, word.as_bytes(), values),
        None => Ok(None),
    }
}

/// Reads upcasters.
#[derive(Drop)]
struct UpcasterReader;

impl ReadsItem for UpcasterReader {
    type Part = Upcaster;

    ghost read = { λ reader. upcaster_of };

    #[tactic(auto, unfolding(ax_sheet_rules::specs::Shape::upcaster_of))]
    fn item(&self, alloc: Global, value: &Json) -> Result<Option<Upcaster>, NoMemory> {
        let Some(object) = object_of(&["from", "do"], value) else {
            return Ok(None);
        };
        let Some(from) = object.get("from") else {
            return Ok(None);
        };
        let Some((kind, revision)) = pair_of(from) else {
            return Ok(None);
        };
        let Some(kind) = name_of(alloc, kind)? else {
            return Ok(None);
        };
        let Some(revision) = small_of(revision) else {
            return Ok(None);
        };
        let Some(act) = object.get("do") else {
            return Ok(None);
        };
        match act_of(alloc, act)? {
            Some(act) => Ok(Some(Upcaster {
                kind,
                revision,
                act,
            })),
            None => Ok(None),
        }
    }
}

/// At most 64 upcasters, after each of which no record gives more than 8 items.
#[tactic(auto, unfolding(ax_sheet_rules::specs::Shape::chain_of))]
pub(crate) fn chain_of(alloc: Global, value: &Json) -> Result<Option<Chain>, NoMemory>
    ensures { IfOk result (λ chain. chain ≡ chain_of (view value.now)) }
{
    let Some(upcasters) = list_of(alloc, &UpcasterReader, value)? else {
        return Ok(None);
    };
    if upcasters.parts().len() <= 64 && keeps_limit(alloc, upcasters.parts())? {
        Ok(Some(Chain::of(upcasters.into_parts())))
    } else {
        Ok(None)
    }
}
