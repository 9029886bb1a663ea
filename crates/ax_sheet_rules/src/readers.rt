ghost use Rattle.std.specs.Prelude.{◌≡◌, IfOk, false, map, option_map};
ghost use Rattle.serde_json.specs.View.{view, items_view};
ghost use Rattle.serde_json.specs.Find.{as_bool};
ghost use Rattle.ax_sheet_rules.specs.Members.{small_of, int_of, name_of, count_of, object_of, optional, wanted, only_item, two_items, three_items, pair_of, triple_of};

use ax_values::{Name, NoMemory};
use serde_json::Value;
use std::alloc::Global;

/// A whole number of 32 bits.
pub fn small_of(value: &Value) -> Option<u32>
    ensures value { result ≡ small_of (view value.now) }
{
    match value.as_i64() {
        Some(number) if number >= 0 && number < 0x1_0000_0000 => Some(number as u32),
        _ => None,
    }
}

pub fn name_of(alloc: Global, value: &Value) -> Result<Option<Name>, NoMemory>
    ensures value { IfOk result (λ read. read ≡ name_of (view value.now)) }
{
    match value.as_str() {
        Some(text) => Name::read(alloc, text.as_bytes()),
        None => Ok(None),
    }
}

/// How many of these members the value has.
fn count_of(keys: &[&str], value: &Value) -> usize
    ensures { result ≡ count_of (map (λ key. key.now) keys.now) (view value.now) }
{
    let mut found: usize = 0;
    for &key in keys {
        if value.get(key).is_some() {
            found += 1;
        }
    }
    found
}

/// The value, where it is an object without other members.
pub fn object_of<'a>(keys: &[&str], value: &'a Value) -> Option<&'a Value>
    ensures value { option_map (λ found. view found.now) result ≡ object_of (map (λ key. key.now) keys.now) (view value.now) }
{
    let members = value.as_object()?;
    if members.len() == count_of(keys, value) {
        Some(value)
    } else {
        None
    }
}

/// A flag that may be missing, which is then false.
pub fn flag_of(key: &str, value: &Value) -> Option<bool>
    ensures value { result ≡ optional key.now false as_bool (view value.now) }
{
    match value.get(key) {
        Some(flag) => flag.as_bool(),
        None => Some(false),
    }
}

#[tactic(auto, using(crate::proofs::Counts::not_one))]
pub fn only_item(values: &[Value]) -> Option<&Value>
    ensures value { option_map (λ only. view only.now) result ≡ only_item (items_view values.now) }
{
    match values {
        [only] => Some(only),
        _ => None,
    }
}

#[tactic(auto, using(crate::proofs::Counts::no_pair))]
pub fn two_items(values: &[Value]) -> Option<(&Value, &Value)>
    ensures value { option_map (λ two. record { first = view two.0.now; second = view two.1.now }) result ≡ two_items (items_view values.now) }
{
    match values {
        [first, second] => Some((first, second)),
        _ => None,
    }
}

#[tactic(auto, using(crate::proofs::Counts::no_triple))]
pub fn three_items(values: &[Value]) -> Option<(&Value, &Value, &Value)>
    ensures value { option_map (λ three. record { first = view three.0.now; second = view three.1.now; third = view three.2.now }) result ≡ three_items (items_view values.now) }
{
    match values {
        [first, second, third] => Some((first, second, third)),
        _ => None,
    }
}

/// A list of two.
pub fn pair_of(value: &Value) -> Option<(&Value, &Value)>
    ensures value { option_map (λ two. record { first = view two.0.now; second = view two.1.now }) result ≡ pair_of (view value.now) }
{
    two_items(value.as_array()?)
}

/// A list of three.
pub fn triple_of(value: &Value) -> Option<(&Value, &Value, &Value)>
    ensures value { option_map (λ three. record { first = view three.0.now; second = view three.1.now; third = view three.2.now }) result ≡ triple_of (view value.now) }
{
    three_items(value.as_array()?)
}
