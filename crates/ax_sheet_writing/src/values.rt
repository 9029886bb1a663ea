ghost use Rattle.std.specs.Prelude.{◌≡◌, [], ◌∷◌, ◌++◌, IfOk, OnOk, map, true};
ghost use Rattle.serde_json.specs.Data.{array, object, boolean, string, put};
ghost use Rattle.serde_json.specs.View.{view, items_view, items_of, members_view};
ghost use Rattle.ax_sheet_writing.specs.Text.{int_data, small_data, copy_data, value_data, given_data, two_data, three_data, put_flag};

use ax_values::{Given, Name, NoMemory, Text, Value};
use serde_json::{Map, Value as Json, put};
use std::alloc::Global;

pub(crate) fn list(values: Vec<Json>) -> Json
    ensures { view result ≡ array (items_view values.items) }
{
    Json::Array(values)
}

pub(crate) fn members(map: Map<String, Json>) -> Json
    ensures { view result ≡ object (members_view map.entries) }
{
    Json::Object(map)
}

pub(crate) fn two(alloc: Global, first: Json, second: Json) -> Result<Json, NoMemory>
    ensures { IfOk result (λ value. view value ≡ two_data (view first) (view second)) }
{
    let mut values = Vec::with_capacity(alloc, 2)?;
    values.push(first)?;
    values.push(second)?;
    Ok(list(values))
}

pub(crate) fn three(alloc: Global, first: Json, second: Json, third: Json) -> Result<Json, NoMemory>
    ensures { IfOk result (λ value. view value ≡ three_data (view first) (view second) (view third)) }
{
    let mut values = Vec::with_capacity(alloc, 3)?;
    values.push(first)?;
    values.push(second)?;
    values.push(third)?;
    Ok(list(values))
}

pub(crate) fn word(alloc: Global, text: &str) -> Result<Json, NoMemory>
    ensures { IfOk result (λ value. view value ≡ string text.now) }
{
    Ok(Json::try_from_str(alloc, text)?)
}

pub(crate) fn small(number: u32) -> Json
    ensures { view result ≡ small_data number }
{
    Json::from(number)
}

pub(crate) fn int(number: i64) -> Json
    ensures { view result ≡ int_data number }
{
    Json::from(number)
}

/// The name as a text.
pub(crate) fn name_str(name: &Name) -> &str
    ensures { result.now ≡ name.now }
{
    match std::str::from_utf8(name.parts()) {
        Ok(text) => text,
        Err(_) => unreachable!(),
    }
}

fn content_str(text: &Text) -> &str
    ensures { result.now ≡ text.now }
{
    match std::str::from_utf8(text.parts()) {
        Ok(text) => text,
        Err(_) => unreachable!(),
    }
}

pub(crate) fn named(alloc: Global, name: &Name) -> Result<Json, NoMemory>
    ensures { IfOk result (λ value. view value ≡ string name.now) }
{
    word(alloc, name_str(name))
}

/// `$` and the name.
pub(crate) fn copy_of(alloc: Global, name: &Name) -> Result<Json, NoMemory>
    ensures { IfOk result (λ value. view value ≡ copy_data name.now) }
{
    let mut text = String::from_str(alloc, "$")?;
    text.push_str(name_str(name))?;
    word(alloc, text.as_str())
}

pub(crate) fn value_data(alloc: Global, value: &Value) -> Result<Json, NoMemory>
    ensures { IfOk result (λ made. view made ≡ value_data value.now) }
{
    match value {
        Value::Int(number) => Ok(int(*number)),
        Value::Text(text) => word(alloc, content_str(text)),
    }
}

pub(crate) fn given_data(alloc: Global, given: &Given) -> Result<Json, NoMemory>
    ensures { IfOk result (λ made. view made ≡ given_data given.now) }
{
    match given {
        Given::Copy(name) => copy_of(alloc, name),
        Given::Just(value) => value_data(alloc, value),
    }
}

/// Adds a flag that is true.
pub(crate) fn put_flag(
    alloc: Global,
    key: &str,
    flag: bool,
    map: &mut Map<String, Json>,
) -> Result<(), NoMemory>
    ensures { OnOk result (members_view map.new.entries ≡ put_flag key.now flag (members_view map.old.entries)) }
{
    if flag {
        put(map, alloc, key, Json::from(true))?;
    }
    Ok(())
}
