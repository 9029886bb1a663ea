ghost use Rattle.std.specs.Prelude.{◌≡◌, [], Option, IfOk};
ghost use Rattle.serde_json.specs.Data.{Data};
ghost use Rattle.serde_json.specs.View.{view, items_view, members_view};
ghost use Rattle.ax_values.specs.Grammar.{Line};
ghost use Rattle.ax_sheet_rules.specs.Members.{each_item, each_member, list_of, named_of, wanted, optional};

use ax_values::{ListOf, Name, NoMemory};
use serde_json::{Map, Value};
use std::alloc::Global;

/// What reads an item of a list.
pub trait ReadsItem {
    type Part: Drop;

    ghost read: { Self → Data → Option Self.Part };

    fn item(&self, alloc: Global, value: &Value) -> Result<Option<Self::Part>, NoMemory>
        ensures { IfOk result (λ part. part ≡ read self.now (view value.now)) };
}

/// What reads a member of an object whose names are names.
pub trait ReadsMember {
    type Part: Drop;

    ghost read: { Self → Line → Data → Option Self.Part };

    fn member(
        &self,
        alloc: Global,
        name: Name,
        value: &Value,
    ) -> Result<Option<Self::Part>, NoMemory>
        ensures { IfOk result (λ part. part ≡ read self.now name (view value.now)) };
}

fn each_item<R: ReadsItem>(
    alloc: Global,
    reader: &R,
    values: &[Value],
) -> Result<Option<ListOf<R::Part>>, NoMemory>
    ensures { IfOk result (λ parts. parts ≡ each_item (R.read reader.now) (items_view values.now)) }
{
    let mut parts = ListOf::new(alloc);
    for value in values {
        match reader.item(alloc, value)? {
            Some(part) => parts.push(part)?,
            None => return Ok(None),
        }
    }
    Ok(Some(parts))
}

fn each_member<R: ReadsMember>(
    alloc: Global,
    reader: &R,
    members: &Map<String, Value>,
) -> Result<Option<ListOf<R::Part>>, NoMemory>
    ensures { IfOk result (λ parts. parts ≡ each_member (R.read reader.now) (members_view members.now.entries)) }
{
    let mut parts = ListOf::new(alloc);
    for (key, value) in members.iter() {
        let Some(name) = Name::read(alloc, key.as_bytes())? else {
            return Ok(None);
        };
        match reader.member(alloc, name, value)? {
            Some(part) => parts.push(part)?,
            None => return Ok(None),
        }
    }
    Ok(Some(parts))
}

/// A list, each item of it read.
pub fn list_of<R: ReadsItem>(
    alloc: Global,
    reader: &R,
    value: &Value,
) -> Result<Option<ListOf<R::Part>>, NoMemory>
    ensures value { IfOk result (λ parts. parts ≡ list_of (R.read reader.now) (view value.now)) }
{
    match value.as_array() {
        Some(values) => each_item(alloc, reader, values.as_slice()),
        None => Ok(None),
    }
}

/// An object, each member of it read.
pub fn named_of<R: ReadsMember>(
    alloc: Global,
    reader: &R,
    value: &Value,
) -> Result<Option<ListOf<R::Part>>, NoMemory>
    ensures value { IfOk result (λ parts. parts ≡ named_of (R.read reader.now) (view value.now)) }
{
    match value.as_object() {
        Some(members) => each_member(alloc, reader, members),
        None => Ok(None),
    }
}

/// A member that is a list, and may be missing.
pub fn optional_list<R: ReadsItem>(
    alloc: Global,
    reader: &R,
    key: &str,
    value: &Value,
) -> Result<Option<ListOf<R::Part>>, NoMemory>
    ensures value { IfOk result (λ parts. parts ≡ optional key.now [] (list_of (R.read reader.now)) (view value.now)) }
{
    match value.get(key) {
        Some(list) => list_of(alloc, reader, list),
        None => Ok(Some(ListOf::new(alloc))),
    }
}

/// A member that is an object, and must be there.
pub fn wanted_object<R: ReadsMember>(
    alloc: Global,
    reader: &R,
    key: &str,
    value: &Value,
) -> Result<Option<ListOf<R::Part>>, NoMemory>
    ensures value { IfOk result (λ parts. parts ≡ wanted key.now (named_of (R.read reader.now)) (view value.now)) }
{
    match value.get(key) {
        Some(object) => named_of(alloc, reader, object),
        None => Ok(None),
    }
}
