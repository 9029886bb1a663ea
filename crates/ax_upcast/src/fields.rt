ghost use Rattle.std.specs.Prelude.{◌≡◌, ◌<◌, length, Some, IsTrue, IfOk, OnOk, OnSome, IfNone, option_copied};
ghost use Rattle.ax_values.specs.Words.{rises, field_below, field_of, field_cmp, put_rising, remove_field};
ghost use Rattle.ax_upcast.specs.Upcast.{given_value, filled, renamed, defaulted};

use crate::GivenField;
use ax_values::{Duplicate, Field, Given, Name, NoMemory, Value};
use std::alloc::Global;

/// The value of a field.
fn value_of<'a>(fields: &'a [Field], name: &Name) -> Option<&'a Value>
    ensures { option_copied result ≡ field_of name.now fields.now }
{
    for field in fields {
        if field.name.same(name) {
            return Some(&field.value);
        }
    }
    None
}

/// Puts the field in its place, or in the place of the one with its name.
fn put(fields: &mut Vec<Field>, field: Field) -> Result<(), NoMemory>
    requires { IsTrue (rises field_below fields.old.items) }
    ensures ok { OnOk result (fields.new.items ≡ put_rising field_cmp field fields.old.items) }
    ensures rising { OnOk result (IsTrue (rises field_below fields.new.items)) }
{
    match field.place_among(fields) {
        Ok(place) => {
            fields[place] = field;
            Ok(())
        }
        Err(place) => {
            fields.insert(place, field)?;
            Ok(())
        }
    }
}

/// Takes the field of a name out, and returns its value.
fn take(fields: &mut Vec<Field>, name: &Name) -> Option<Value>
    requires { IsTrue (rises field_below fields.old.items) }
    ensures value { result ≡ field_of name.now fields.old.items }
    ensures some { OnSome result (fields.new.items ≡ remove_field name.now fields.old.items) }
    ensures none { IfNone result (fields.new.items ≡ fields.old.items) }
    ensures rising { IsTrue (rises field_below fields.new.items) }
{
    for (place, field) in fields.iter().enumerate() {
        if field.name.same(name) {
            return Some(fields.remove(place).value);
        }
    }
    None
}

/// What a field is given.
fn given_value<'a>(given: &'a Given, source: &'a [Field]) -> Option<&'a Value>
    ensures { option_copied result ≡ given_value source.now given.now }
{
    match given {
        Given::Copy(name) => value_of(source, name),
        Given::Just(value) => Some(value),
    }
}

/// The fields of a template, copied ones from the source.
pub(crate) fn filled(
    alloc: Global,
    given: &[GivenField],
    source: &[Field],
) -> Result<Vec<Field>, NoMemory>
    ensures value { IfOk result (λ fields. fields.items ≡ filled given.now source.now) }
    ensures rising { IfOk result (λ fields. IsTrue (rises field_below fields.items)) }
{
    let mut fields = Vec::with_capacity(alloc, given.len())?;
    for part in given {
        if let Some(value) = given_value(&part.given, source) {
            let name = part.name.copy(alloc)?;
            let value = value.copy(alloc)?;
            put(&mut fields, Field { name, value })?;
        }
    }
    Ok(fields)
}

/// Gives the field `old` the name `new`, in the place of a field `new`.
pub(crate) fn rename(
    alloc: Global,
    fields: &mut Vec<Field>,
    old: &Name,
    new: &Name,
) -> Result<(), NoMemory>
    requires { IsTrue (rises field_below fields.old.items) }
    ensures ok { OnOk result (fields.new.items ≡ renamed old.now new.now fields.old.items) }
    ensures rising { OnOk result (IsTrue (rises field_below fields.new.items)) }
{
    if old.same(new) {
        return Ok(());
    }
    match take(fields, old) {
        Some(value) => {
            let name = new.copy(alloc)?;
            put(fields, Field { name, value })
        }
        None => Ok(()),
    }
}

/// Adds the field where it is missing.
pub(crate) fn supply(
    alloc: Global,
    fields: &mut Vec<Field>,
    name: &Name,
    value: &Value,
) -> Result<(), NoMemory>
    requires { IsTrue (rises field_below fields.old.items) }
    ensures ok { OnOk result (fields.new.items ≡ defaulted name.now value.now fields.old.items) }
    ensures rising { OnOk result (IsTrue (rises field_below fields.new.items)) }
{
    if value_of(fields, name).is_some() {
        return Ok(());
    }
    let name = name.copy(alloc)?;
    let value = value.copy(alloc)?;
    put(fields, Field { name, value })
}
