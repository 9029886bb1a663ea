ghost use Rattle.std.specs.Prelude.{◌≡◌, [], IfOk, IfSome, IsTrue, OnOk, option_map, option_copied};
ghost use Rattle.ax_values.specs.Words.{rises, field_below, field_cmp, put_rising};
ghost use Rattle.ax_sagas.specs.Sagas.{args_with, given_value, of_kind};

use ax_rules::{GivenParam, ParamKind};
use ax_values::{Duplicate, Field, Given, NoMemory, Payload, Value};
use std::alloc::Global;

/// The arguments that a dispatch gives its command. None comes exactly where a copied field is missing or has not the
/// parameter's kind.
pub(crate) fn args_of(
    alloc: Global,
    params: &[GivenParam],
    payload: &Payload,
) -> Result<Option<Payload>, NoMemory>
    ensures { IfOk result (λ args. args ≡ args_with params.now payload.now []) }
{
    let mut fields = Vec::with_capacity(alloc, params.len())?;
    for param in params {
        let Some(value) = given_value(param.kind, &param.given, payload) else {
            return Ok(None);
        };
        let name = param.name.copy(alloc)?;
        let value = value.copy(alloc)?;
        put(&mut fields, Field { name, value })?;
    }
    Ok(Some(Payload::of(fields)))
}

/// What a parameter of this kind is given.
fn given_value<'a>(kind: ParamKind, given: &'a Given, payload: &'a Payload) -> Option<&'a Value>
    ensures { option_copied result ≡ given_value kind given.now payload.now }
{
    match given {
        Given::Just(value) => Some(value),
        Given::Copy(name) => of_kind(kind, payload.get(name)?),
    }
}

/// The value, where it has the kind.
fn of_kind(kind: ParamKind, value: &Value) -> Option<&Value>
    ensures { option_copied result ≡ of_kind kind value.now }
{
    match (kind, value) {
        (ParamKind::Int, Value::Int(_)) => Some(value),
        (ParamKind::Text, Value::Text(_)) => Some(value),
        _ => None,
    }
}

/// Puts the field in its place, or in the place of the one with its name.
fn put(fields: &mut Vec<Field>, field: Field) -> Result<(), NoMemory>
    requires { IsTrue (rises field_below fields.old.items) }
    ensures ok { OnOk result (fields.new.items ≡ put_rising field_cmp field fields.old.items) }
    ensures rising { OnOk result (IsTrue (rises field_below fields.new.items)) }
{
    match field.place_among(fields) {
        Ok(place) => {
            fields[place] = field;
            Ok(())
        }
        Err(place) => {
            fields.insert(place, field)?;
            Ok(())
        }
    }
}
