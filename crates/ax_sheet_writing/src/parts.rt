ghost use Rattle.std.specs.Prelude.{◌≡◌, List, IfOk, OnOk};
ghost use Rattle.serde_json.specs.Data.{Data};
ghost use Rattle.serde_json.specs.View.{view, items_view, members_view};
ghost use Rattle.ax_values.specs.Grammar.{Line};
ghost use Rattle.ax_rules.specs.declared.rules.Initial.{Initial as Declared};
ghost use Rattle.ax_sheet_writing.specs.Text.{list_data, named_data, put_list};

use crate::values::{list, members};
use ax_rules::Initial;
use ax_values::NoMemory;
use serde_json::{Map, Value, put};
use std::alloc::Global;

/// What has a JSON value, where these fields are declared.
pub(crate) trait Written {
    ghost written: { List Declared → Self → Data };

    fn data(&self, alloc: Global, fields: &[Initial]) -> Result<Value, NoMemory>
        ensures { IfOk result (λ made. view made ≡ written fields.now self.now) };
}

/// What stands under a name, where these fields are declared.
pub(crate) trait Keyed: Written {
    ghost key: { List Declared → Self → Line };

    fn name<'a>(&'a self, fields: &'a [Initial]) -> &'a str
        ensures { result.now ≡ key fields.now self.now };
}

/// A list.
pub(crate) fn list_of<T: Written>(
    alloc: Global,
    fields: &[Initial],
    parts: &[T],
) -> Result<Value, NoMemory>
    ensures { IfOk result (λ made. view made ≡ list_data (T.written fields.now) parts.now) }
{
    let mut values = Vec::with_capacity(alloc, parts.len())?;
    for part in parts {
        values.push(part.data(alloc, fields)?)?;
    }
    Ok(list(values))
}

/// An object with a member for each part.
pub(crate) fn object_of<T: Keyed>(
    alloc: Global,
    fields: &[Initial],
    parts: &[T],
) -> Result<Value, NoMemory>
    ensures { IfOk result (λ made. view made ≡ named_data (T.key fields.now) (T.written fields.now) parts.now) }
{
    let mut map = Map::new(alloc);
    for part in parts {
        let value = part.data(alloc, fields)?;
        put(&mut map, alloc, part.name(fields), value)?;
    }
    Ok(members(map))
}

/// Adds a list, where it is not empty.
pub(crate) fn put_list<T: Written>(
    alloc: Global,
    fields: &[Initial],
    key: &str,
    parts: &[T],
    map: &mut Map<String, Value>,
) -> Result<(), NoMemory>
    ensures { OnOk result (members_view map.new.entries ≡ put_list key.now (list_data (T.written fields.now)) parts.now (members_view map.old.entries)) }
{
    if let [_, ..] = parts {
        put(map, alloc, key, list_of(alloc, fields, parts)?)?;
    }
    Ok(())
}
