ghost use Rattle.std.specs.Prelude.{◌≡◌};
ghost use Rattle.ax_sheet_parts.specs.Sheet.{is_kind};

use ax_rules::ParamKind;
use ax_values::{Duplicate, ListOf, Name, NoMemory, Value};
use std::alloc::Global;

/// A parameter of a command.
#[derive(Drop)]
pub struct Param {
    pub name: Name,
    pub kind: ParamKind,
}

pub type Params = ListOf<Param>;

/// Whether a value has this kind.
pub fn is_kind(kind: ParamKind, value: &Value) -> bool
    ensures value { result ≡ is_kind kind value.now }
{
    match (kind, value) {
        (ParamKind::Int, Value::Int(_)) | (ParamKind::Text, Value::Text(_)) => true,
        _ => false,
    }
}

impl Duplicate for Param {
    fn copy(&self, alloc: Global) -> Result<Param, NoMemory> {
        Ok(Param {
            name: self.name.copy(alloc)?,
            kind: self.kind,
        })
    }
}
