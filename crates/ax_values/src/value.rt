ghost use Rattle.std.specs.Prelude.{◌≡◌, ◌++◌, length, take, Some, IfOk, IfSome, OnOk, OnErr};
ghost use Rattle.ax_values.specs.Readers.{value_in, field_in};
ghost use Rattle.std.specs.List.Sorted.{IsBinarySearchResult, IsSearchInRange};
ghost use Rattle.ax_values.specs.Words.{field_cmp, value_text, field_text};

use crate::{Duplicate, Name, NoMemory, Text, cut_at, read_int, undo_on_error, write_int};
use std::alloc::Global;

/// What a field holds: a whole number of 64 bits with sign, or a text.
#[derive(Drop)]
pub enum Value {
    Int(i64),
    Text(Text),
}

/// A named value.
#[derive(Drop)]
pub struct Field {
    pub name: Name,
    pub value: Value,
}

impl Value {
    /// The value that the text is. None comes exactly outside the grammar of values.
    pub fn read(alloc: Global, text: &[u8]) -> Result<Option<Value>, NoMemory>
        ensures value { IfOk result (λ read. read ≡ value_in text.now) }
        ensures written { IfOk result (λ read. IfSome read (λ value. value_text value ≡ text.now)) }
    {
        match text {
            [b'"', ..] => Ok(Text::read(alloc, text)?.map(Value::Text)),
            _ => Ok(read_int(text).map(Value::Int)),
        }
    }

    /// Adds the value: an int's digits, or a text between quotes. Where memory is wanting, nothing is added.
    #[tactic(auto, unfolding(crate::specs::Grammar::IsReadBack))]
    pub fn write(&self, out: &mut Vec<u8>) -> Result<(), NoMemory>
        ensures ok { OnOk result (out.new.items ≡ out.old.items ++ value_text self.now) }
        ensures err { OnErr result (out.new.items ≡ out.old.items) }
        ensures again { OnOk result (value_in (value_text self.now) ≡ Some self.now) }
    {
        match self {
            Value::Int(int) => write_int(*int, out),
            Value::Text(text) => text.write(out),
        }
    }
}

impl Field {
    /// The field that the text `name=value` is. None comes exactly outside the grammar.
    pub fn read(alloc: Global, text: &[u8]) -> Result<Option<Field>, NoMemory>
        ensures value { IfOk result (λ read. read ≡ field_in text.now) }
        ensures written { IfOk result (λ read. IfSome read (λ field. field_text field ≡ text.now)) }
    {
        let Some((name, value)) = cut_at(b'=', text) else {
            return Ok(None);
        };
        let Some(name) = Name::read(alloc, name)? else {
            return Ok(None);
        };
        let Some(value) = Value::read(alloc, value)? else {
            return Ok(None);
        };
        Ok(Some(Field { name, value }))
    }

    /// Adds `name=value`. Where memory is wanting, nothing is added.
    pub fn write(&self, out: &mut Vec<u8>) -> Result<(), NoMemory>
        ensures ok { OnOk result (out.new.items ≡ out.old.items ++ field_text self.now) }
        ensures err { OnErr result (out.new.items ≡ out.old.items) }
        ensures again { OnOk result (field_in (field_text self.now) ≡ Some self.now) }
    {
        let start = out.len();
        let written = self.write_parts(out);
        undo_on_error(out, start, written)
    }

    /// Where the field of this one's name stands among fields that rise by name, or else where it would stand.
    pub fn place_among(&self, fields: &[Field]) -> Result<usize, usize>
        ensures bound { IsSearchInRange result (length fields.now) }
        ensures place { IsBinarySearchResult (λ other. field_cmp other self.now) fields.now result }
    {
        fields.binary_search_by(|other| other.name.cmp(&self.name))
    }

    fn write_parts(&self, out: &mut Vec<u8>) -> Result<(), NoMemory>
        ensures ok { OnOk result (out.new.items ≡ out.old.items ++ field_text self.now) }
        ensures front { OnErr result (take (length out.old.items) out.new.items ≡ out.old.items) }
        ensures again { OnOk result (field_in (field_text self.now) ≡ Some self.now) }
    {
        self.name.write(out)?;
        out.push(b'=')?;
        self.value.write(out)
    }
}

impl Duplicate for Value {
    fn copy(&self, alloc: Global) -> Result<Value, NoMemory> {
        match self {
            Value::Int(number) => Ok(Value::Int(*number)),
            Value::Text(text) => Ok(Value::Text(text.copy(alloc)?)),
        }
    }
}

impl Duplicate for Field {
    fn copy(&self, alloc: Global) -> Result<Field, NoMemory> {
        Ok(Field {
            name: self.name.copy(alloc)?,
            value: self.value.copy(alloc)?,
        })
    }
}
