ghost use Rattle.std.specs.Prelude.{◌≡◌, not, length, map, option_map, IsTrue, IfOk, OnOk};
ghost use Rattle.ax_journal.specs.Arguments.{same_field, put_in, arguments_in, args_in};
ghost use Rattle.ax_values.specs.Words.{rises, field_below, field_cmp};
ghost use Rattle.std.specs.List.{list_any};

use ax_values::{Field, NoMemory, Payload};
use std::alloc::Global;

/// How the arguments of a command stand in a line.
#[derive(Clone, Copy)]
pub enum Arguments {
    /// In any order, as in a script.
    AnyOrder,
    /// Rising by name, as in a journal.
    Rising,
}

impl Arguments {
    /// The arguments that the words are.
    pub(crate) fn read(self, alloc: Global, words: &[&[u8]]) -> Result<Option<Payload>, NoMemory>
        ensures { IfOk result (λ read. read ≡ args_in self (map (λ w. w.now) words.now)) }
    {
        match self {
            Arguments::AnyOrder => read_any_order(alloc, words),
            Arguments::Rising => Payload::from_words(alloc, words),
        }
    }
}

fn read_any_order(alloc: Global, words: &[&[u8]]) -> Result<Option<Payload>, NoMemory>
    ensures { IfOk result (λ read. read ≡ arguments_in (map (λ w. w.now) words.now)) }
{
    let mut fields = Vec::with_capacity(alloc, words.len())?;
    for word in words {
        let Some(field) = Field::read(alloc, word)? else {
            return Ok(None);
        };
        if !put_new(&mut fields, field)? {
            return Ok(None);
        }
    }
    Ok(Some(Payload::of(fields)))
}

/// Puts the field in its place. False, and nothing is put, exactly where there is one of its name.
fn put_new(fields: &mut Vec<Field>, field: Field) -> Result<bool, NoMemory>
    requires { IsTrue (rises field_below fields.old.items) }
    ensures is_new { IfOk result (λ is_new. is_new ≡ not (list_any (same_field field) fields.old.items)) }
    ensures put { IfOk result (λ is_new. IsTrue is_new → fields.new.items ≡ put_in fields.old.items field) }
    ensures rising { OnOk result (IsTrue (rises field_below fields.new.items)) }
{
    match field.place_among(fields) {
        Ok(_) => Ok(false),
        Err(place) => {
            fields.insert(place, field)?;
            Ok(true)
        }
    }
}
