ghost use Rattle.std.specs.Prelude.{◌≡◌, ◌++◌, length, take, map, option_map, Some, IsTrue, IfOk, IfSome, OnOk, OnErr};
ghost use Rattle.ax_values.specs.Grammar.{each_in};
ghost use Rattle.ax_values.specs.Readers.{field_in, payload_in, payload_of};
ghost use Rattle.ax_values.specs.Words.{rises, field_below, field_of, words, spaced, payload_words};

use crate::{Duplicate, Field, Name, NoMemory, Value, copy_all, line_words, undo_on_error};
use std::alloc::Global;
use std::marker::Model;

/// The fields of an event or a command, rising by name without repeats.
#[derive(Drop)]
pub struct Payload {
    fields: Vec<Field>,
}

impl Model for Payload {
    ghost use Rattle.std.specs.Prelude.{List, IsTrue};
    ghost use Rattle.ax_values.specs.declared.value.Field.{Field};
    ghost use Rattle.ax_values.specs.Words.{rises, field_below};

    ghost Value = { List Field };

    ghost view = { λ payload. payload.fields.items };

    ghost invariant = { λ payload. IsTrue (rises field_below payload.fields.items) };
}

impl Payload {
    /// The payload of these fields.
    pub fn of(parts: Vec<Field>) -> Payload
        requires { IsTrue (rises field_below parts.items) }
        ensures { result ≡ parts.items }
    {
        Payload { fields: parts }
    }

    /// The fields, rising by name.
    pub fn parts(&self) -> &[Field]
        ensures value { result.now ≡ self.now }
        ensures rising { IsTrue (rises field_below self.now) }
    {
        &self.fields
    }

    /// The value of the field of this name. None comes exactly where no field has it.
    pub fn get(&self, name: &Name) -> Option<&Value>
        ensures { option_map (λ value. value.now) result ≡ field_of name.now self.now }
    {
        for field in self.parts() {
            if field.name.same(name) {
                return Some(&field.value);
            }
        }
        None
    }

    /// The payload that the words are, each a field. None comes exactly where a word
    /// is no field, or the names do not rise.
    pub fn from_words(alloc: Global, words: &[&[u8]]) -> Result<Option<Payload>, NoMemory>
        ensures value { IfOk result (λ read. read ≡ payload_in (map (λ word. word.now) words.now)) }
        ensures written { IfOk result (λ read. IfSome read (λ payload. payload_words payload ≡ map (λ word. word.now) words.now)) }
    {
        match read_fields(alloc, words)? {
            Some(fields) if are_rising(&fields) => Ok(Some(Payload { fields })),
            _ => Ok(None),
        }
    }

    /// The payload that the text is: fields with one space between each two, or no bytes. None comes exactly outside
    /// the grammar of payloads.
    pub fn read(alloc: Global, text: &[u8]) -> Result<Option<Payload>, NoMemory>
        ensures value { IfOk result (λ read. read ≡ payload_of text.now) }
        ensures written { IfOk result (λ read. IfSome read (λ payload. words (payload_words payload) ≡ text.now)) }
    {
        if text.is_empty() {
            return Ok(Some(Payload {
                fields: Vec::new(alloc),
            }));
        }
        let words = line_words(alloc, text)?;
        Payload::from_words(alloc, &words)
    }

    /// Adds the fields with one space between each two. Where memory is wanting, nothing is added.
    pub fn write(&self, out: &mut Vec<u8>) -> Result<(), NoMemory>
        ensures ok { OnOk result (out.new.items ≡ out.old.items ++ words (payload_words self.now)) }
        ensures err { OnErr result (out.new.items ≡ out.old.items) }
        ensures again { OnOk result (payload_of (words (payload_words self.now)) ≡ Some self.now) }
    {
        let start = out.len();
        let written = write_fields(self.parts(), out);
        undo_on_error(out, start, written)
    }
}

impl Duplicate for Payload {
    fn copy(&self, alloc: Global) -> Result<Payload, NoMemory> {
        Ok(Payload {
            fields: copy_all(alloc, self.parts())?,
        })
    }
}

fn are_rising(fields: &[Field]) -> bool
    ensures { result ≡ rises field_below fields.now }
{
    fields.is_sorted_by(|field, next| field.name < next.name)
}

fn read_fields(alloc: Global, words: &[&[u8]]) -> Result<Option<Vec<Field>>, NoMemory>
    ensures { IfOk result (λ read. option_map (λ fields. fields.items) read ≡ each_in field_in (map (λ word. word.now) words.now)) }
{
    let mut fields = Vec::new(alloc);
    for word in words {
        match Field::read(alloc, word)? {
            Some(field) => fields.push(field)?,
            None => return Ok(None),
        }
    }
    Ok(Some(fields))
}

fn write_fields(fields: &[Field], out: &mut Vec<u8>) -> Result<(), NoMemory>
    ensures ok { OnOk result (out.new.items ≡ out.old.items ++ words (payload_words fields.now)) }
    ensures front { OnErr result (take (length out.old.items) out.new.items ≡ out.old.items) }
    ensures again { OnOk result (each_in field_in (payload_words fields.now) ≡ Some fields.now) }
{
    match fields {
        [] => Ok(()),
        [first, rest @ ..] => {
            first.write(out)?;
            write_spaced(rest, out)
        }
    }
}

fn write_spaced(fields: &[Field], out: &mut Vec<u8>) -> Result<(), NoMemory>
    ensures ok { OnOk result (out.new.items ≡ out.old.items ++ spaced (payload_words fields.now)) }
    ensures front { OnErr result (take (length out.old.items) out.new.items ≡ out.old.items) }
    ensures again { OnOk result (each_in field_in (payload_words fields.now) ≡ Some fields.now) }
{
    for field in fields {
        out.push(b' ')?;
        field.write(out)?;
    }
    Ok(())
}
