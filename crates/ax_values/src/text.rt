ghost use Rattle.std.specs.Prelude.{◌≡◌, ◌++◌, length, take, option_map, Some, IfOk, IfSome, IsTrue, OnOk, OnErr};
ghost use Rattle.std.specs.List.{list_all};
ghost use Rattle.ax_values.specs.Grammar.{IsReadBack, when, is_text_byte, is_content, text_in};
ghost use Rattle.ax_values.specs.Words.{quoted};

use crate::{Duplicate, NoMemory, between, undo_on_error};
use smallvec::SmallVec;
use std::alloc::Global;
use std::marker::Model;

/// A text: 0 to 64 bytes from 32 to 126 without `"` and `\`. It is written between quotes.
/// Up to 24 bytes stand in the value itself.
#[derive(Drop)]
pub struct Text {
    bytes: SmallVec<u8, 24>,
}

impl Model for Text {
    ghost use Rattle.std.specs.Prelude.{ℕ, List, IsTrue};
    ghost use Rattle.std.specs.Coded.{coded_list, coded_ℕ};
    ghost use Rattle.ax_values.specs.Grammar.{is_content};

    ghost Value = { List ℕ };

    ghost coded = { coded_list coded_ℕ };

    ghost view = { λ text. text.bytes.items };

    ghost invariant = { λ text. IsTrue (is_content text.bytes.items) };
}

impl Text {
    /// The text of these bytes, which stand between the quotes. It takes no memory.
    pub fn of(parts: Vec<u8>) -> Text
        requires { IsTrue (is_content parts.items) }
        ensures { result ≡ parts.items }
    {
        Text {
            bytes: SmallVec::from_vec(parts),
        }
    }

    /// The text whose bytes, without quotes, these are. None comes exactly where they are no content of a text.
    pub fn from_content(alloc: Global, parts: &[u8]) -> Result<Option<Text>, NoMemory>
        ensures { IfOk result (λ text. text ≡ when (is_content parts.now) parts.now) }
    {
        if is_content(parts) {
            let bytes = SmallVec::from_slice(alloc, parts)?;
            Ok(Some(Text { bytes }))
        } else {
            Ok(None)
        }
    }

    /// The bytes between the quotes.
    pub fn parts(&self) -> &[u8]
        ensures value { result.now ≡ self.now }
        ensures grammar { IsTrue (is_content self.now) }
    {
        self.bytes.as_slice()
    }

    /// The text that these bytes are, with their quotes. None comes exactly outside the grammar of texts.
    pub fn read(alloc: Global, text: &[u8]) -> Result<Option<Text>, NoMemory>
        ensures value { IfOk result (λ read. read ≡ text_in text.now) }
        ensures written { IfOk result (λ read. IfSome read (λ content. quoted content ≡ text.now)) }
    {
        let Some(content) = content_of(text) else {
            return Ok(None);
        };
        Ok(Some(Text {
            bytes: SmallVec::from_slice(alloc, content)?,
        }))
    }

    /// Adds the text between quotes. Where memory is wanting, nothing is added.
    pub fn write(&self, out: &mut Vec<u8>) -> Result<(), NoMemory>
        ensures ok { OnOk result (out.new.items ≡ out.old.items ++ quoted self.now) }
        ensures err { OnErr result (out.new.items ≡ out.old.items) }
        ensures again { IsReadBack text_in (quoted self.now) self.now }
    {
        let start = out.len();
        let written = write_quoted(self.parts(), out);
        undo_on_error(out, start, written)
    }
}

impl Duplicate for Text {
    fn copy(&self, alloc: Global) -> Result<Text, NoMemory> {
        Ok(Text {
            bytes: SmallVec::from_slice(alloc, self.parts())?,
        })
    }
}

fn write_quoted(content: &[u8], out: &mut Vec<u8>) -> Result<(), NoMemory>
    ensures ok { OnOk result (out.new.items ≡ out.old.items ++ quoted content.now) }
    ensures front { OnErr result (take (length out.old.items) out.new.items ≡ out.old.items) }
{
    out.push(b'"')?;
    out.extend_from_slice(content)?;
    out.push(b'"')?;
    Ok(())
}

fn content_of(text: &[u8]) -> Option<&[u8]>
    ensures value { option_map (λ content. content.now) result ≡ text_in text.now }
    ensures written { IfSome result (λ content. quoted content.now ≡ text.now) }
{
    let content = between(b'"', b'"', text)?;
    if is_content(content) {
        Some(content)
    } else {
        None
    }
}

fn is_text_byte(byte: u8) -> bool
    ensures { result ≡ is_text_byte byte }
{
    byte >= 32 && byte <= 126 && byte != b'"' && byte != b'\\'
}

fn are_text_bytes(text: &[u8]) -> bool
    ensures { result ≡ list_all is_text_byte text.now }
{
    text.iter().all(|&byte| is_text_byte(byte))
}

fn is_content(text: &[u8]) -> bool
    ensures { result ≡ is_content text.now }
{
    are_text_bytes(text) && text.len() <= 64
}
