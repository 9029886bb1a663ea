ghost use Rattle.std.specs.Prelude.{◌≡◌, [], ◌∷◌, ◌++◌, option_map, map, IfOk, IfSome};
ghost use Rattle.ax_values.specs.Grammar.{cut_at, between, line_words};
ghost use Rattle.ax_values.specs.Words.{words};

use crate::NoMemory;
use std::alloc::Global;

/// What stands before and after the first place of a byte. None comes exactly where the text has no such byte.
pub fn cut_at(separator: u8, text: &[u8]) -> Option<(&[u8], &[u8])>
    ensures value { option_map (λ t. record { before = t.0.now; after = t.1.now }) result ≡ cut_at separator text.now }
    ensures whole { IfSome result (λ t. t.0.now ++ separator ∷ t.1.now ≡ text.now) }
{
    for i in 0..text.len() {
        if text[i] == separator {
            return Some((&text[..i], &text[i + 1..]));
        }
    }
    None
}

/// What stands between a first byte and a last one. None comes exactly where the text does not begin and end so.
pub fn between(first: u8, last: u8, text: &[u8]) -> Option<&[u8]>
    ensures value { option_map (λ t. t.now) result ≡ between first last text.now }
    ensures whole { IfSome result (λ t. first ∷ (t.now ++ last ∷ []) ≡ text.now) }
{
    let [begin, inner @ .., end] = text else {
        return None;
    };
    if *begin == first && *end == last {
        Some(inner)
    } else {
        None
    }
}

/// The words of a line, parted by one space each; a space within quotes parts nothing.
pub fn line_words(alloc: Global, line: &[u8]) -> Result<Vec<&[u8]>, NoMemory>
    ensures value { IfOk result (λ parts. map (λ part. part.now) parts.items ≡ line_words line.now) }
    ensures whole { IfOk result (λ parts. words (map (λ part. part.now) parts.items) ≡ line.now) }
{
    let mut parts = Vec::with_capacity(alloc, 8)?;
    let mut start: usize = 0;
    let mut inside = false;
    for i in 0..line.len() {
        if line[i] == b' ' && !inside {
            parts.push(&line[start..i])?;
            start = i + 1;
        } else if line[i] == b'"' {
            inside = !inside;
        }
    }
    parts.push(&line[start..])?;
    Ok(parts)
}
