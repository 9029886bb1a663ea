ghost use Rattle.std.specs.Prelude.{◌≡◌, [], ◌∷◌, map, IfOk, IfSome, IsTrue};
ghost use Rattle.ax_values.specs.Grammar.{each_in, name_in};
ghost use Rattle.ax_sheet.specs.Declarations.{is_segment_count};
ghost use Rattle.ax_script.specs.Forms.{form_in, sheet_at, segments_in, processor_kind_in, actor_in, head_in, order_in, orders_in};
ghost use Rattle.ax_script.specs.Formed.{IsFormed};

use crate::line::{Part, ScriptLine};
use ax_journal::{Arguments, read_form, read_steps};
use ax_sheet::{Processor, Sheet, SheetFault};
use ax_values::{Name, Names, NoMemory, line_words};
use std::alloc::Global;

/// What the line is, where it is of a form that may stand in this part of the script.
pub(crate) fn form_of(
    alloc: Global,
    part: Part,
    line: &[u8],
) -> Result<Option<ScriptLine>, NoMemory>
    ensures value { IfOk result (λ form. form ≡ form_in part line.now) }
    ensures formed { IfOk result (λ form. IfSome form (IsFormed part)) }
{
    match part {
        Part::Start => Ok(axon_line(line)),
        Part::Sheet => sheet_line(alloc, line),
        Part::Head => {
            let words = line_words(alloc, line)?;
            head_line(alloc, &words)
        }
        Part::Orders => {
            let words = line_words(alloc, line)?;
            orders_line(alloc, &words)
        }
        Part::End => Ok(None),
    }
}

fn axon_line(line: &[u8]) -> Option<ScriptLine>
    ensures value { result ≡ form_in Part.Start line.now }
    ensures formed { IfSome result (IsFormed Part.Start) }
{
    if line == b"axon 1".as_slice() {
        Some(ScriptLine::Axon)
    } else {
        None
    }
}

fn sheet_line(alloc: Global, line: &[u8]) -> Result<Option<ScriptLine>, NoMemory>
    ensures value { IfOk result (λ form. form ≡ form_in Part.Sheet line.now) }
    ensures formed { IfOk result (λ form. IfSome form (IsFormed Part.Sheet)) }
{
    let [b's', b'h', b'e', b'e', b't', b' ', text @ ..] = line else {
        return Ok(None);
    };
    match text {
        [] => Ok(None),
        [_, ..] => Ok(Some(ScriptLine::Sheet(sheet_at(alloc, text)?))),
    }
}

/// The sheet that the text names or spells. None comes exactly where it is neither `cards` nor the text of a sheet.
fn sheet_at(alloc: Global, text: &[u8]) -> Result<Option<Sheet>, NoMemory>
    ensures { IfOk result (λ sheet. sheet ≡ sheet_at text.now) }
{
    if text == b"cards".as_slice() {
        return Ok(Some(Sheet::cards(alloc)?));
    }
    match Sheet::read(alloc, text) {
        Ok(sheet) => Ok(Some(sheet)),
        Err(SheetFault::Refused) => Ok(None),
        Err(SheetFault::Memory) => Err(NoMemory),
    }
}

fn head_line(alloc: Global, words: &[&[u8]]) -> Result<Option<ScriptLine>, NoMemory>
    ensures value { IfOk result (λ form. form ≡ head_in (map (λ word. word.now) words.now)) }
    ensures formed { IfOk result (λ form. IfSome form (IsFormed Part.Head)) }
{
    match words {
        [word] => Ok(last_head_line(word)),
        [word, name] => actor_line(alloc, word, name),
        [word, name, count] => processor_line(alloc, word, name, count),
        _ => Ok(None),
    }
}

fn last_head_line(word: &[u8]) -> Option<ScriptLine>
    ensures value { result ≡ head_in (word.now ∷ []) }
    ensures formed { IfSome result (IsFormed Part.Head) }
{
    if word == b"orders".as_slice() {
        Some(ScriptLine::Orders)
    } else {
        None
    }
}

fn actor_line(alloc: Global, word: &[u8], name: &[u8]) -> Result<Option<ScriptLine>, NoMemory>
    ensures value { IfOk result (λ form. form ≡ head_in (word.now ∷ name.now ∷ [])) }
    ensures formed { IfOk result (λ form. IfSome form (IsFormed Part.Head)) }
{
    if word != b"actor".as_slice() || name == b"schedule".as_slice() {
        return Ok(None);
    }
    Ok(Name::read(alloc, name)?.map(ScriptLine::Actor))
}

fn processor_line(
    alloc: Global,
    word: &[u8],
    name: &[u8],
    count: &[u8],
) -> Result<Option<ScriptLine>, NoMemory>
    ensures value { IfOk result (λ form. form ≡ head_in (word.now ∷ name.now ∷ count.now ∷ [])) }
    ensures formed { IfOk result (λ form. IfSome form (IsFormed Part.Head)) }
{
    let Some(saga) = processor_kind(word) else {
        return Ok(None);
    };
    let Some(name) = Name::read(alloc, name)? else {
        return Ok(None);
    };
    let Some(segments) = segments(count) else {
        return Ok(None);
    };
    Ok(Some(ScriptLine::Processor(Processor {
        name,
        saga,
        segments,
    })))
}

/// Whether the word declares a saga processor; None where it declares no processor.
fn processor_kind(word: &[u8]) -> Option<bool>
    ensures { result ≡ processor_kind_in word.now }
{
    if word == b"saga".as_slice() {
        Some(true)
    } else if word == b"processor".as_slice() {
        Some(false)
    } else {
        None
    }
}

/// How many segments a processor starts with: 1, 2, 4, 8 or 16.
fn segments(word: &[u8]) -> Option<u32>
    ensures value { result ≡ segments_in word.now }
    ensures count { IfSome result (λ count. IsTrue (is_segment_count count)) }
{
    match word {
        b"1" => Some(1),
        b"2" => Some(2),
        b"4" => Some(4),
        b"8" => Some(8),
        b"16" => Some(16),
        _ => None,
    }
}

fn orders_line(alloc: Global, words: &[&[u8]]) -> Result<Option<ScriptLine>, NoMemory>
    ensures value { IfOk result (λ form. form ≡ orders_in (map (λ word. word.now) words.now)) }
    ensures formed { IfOk result (λ form. IfSome form (IsFormed Part.Orders)) }
{
    let [first, rest @ ..] = words else {
        return Ok(None);
    };
    if *first == b"schedule".as_slice() {
        Ok(names_of(alloc, rest)?.map(ScriptLine::Schedule))
    } else {
        order_line(alloc, first, rest)
    }
}

/// The names that the words are. None comes exactly where one is no name.
fn names_of(alloc: Global, words: &[&[u8]]) -> Result<Option<Names>, NoMemory>
    ensures { IfOk result (λ read. read ≡ each_in name_in (map (λ word. word.now) words.now)) }
{
    let mut names = Vec::with_capacity(alloc, words.len())?;
    for word in words {
        match Name::read(alloc, word)? {
            Some(name) => names.push(name)?,
            None => return Ok(None),
        }
    }
    Ok(Some(Names::of(names)))
}

#[tactic(auto, unfolding(crate::specs::Forms::order_in))]
fn order_line(alloc: Global, actor: &[u8], words: &[&[u8]]) -> Result<Option<ScriptLine>, NoMemory>
    ensures value { IfOk result (λ form. form ≡ order_in actor.now (map (λ word. word.now) words.now)) }
    ensures formed { IfOk result (λ form. IfSome form (IsFormed Part.Orders)) }
{
    let Some(actor) = Name::read(alloc, actor)? else {
        return Ok(None);
    };
    let Some((form, fields)) = read_form(words) else {
        return Ok(None);
    };
    match read_steps(alloc, form, fields, Arguments::AnyOrder)? {
        Some(steps) => Ok(Some(ScriptLine::Order { actor, form, steps })),
        None => Ok(None),
    }
}
