ghost use Rattle.std.specs.Prelude.{◌≡◌, ◌≤◌, ◌++◌, length, take, map, option_map, Some, IsTrue, IfOk, IfSome, OnOk, OnErr};
ghost use Rattle.ax_values.specs.Grammar.{each_in, pieces};
ghost use Rattle.ax_values.specs.Readers.{mark_in};
ghost use Rattle.ax_values.specs.Words.{rises, mark_below, words};
ghost use Rattle.ax_values.specs.Seen.{mark_text, marks_text, comma_led, commas, comma_pieces, marks_in, parked_text, parked_in, seen_words, seen_in};

use crate::{
    Duplicate, NoMemory, between, copy_all, cut_at, read_number_to, read_u32, undo_on_error,
    write_u32,
};
use std::alloc::Global;
use std::marker::Model;

/// An item of an aggregate that is known: the sequence number of its record, and its part of that record, from 0 to 7.
#[derive(Clone, Copy, Debug, PartialEq, Eq)]
pub struct Mark {
    pub seq: u32,
    pub part: u32,
}

impl Model for Mark {
    ghost use Rattle.std.specs.Prelude.{◌≤◌};
    ghost use Rattle.ax_values.specs.Grammar.{Mark as Label};

    ghost Value = { Label };

    ghost view = { λ mark. record { seq = mark.seq; part = mark.part } };

    ghost invariant = { λ mark. mark.part ≤ 7 };

    ghost inverse = { λ label. record { seq = label.seq; part = label.part } };
}

impl Mark {
    /// The mark that the text `seq.part` is, with a part from 0 to 7. None comes exactly outside this.
    pub fn read(text: &[u8]) -> Option<Mark>
        ensures value { result ≡ mark_in text.now }
        ensures written { IfSome result (λ mark. mark_text mark ≡ text.now) }
        ensures part { IfSome result (λ mark. mark.part ≤ 7) }
    {
        let (seq, part) = cut_at(b'.', text)?;
        let seq = read_u32(seq)?;
        let part = read_number_to(7, part)?;
        Some(Mark {
            seq,
            part: part as u32,
        })
    }

    /// Adds `seq.part`. Where memory is wanting, nothing is added.
    pub fn write(&self, out: &mut Vec<u8>) -> Result<(), NoMemory>
        ensures ok { OnOk result (out.new.items ≡ out.old.items ++ mark_text self.now) }
        ensures err { OnErr result (out.new.items ≡ out.old.items) }
        ensures again { OnOk result (mark_in (mark_text self.now) ≡ Some self.now) }
    {
        let start = out.len();
        let written = self.write_parts(out);
        undo_on_error(out, start, written)
    }

    /// Whether the mark stands before another, by sequence number and then part.
    pub fn is_below(&self, other: &Mark) -> bool
        ensures { result ≡ mark_below self.now other.now }
    {
        self.seq < other.seq || self.seq == other.seq && self.part < other.part
    }

    fn write_parts(&self, out: &mut Vec<u8>) -> Result<(), NoMemory>
        ensures ok { OnOk result (out.new.items ≡ out.old.items ++ mark_text self.now) }
        ensures front { OnErr result (take (length out.old.items) out.new.items ≡ out.old.items) }
        ensures again { OnOk result (mark_in (mark_text self.now) ≡ Some self.now) }
    {
        write_u32(self.seq, out)?;
        out.push(b'.')?;
        write_u32(self.part, out)
    }
}

/// Marks, rising by sequence number and part without repeats.
#[derive(Drop)]
pub struct Marks {
    marks: Vec<Mark>,
}

impl Model for Marks {
    ghost use Rattle.std.specs.Prelude.{List, IsTrue};
    ghost use Rattle.ax_values.specs.Grammar.{Mark};
    ghost use Rattle.ax_values.specs.Words.{rises, mark_below};

    ghost Value = { List Mark };

    ghost view = { λ marks. marks.marks.items };

    ghost invariant = { λ marks. IsTrue (rises mark_below marks.marks.items) };
}

impl Marks {
    /// The list of these marks.
    pub fn of(parts: Vec<Mark>) -> Marks
        requires { IsTrue (rises mark_below parts.items) }
        ensures { result ≡ parts.items }
    {
        Marks { marks: parts }
    }

    /// The marks, rising.
    pub fn parts(&self) -> &[Mark]
        ensures value { result.now ≡ self.now }
        ensures rising { IsTrue (rises mark_below self.now) }
    {
        &self.marks
    }

    /// The marks that the text `[seq.part,..]` holds. None comes exactly outside the grammar, or where the marks do not rise.
    pub fn read(alloc: Global, text: &[u8]) -> Result<Option<Marks>, NoMemory>
        ensures value { IfOk result (λ read. read ≡ marks_in text.now) }
        ensures written { IfOk result (λ read. IfSome read (λ marks. marks_text marks ≡ text.now)) }
    {
        let Some(inner) = between(b'[', b']', text) else {
            return Ok(None);
        };
        match marks_of(alloc, inner)? {
            Some(marks) if are_rising(&marks) => Ok(Some(Marks { marks })),
            _ => Ok(None),
        }
    }

    /// Adds the marks with commas between them, in brackets. Where memory is wanting, nothing is added.
    pub fn write(&self, out: &mut Vec<u8>) -> Result<(), NoMemory>
        ensures ok { OnOk result (out.new.items ≡ out.old.items ++ marks_text self.now) }
        ensures err { OnErr result (out.new.items ≡ out.old.items) }
        ensures again { OnOk result (marks_in (marks_text self.now) ≡ Some self.now) }
    {
        let start = out.len();
        let written = write_bracketed(self.parts(), out);
        undo_on_error(out, start, written)
    }
}

/// What a batch saw of an aggregate: its position, whether it has letters, and which of the batch's items of it are marked.
#[derive(Drop)]
pub struct Seen {
    pub position: u32,
    pub parked: bool,
    pub marks: Marks,
}

impl Seen {
    /// What the three words say: `position parked [marks]` or `position clear [marks]`. None comes exactly outside this.
    pub fn read(alloc: Global, words: &[&[u8]]) -> Result<Option<Seen>, NoMemory>
        ensures value { IfOk result (λ read. read ≡ seen_in (map (λ word. word.now) words.now)) }
        ensures written { IfOk result (λ read. IfSome read (λ seen. seen_words seen ≡ map (λ word. word.now) words.now)) }
    {
        let [position, parked, marks] = words else {
            return Ok(None);
        };
        let Some(position) = read_u32(position) else {
            return Ok(None);
        };
        let Some(parked) = read_parked(parked) else {
            return Ok(None);
        };
        let Some(marks) = Marks::read(alloc, marks)? else {
            return Ok(None);
        };
        Ok(Some(Seen {
            position,
            parked,
            marks,
        }))
    }

    /// Adds the three words, with a space between each two. Where memory is wanting, nothing is added.
    pub fn write(&self, out: &mut Vec<u8>) -> Result<(), NoMemory>
        ensures ok { OnOk result (out.new.items ≡ out.old.items ++ words (seen_words self.now)) }
        ensures err { OnErr result (out.new.items ≡ out.old.items) }
        ensures again { OnOk result (seen_in (seen_words self.now) ≡ Some self.now) }
    {
        let start = out.len();
        let written = self.write_parts(out);
        undo_on_error(out, start, written)
    }

    #[tactic(auto, unfolding(crate::specs::Grammar::IsReadBack))]
    fn write_parts(&self, out: &mut Vec<u8>) -> Result<(), NoMemory>
        ensures ok { OnOk result (out.new.items ≡ out.old.items ++ words (seen_words self.now)) }
        ensures front { OnErr result (take (length out.old.items) out.new.items ≡ out.old.items) }
        ensures again { OnOk result (seen_in (seen_words self.now) ≡ Some self.now) }
    {
        write_u32(self.position, out)?;
        out.push(b' ')?;
        out.extend_from_slice(parked_word(self.parked))?;
        out.push(b' ')?;
        self.marks.write(out)
    }
}

fn are_rising(marks: &[Mark]) -> bool
    ensures { result ≡ rises mark_below marks.now }
{
    marks.is_sorted_by(|mark, next| mark.is_below(next))
}

fn marks_of(alloc: Global, text: &[u8]) -> Result<Option<Vec<Mark>>, NoMemory>
    ensures { IfOk result (λ read. option_map (λ marks. marks.items) read ≡ each_in mark_in (comma_pieces text.now)) }
{
    match text {
        [] => Ok(Some(Vec::new(alloc))),
        [_, ..] => read_pieces(alloc, text),
    }
}

fn read_pieces(alloc: Global, text: &[u8]) -> Result<Option<Vec<Mark>>, NoMemory>
    ensures { IfOk result (λ read. option_map (λ marks. marks.items) read ≡ each_in mark_in (pieces 44 text.now)) }
{
    let mut marks = Vec::new(alloc);
    let mut rest = text;
    while let Some((first, after)) = cut_at(b',', rest) {
        let Some(mark) = Mark::read(first) else {
            return Ok(None);
        };
        marks.push(mark)?;
        rest = after;
    }
    let Some(mark) = Mark::read(rest) else {
        return Ok(None);
    };
    marks.push(mark)?;
    Ok(Some(marks))
}

fn write_bracketed(marks: &[Mark], out: &mut Vec<u8>) -> Result<(), NoMemory>
    ensures ok { OnOk result (out.new.items ≡ out.old.items ++ marks_text marks.now) }
    ensures front { OnErr result (take (length out.old.items) out.new.items ≡ out.old.items) }
    ensures again { OnOk result (each_in mark_in (map mark_text marks.now) ≡ Some marks.now) }
{
    out.push(b'[')?;
    write_marks(marks, out)?;
    out.push(b']')?;
    Ok(())
}

fn write_marks(marks: &[Mark], out: &mut Vec<u8>) -> Result<(), NoMemory>
    ensures ok { OnOk result (out.new.items ≡ out.old.items ++ commas (map mark_text marks.now)) }
    ensures front { OnErr result (take (length out.old.items) out.new.items ≡ out.old.items) }
    ensures again { OnOk result (each_in mark_in (map mark_text marks.now) ≡ Some marks.now) }
{
    match marks {
        [] => Ok(()),
        [first, rest @ ..] => {
            first.write(out)?;
            write_led(rest, out)
        }
    }
}

fn write_led(marks: &[Mark], out: &mut Vec<u8>) -> Result<(), NoMemory>
    ensures ok { OnOk result (out.new.items ≡ out.old.items ++ comma_led (map mark_text marks.now)) }
    ensures front { OnErr result (take (length out.old.items) out.new.items ≡ out.old.items) }
    ensures again { OnOk result (each_in mark_in (map mark_text marks.now) ≡ Some marks.now) }
{
    for mark in marks {
        out.push(b',')?;
        mark.write(out)?;
    }
    Ok(())
}

fn parked_word(parked: bool) -> &'static [u8]
    ensures { result.now ≡ parked_text parked }
{
    if parked { b"parked" } else { b"clear" }
}

fn read_parked(word: &[u8]) -> Option<bool>
    ensures value { result ≡ parked_in word.now }
    ensures written { IfSome result (λ parked. parked_text parked ≡ word.now) }
{
    if word == b"parked".as_slice() {
        Some(true)
    } else if word == b"clear".as_slice() {
        Some(false)
    } else {
        None
    }
}

impl Duplicate for Mark {
    fn copy(&self, _alloc: Global) -> Result<Mark, NoMemory> {
        Ok(*self)
    }
}

impl Duplicate for Marks {
    fn copy(&self, alloc: Global) -> Result<Marks, NoMemory> {
        Ok(Marks {
            marks: copy_all(alloc, self.parts())?,
        })
    }
}

impl Duplicate for Seen {
    fn copy(&self, alloc: Global) -> Result<Seen, NoMemory> {
        Ok(Seen {
            position: self.position,
            parked: self.parked,
            marks: self.marks.copy(alloc)?,
        })
    }
}
