ghost use Rattle.std.specs.Prelude.{◌≡◌, ◌++◌, length, take, OnOk, OnErr};
ghost use Rattle.ax_journal.specs.Entries.{ended, entry_text};

use crate::order::{Order, write_order};
use crate::reply::Reply;
use crate::reply_text::write_reply;
use ax_values::{Line, ListOf, Name, NoMemory, undo_on_error};

pub type Lines = ListOf<Line>;

/// A step of the machine: who asked for what, the answer, and the lines of the report.
#[derive(Drop)]
pub struct Entry {
    pub actor: Name,
    pub order: Order,
    pub reply: Reply,
    pub report: Lines,
}

/// Adds the text of the step: a line of the actor, its order and the reply, and the lines of the report, each with its end.
/// Where memory is wanting, nothing is added.
pub fn write_entry(entry: &Entry, out: &mut Vec<u8>) -> Result<(), NoMemory>
    ensures ok { OnOk result (out.new.items ≡ out.old.items ++ entry_text entry.now) }
    ensures err { OnErr result (out.new.items ≡ out.old.items) }
{
    let start = out.len();
    let written = write_all(entry, out);
    undo_on_error(out, start, written)
}

fn write_all(entry: &Entry, out: &mut Vec<u8>) -> Result<(), NoMemory>
    ensures ok { OnOk result (out.new.items ≡ out.old.items ++ entry_text entry.now) }
    ensures front { OnErr result (take (length out.old.items) out.new.items ≡ out.old.items) }
{
    entry.actor.write(out)?;
    out.push(b' ')?;
    write_order(&entry.order, out)?;
    out.extend_from_slice(b" -> ")?;
    write_reply(&entry.reply, out)?;
    out.push(b'\n')?;
    write_lines(entry.report.parts(), out)
}

/// Adds the lines, each with its end. Where memory is wanting, nothing is added.
pub fn write_lines(lines: &[Line], out: &mut Vec<u8>) -> Result<(), NoMemory>
    ensures ok { OnOk result (out.new.items ≡ out.old.items ++ ended lines.now) }
    ensures err { OnErr result (out.new.items ≡ out.old.items) }
{
    let start = out.len();
    let written = write_each(lines, out);
    undo_on_error(out, start, written)
}

fn write_each(lines: &[Line], out: &mut Vec<u8>) -> Result<(), NoMemory>
    ensures ok { OnOk result (out.new.items ≡ out.old.items ++ ended lines.now) }
    ensures front { OnErr result (take (length out.old.items) out.new.items ≡ out.old.items) }
{
    for line in lines {
        out.extend_from_slice(line.parts())?;
        out.push(b'\n')?;
    }
    Ok(())
}
