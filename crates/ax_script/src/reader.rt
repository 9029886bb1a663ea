ghost use Rattle.std.specs.Prelude.{◌≡◌, ◌≤◌, false, length, Ok, Some};
ghost use Rattle.std.specs.List.{list_all};
ghost use Rattle.ax_values.specs.Grammar.{is_plain_byte};
ghost use Rattle.ax_journal.specs.Form.{is_built};
ghost use Rattle.ax_script.specs.Formed.{IsFormed};
ghost use Rattle.ax_script.specs.Reading.{is_skipped, has_orders, formed, line_read, read_on, unless_cut, unless_long, most_bytes, script_in};
ghost use Rattle.ax_script.specs.Read.{Reads, ReadsLine};

use crate::form::form_of;
use crate::judge::first_kind;
use crate::kind::{LineFault, ScriptFault, ScriptKind};
use crate::line::{Part, ScriptLine};
use crate::plan::Plan;
use crate::reading::Reading;
use ax_values::cut_at;
use std::alloc::Global;

/// The most bytes of a script.
const MOST_BYTES: usize = 8_388_608;

/// The plan of a script, or its first faulty line and the first kind of its fault.
/// A form that is not built yet is a fault of the kind `Later`.
#[tactic(auto, unfolding(crate::specs::Reading::script_in))]
pub fn read(alloc: Global, text: &[u8]) -> Result<Plan, ScriptFault>
    ensures { Reads result (script_in is_built text.now) }
{
    if text.len() > MOST_BYTES {
        return Err(ScriptFault::Wrong {
            line: 0,
            kind: ScriptKind::Long,
        });
    }
    read_lines(alloc, text)
}

/// The plan of the lines, one after the other.
fn read_lines(alloc: Global, text: &[u8]) -> Result<Plan, ScriptFault>
    requires { length text.now ≤ most_bytes }
    ensures { Reads result (unless_long false is_built text.now) }
{
    let mut reading = Reading::new(alloc);
    let mut line: u32 = 1;
    let mut rest = text;
    while let Some((this, more)) = cut_at(b'\n', rest) {
        match with_line_at(alloc, reading, line, this) {
            Ok(next) => reading = next,
            Err(fault) => return Err(fault),
        }
        line += 1;
        rest = more;
    }
    finished(reading, line, rest)
}

/// The plan, unless the script is cut: bytes are left without the end of a line, or the orders have not begun.
fn finished(reading: Reading, line: u32, rest: &[u8]) -> Result<Plan, ScriptFault>
    ensures { Reads result (unless_cut line rest.now (Ok reading)) }
{
    let cut = ScriptFault::Wrong {
        line,
        kind: ScriptKind::Cut,
    };
    if !rest.is_empty() || !has_orders(reading.part()) {
        return Err(cut);
    }
    reading.into_plan().ok_or(cut)
}

fn has_orders(part: Part) -> bool
    ensures { result ≡ has_orders part }
{
    match part {
        Part::Start | Part::Sheet | Part::Head => false,
        Part::Orders | Part::End => true,
    }
}

/// What has been read with the line of a number.
fn with_line_at(
    alloc: Global,
    reading: Reading,
    number: u32,
    line: &[u8],
) -> Result<Reading, ScriptFault>
    ensures { Reads result (read_on number (line_read is_built reading line.now) Ok) }
{
    match read_line(alloc, reading, line) {
        Ok(next) => Ok(next),
        Err(LineFault::Wrong(kind)) => Err(ScriptFault::Wrong { line: number, kind }),
        Err(LineFault::Memory) => Err(ScriptFault::Memory),
    }
}

/// What has been read with a line, or the first kind of its fault.
#[tactic(auto, unfolding(crate::specs::Reading::line_read))]
fn read_line(alloc: Global, reading: Reading, line: &[u8]) -> Result<Reading, LineFault>
    ensures { ReadsLine result (line_read is_built reading line.now) }
{
    if !are_plain(line) {
        return Err(LineFault::Wrong(ScriptKind::Bytes));
    }
    if is_skipped(line) {
        return Ok(reading);
    }
    match form_of(alloc, reading.part(), line)? {
        Some(form) => judged(alloc, reading, form),
        None => Err(LineFault::Wrong(ScriptKind::Form)),
    }
}

/// What has been read with a line of a form that may stand there.
fn judged(alloc: Global, reading: Reading, line: ScriptLine) -> Result<Reading, LineFault>
    requires { IsFormed reading.part line }
    ensures { ReadsLine result (formed is_built reading (Some line)) }
{
    match first_kind(alloc, &reading, &line)? {
        Some(kind) => Err(LineFault::Wrong(kind)),
        None => Ok(reading.with_line(alloc, line)?),
    }
}

fn are_plain(line: &[u8]) -> bool
    ensures { result ≡ list_all is_plain_byte line.now }
{
    line.iter().all(|&byte| byte >= 32 && byte <= 126)
}

fn is_skipped(line: &[u8]) -> bool
    ensures { result ≡ is_skipped line.now }
{
    match line {
        [] => true,
        [first, ..] => *first == b'#',
    }
}
