ghost use Rattle.std.specs.Prelude.{◌≡◌, IfOk};
ghost use Rattle.ax_journal.specs.Form.{is_built};
ghost use Rattle.ax_script.specs.Reading.{script_in};
ghost use Rattle.ax_machine.specs.Promises.{AlwaysRight};
ghost use Rattle.ax_top.specs.Run.{Answer, fault_text, fault_answer, script_answer};
ghost use Rattle.ax_top.specs.Answered.{answer_of};
ghost use Rattle.ax_top.specs.Headline.{IsTold};

use crate::status::Status;
use crate::task::Task;
use crate::text::task_text;
use ax_script::{ScriptFault, ScriptKind, read};
use ax_values::{NoMemory, write_number};
use std::alloc::Global;

/// A status, and the text that goes with it.
#[derive(Drop)]
pub(crate) struct Answered {
    pub(crate) status: Status,
    pub(crate) text: Vec<u8>,
}

/// The message of a faulty script.
pub(crate) fn refusal(alloc: Global, line: u32, kind: ScriptKind) -> Result<Answered, NoMemory>
    ensures answer { IfOk result (λ a. answer_of a ≡ fault_answer (record { line = line; kind = kind })) }
    ensures told { IfOk result (λ a. IsTold a.status) }
{
    let mut text = Vec::new(alloc);
    text.extend_from_slice(b"script ")?;
    write_number(u64::from(line), &mut text)?;
    text.push(b' ')?;
    text.extend_from_slice(kind.word())?;
    text.push(b'\n')?;
    Ok(Answered {
        status: Status::Script,
        text,
    })
}

/// What a script gives: the text of its task, or the message of its first fault.
pub(crate) fn answer(alloc: Global, task: Task, bytes: &[u8]) -> Result<Answered, NoMemory>
    ensures answer { IfOk result (λ a. answer_of a ≡ script_answer task (script_in is_built bytes.now)) }
    ensures right { IfOk result (λ a. AlwaysRight (script_in is_built bytes.now)) }
    ensures told { IfOk result (λ a. IsTold a.status) }
{
    match read(alloc, bytes) {
        Ok(plan) => Ok(Answered {
            status: Status::Done,
            text: task_text(alloc, task, plan)?,
        }),
        Err(ScriptFault::Wrong { line, kind }) => refusal(alloc, line, kind),
        Err(ScriptFault::Memory) => Err(NoMemory),
    }
}
