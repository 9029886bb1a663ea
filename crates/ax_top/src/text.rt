ghost use Rattle.std.specs.Prelude.{◌≡◌, ◌++◌, IfOk, OnOk};
ghost use Rattle.ax_machine.specs.Machines.{ArePerformed};
ghost use Rattle.ax_machine.specs.Promises.{IsRightRun};
ghost use Rattle.ax_top.specs.Run.{journal_text, task_text};

use crate::task::Task;
use ax_journal::{Entry, write_entry};
use ax_machine::run;
use ax_report::rebuild_text;
use ax_script::Plan;
use ax_values::NoMemory;
use std::alloc::Global;

/// Adds the texts of the entries.
fn write_journal(entries: &[Entry], out: &mut Vec<u8>) -> Result<(), NoMemory>
    ensures { OnOk result (out.new.items ≡ out.old.items ++ journal_text entries.now) }
{
    for entry in entries {
        write_entry(entry, out)?;
    }
    Ok(())
}

/// What a task prints of a plan, which is performed whole before.
pub(crate) fn task_text(alloc: Global, task: Task, plan: Plan) -> Result<Vec<u8>, NoMemory>
    requires { ArePerformed plan.orders }
    ensures text { IfOk result (λ text. text.items ≡ task_text task plan) }
    ensures right { IfOk result (λ _. IsRightRun plan) }
{
    let machine = run(alloc, plan)?;
    let mut text = Vec::new(alloc);
    match task {
        Task::Run => write_journal(machine.journal(), &mut text)?,
        Task::Rebuild => rebuild_text(alloc, machine.world(), &mut text)?,
    }
    Ok(text)
}
