ghost use Rattle.std.specs.Prelude.{◌≡◌, ◌<◌, [], length, IsTrue, IfOk};
ghost use Rattle.ax_state.specs.Setting.{is_projection};
ghost use Rattle.ax_state.specs.Answer.{reported};
ghost use Rattle.ax_world.specs.WorldTables.{state_of};
ghost use Rattle.ax_world.specs.Moves.{IsMove};
ghost use Rattle.ax_report.specs.Reports.{IsReport, IsDeclared, rows_report, step};
ghost use Rattle.ax_report.specs.TokenReports.{tokens_report};
ghost use Rattle.ax_report.specs.LogReports.{log_report};
ghost use Rattle.ax_journal.specs.declared.reply.Reply.{Reply};

use crate::cells::cell_lines;
use crate::rows::add_rows;
use crate::tokens::token_lines;
use ax_journal::{Lines, Order, Reply};
use ax_values::NoMemory;
use ax_world::{Edits, Move, World};
use std::alloc::Global;

/// Shows the rows of a projection processor, in the order of their aggregates' names: one for each aggregate of which it
/// has handled an item; or the token rows of a processor, by segment; or the cells of the log, by index, each event with its
/// identifier. It changes nothing, and the reply is Lines, with the number of lines.
pub fn step(alloc: Global, world: &World, actor: u32, order: &Order) -> Result<Move, NoMemory>
    requires kind { IsReport order.now }
    requires processor { IsDeclared world.now.tables.setting order.now }
    requires actor { actor < length world.now.tables.setting.actors }
    ensures { (kind : IsReport order.now) → IfOk result (IsMove world.now.tables (step (state_of world.now.tables) actor order.now kind)) }
{
    let _ = actor;
    match order {
        Order::ShowRows { processor } => {
            let processor = world.processor(processor);
            show_rows(alloc, world, processor)
        }
        Order::ShowTokens { processor } => {
            let processor = world.processor(processor);
            show_tokens(alloc, world, processor)
        }
        Order::ShowLog => show_log(alloc, world),
        _ => unreachable!(),
    }
}

/// The report of a processor's rows.
fn show_rows(alloc: Global, world: &World, processor: u32) -> Result<Move, NoMemory>
    requires { IsTrue (is_projection world.now.tables.setting processor) }
    ensures { IfOk result (IsMove world.now.tables (reported (state_of world.now.tables) (rows_report (state_of world.now.tables) processor))) }
{
    world.facts();
    let rules = world.projection(processor);
    let mut report = Lines::new(alloc);
    add_rows(alloc, rules.fields(), world.table(processor), &mut report)?;
    Ok(reported(alloc, report))
}

/// The report of a processor's token rows.
fn show_tokens(alloc: Global, world: &World, processor: u32) -> Result<Move, NoMemory>
    requires { processor < length world.now.tables.setting.processors }
    ensures { IfOk result (IsMove world.now.tables (reported (state_of world.now.tables) (tokens_report (state_of world.now.tables) processor))) }
{
    world.facts();
    let report = token_lines(alloc, world.rows(processor).rows())?;
    Ok(reported(alloc, report))
}

/// The report of the log.
fn show_log(alloc: Global, world: &World) -> Result<Move, NoMemory>
    ensures { IfOk result (IsMove world.now.tables (reported (state_of world.now.tables) (log_report (state_of world.now.tables)))) }
{
    world.facts();
    let report = cell_lines(alloc, world.log().cells())?;
    Ok(reported(alloc, report))
}

/// A move that changes nothing, with its report.
fn reported(alloc: Global, report: Lines) -> Move
    ensures { result ≡ record { edits = []; reply = Reply.Lines (length report); report = report } }
{
    let count = report.parts().len() as u64;
    Move {
        edits: Edits::new(alloc),
        reply: Reply::Lines { count },
        report,
    }
}
