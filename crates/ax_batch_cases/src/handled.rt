ghost use Rattle.std.specs.Prelude.{◌≡◌};

use crate::batch::Batch;
use crate::shares::are_fitting;
use ax_basis::{Basis, Handled, Outcome, ShareResult, Shares, handle};
use ax_case_lines::{CaseFault, CaseLine, write_ints};
use ax_rules::{Row, Rules};
use ax_segments::root;
use ax_tokens::Token;
use ax_values::{NoMemory, copy_all};
use std::alloc::Global;

/// Handles the batch by the rules under a policy, and shows what becomes of it.
pub(crate) fn show(
    rules: &Rules,
    keep: bool,
    batch: &Batch,
    line: &mut CaseLine,
) -> Result<(), CaseFault> {
    let alloc = line.alloc;
    let shares = Shares::of(copy_all(alloc, &batch.shares)?);
    let handled = handled_by(alloc, rules, basis(alloc, keep, shares))?;
    Ok(write_results(handled.results().parts(), &mut line.out)?)
}

fn basis(alloc: Global, keep: bool, shares: Shares) -> Basis
    ensures { result.shares ≡ shares }
{
    Basis {
        processor: 0,
        segment: root(),
        fence: 1,
        old: Token::start(alloc),
        new: Token::start(alloc),
        keep,
        shares,
    }
}

fn handled_by(alloc: Global, rules: &Rules, basis: Basis) -> Result<Handled, CaseFault> {
    if !are_fitting(rules, basis.shares.parts()) {
        return Err(CaseFault::Line);
    }
    Ok(handle(alloc, basis, rules)?)
}

/// The results of the shares, each after a ` | `.
fn write_results(results: &[ShareResult], out: &mut Vec<u8>) -> Result<(), NoMemory> {
    out.extend_from_slice(b"handled")?;
    for result in results {
        out.extend_from_slice(b" | ")?;
        write_outcomes(result.outcomes.parts(), out)?;
        write_rows(result.rows.parts(), out)?;
    }
    Ok(())
}

fn write_outcomes(outcomes: &[Outcome], out: &mut Vec<u8>) -> Result<(), NoMemory> {
    for outcome in outcomes {
        write_outcome(outcome, out)?;
        out.extend_from_slice(b"; ")?;
    }
    Ok(())
}

fn write_outcome(outcome: &Outcome, out: &mut Vec<u8>) -> Result<(), NoMemory> {
    match outcome {
        Outcome::Applied => Ok(out.extend_from_slice(b"applied")?),
        Outcome::Parked(why) => {
            out.extend_from_slice(b"parked ")?;
            why.write(out)
        }
        Outcome::Dropped(why) => {
            out.extend_from_slice(b"dropped ")?;
            why.write(out)
        }
    }
}

/// The numbers of all rows.
fn write_rows(rows: &[Row], out: &mut Vec<u8>) -> Result<(), NoMemory> {
    out.extend_from_slice(b"rows")?;
    for row in rows {
        write_ints(row.parts(), out)?;
    }
    Ok(())
}
