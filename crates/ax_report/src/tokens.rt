ghost use Rattle.std.specs.Prelude.{◌≡◌, ◌≤◌, ◌++◌, map, IfOk, OnOk};
ghost use Rattle.std.specs.List.{AllByRecursion};
ghost use Rattle.ax_tokens.specs.Tokens.{depth};
ghost use Rattle.ax_tokens.specs.TokenText.{max_depth};
ghost use Rattle.ax_report.specs.TokenReports.{owner_text, token_line};

use ax_claims::TokenRow;
use ax_journal::{Lines, write_segment};
use ax_values::{Line, Name, NoMemory, write_number};
use std::alloc::Global;

/// Adds the owner's name, or a dash.
fn write_owner(owner: &Option<Name>, out: &mut Vec<u8>) -> Result<(), NoMemory>
    ensures { OnOk result (out.new.items ≡ out.old.items ++ owner_text owner.now) }
{
    match owner {
        Some(name) => name.write(out)?,
        None => out.push(b'-')?,
    }
    Ok(())
}

/// The line of a token row: its segment, its owner, the time of its claim, its fence, and how far it is.
fn token_line(alloc: Global, row: &TokenRow) -> Result<Line, NoMemory>
    requires { depth row.now.token ≤ max_depth }
    ensures { IfOk result (λ line. line ≡ token_line row.now) }
{
    let mut out = Vec::with_capacity(alloc, 64)?;
    out.extend_from_slice(b"token ")?;
    write_segment(row.segment, &mut out)?;
    out.extend_from_slice(b" owner ")?;
    write_owner(&row.owner, &mut out)?;
    out.extend_from_slice(b" since ")?;
    write_number(row.since, &mut out)?;
    out.extend_from_slice(b" fence ")?;
    write_number(row.fence, &mut out)?;
    out.extend_from_slice(b" at ")?;
    row.token.write(&mut out)?;
    Ok(Line::of(out))
}

/// The lines of the token rows, in their order.
pub(crate) fn token_lines(alloc: Global, rows: &[TokenRow]) -> Result<Lines, NoMemory>
    requires { AllByRecursion (λ row. depth row.token ≤ max_depth) rows.now }
    ensures { IfOk result (λ lines. lines ≡ map token_line rows.now) }
{
    let mut lines = Lines::new(alloc);
    for row in rows {
        lines.push(token_line(alloc, row)?)?;
    }
    Ok(lines)
}
