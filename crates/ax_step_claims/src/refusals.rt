ghost use Rattle.std.specs.Prelude.{◌≡◌, [], IfOk, IsTrue, is_some};
ghost use Rattle.ax_step_claims.specs.Claiming.{claimed_reply, refused_reply, NamesOwned};

use ax_claims::{Refused, Rows, TokenRow};
use ax_journal::Reply;
use ax_values::{Duplicate, NoMemory};
use ax_world::Move;
use std::alloc::Global;

/// By whom, and since when, the row is claimed.
fn claimed_reply(alloc: Global, row: &TokenRow) -> Result<Reply, NoMemory>
    requires { IsTrue (is_some row.now.owner) }
    ensures { IfOk result (λ reply. reply ≡ claimed_reply row.now row.now.owner) }
{
    let Some(owner) = &row.owner else {
        unreachable!()
    };
    Ok(Reply::Claimed {
        owner: owner.copy(alloc)?,
        since: row.since,
    })
}

/// The reply to a refusal, which names one of the rows by its place.
fn refused_reply(alloc: Global, rows: &[TokenRow], refused: Refused) -> Result<Reply, NoMemory>
    requires { NamesOwned rows.now refused }
    ensures { IfOk result (λ reply. reply ≡ refused_reply rows.now refused) }
{
    match refused {
        Refused::NoSegment => Ok(Reply::NoSegment),
        Refused::Claimed { place } => claimed_reply(alloc, &rows[place as usize]),
        Refused::Stale { held, found } => Ok(Reply::Stale { held, found }),
        Refused::NotHeld => Ok(Reply::NotHeld),
        Refused::MaskFull => Ok(Reply::MaskFull),
        Refused::Alone => Ok(Reply::Alone),
    }
}

/// Changes nothing, and says why.
pub(crate) fn refusal(alloc: Global, rows: &Rows, refused: Refused) -> Result<Move, NoMemory>
    requires { NamesOwned rows.now refused }
    ensures { IfOk result (λ made. made ≡ record { edits = []; reply = refused_reply rows.now refused; report = [] }) }
{
    let reply = refused_reply(alloc, rows.rows(), refused)?;
    Ok(Move::without_edits(alloc, reply))
}
