ghost use Rattle.std.specs.Prelude.{◌≡◌, ◌∷◌, [], IsTrue, IfOk};
ghost use Rattle.std.specs.List.{list_all};
ghost use Rattle.ax_basis.specs.Basis.{is_of_member, row_fits};
ghost use Rattle.ax_basis.specs.Outcomes.{outcomes_of, rows_after, share_result};

use crate::handling::{failed, tried};
use crate::{BasisItem, Member, Outcome, Outcomes, RowList, Share, ShareResult};
use ax_rules::{Row, Rules, Why};
use ax_values::{Duplicate, NoMemory};
use std::alloc::Global;

/// What is made of a share of one member: its items are folded over its row.
pub(crate) fn lone_result(
    alloc: Global,
    rules: &Rules,
    keep: bool,
    share: &Share,
    member: &Member,
) -> Result<ShareResult, NoMemory>
    requires lone { share.now.members ≡ member.now ∷ [] }
    requires fit { IsTrue (row_fits rules.now member.now.row) }
    ensures { IfOk result (λ made. made ≡ share_result rules.now keep share.now) }
{
    let items = share.items.parts();
    let mut row = member.row.copy(alloc)?;
    let outcomes = fold(alloc, rules, keep, share.parked, member, items, &mut row)?;
    let mut rows = Vec::with_capacity(alloc, 1)?;
    rows.push(row)?;
    Ok(ShareResult {
        outcomes: Outcomes::of(outcomes),
        rows: RowList::of(rows),
    })
}

/// The outcomes of the items of one member; where they are parked, they all wait for the letters before them. The row becomes
/// that after the applied items.
fn fold(
    alloc: Global,
    rules: &Rules,
    keep: bool,
    parked: bool,
    member: &Member,
    items: &[BasisItem],
    row: &mut Row,
) -> Result<Vec<Outcome>, NoMemory>
    requires own { IsTrue (list_all (is_of_member (member.now ∷ [])) items.now) }
    requires fit { IsTrue (row_fits rules.now row.old) }
    ensures outcomes { IfOk result (λ os. os.items ≡ outcomes_of rules.now keep (member.now.aggregate ∷ []) parked items.now (row.old ∷ [])) }
    ensures row { IfOk result (λ os. row.new ∷ [] ≡ rows_after rules.now (member.now.aggregate ∷ []) items.now os.items (row.old ∷ [])) }
{
    let mut outcomes = Vec::with_capacity(alloc, items.len())?;
    let mut behind = parked;
    for item in items {
        if behind {
            outcomes.push(Outcome::Parked(Why::Behind))?;
            continue;
        }
        match tried(alloc, rules, row, item)? {
            Ok(next) => {
                *row = next;
                outcomes.push(Outcome::Applied)?;
            }
            Err(why) => {
                behind = keep;
                outcomes.push(failed(keep, why))?;
            }
        }
    }
    Ok(outcomes)
}
