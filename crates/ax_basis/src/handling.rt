ghost use Rattle.std.specs.Prelude.{◌≡◌, ◌<◌, length, map, IsTrue, IfOk};
ghost use Rattle.std.specs.List.{list_all};
ghost use Rattle.ax_values.specs.Words.{rises};
ghost use Rattle.ax_rules.specs.Rules.{applied};
ghost use Rattle.ax_basis.specs.Basis.{is_member, is_of_member, member_below, member_names, member_rows, members_fit, row_fits, shares_fit};
ghost use Rattle.ax_basis.specs.Outcomes.{failed, name_place, outcomes_of, results_of, row_in_place, rows_after, share_result, tried};

use crate::lone::lone_result;
use crate::{Basis, BasisItem, Member, Outcome, Outcomes, Results, RowList, Share, ShareResult};
use ax_rules::{Applied, Row, Rules, Why};
use ax_values::{Duplicate, Name, NoMemory};
use std::alloc::Global;

/// Handles a batch by rules: what they make of each share, in the order of the shares. Each item is tried on the row of its
/// aggregate. Where its sequence was parked, each item is parked, too. Else an item fails where it is marked or the rules do
/// not apply to it: under keep it is parked, and so is each later one of its sequence; else it is dropped, and the row stays.
/// Want of memory is the only error.
pub fn results_of(alloc: Global, rules: &Rules, basis: &Basis) -> Result<Results, NoMemory>
    requires { IsTrue (shares_fit rules.now basis.now.shares) }
    ensures { IfOk result (λ results. results ≡ results_of rules.now basis.now) }
{
    let shares = basis.shares.parts();
    let mut results = Vec::with_capacity(alloc, shares.len())?;
    for share in shares {
        results.push(share_result(alloc, rules, basis.keep, share)?)?;
    }
    Ok(Results::of(results))
}

/// What is made of a share.
fn share_result(
    alloc: Global,
    rules: &Rules,
    keep: bool,
    share: &Share,
) -> Result<ShareResult, NoMemory>
    requires { IsTrue (members_fit rules.now share.now.members) }
    ensures { IfOk result (λ made. made ≡ share_result rules.now keep share.now) }
{
    let members = share.members.parts();
    if let [member] = members {
        return lone_result(alloc, rules, keep, share, member);
    }
    let items = share.items.parts();
    let mut rows = member_rows(alloc, members)?;
    let outcomes = outcomes(alloc, rules, keep, share.parked, members, items, &mut rows)?;
    Ok(ShareResult {
        outcomes: Outcomes::of(outcomes),
        rows: RowList::of(rows),
    })
}

/// The rows of the members, in their order.
fn member_rows(alloc: Global, members: &[Member]) -> Result<Vec<Row>, NoMemory>
    ensures { IfOk result (λ rows. rows.items ≡ member_rows members.now) }
{
    let mut rows = Vec::with_capacity(alloc, members.len())?;
    for member in members {
        rows.push(member.row.copy(alloc)?)?;
    }
    Ok(rows)
}

/// The outcomes of the items of a share; where it is parked, they all wait for the letters before them. The members' rows become
/// those after the applied items.
fn outcomes(
    alloc: Global,
    rules: &Rules,
    keep: bool,
    parked: bool,
    members: &[Member],
    items: &[BasisItem],
    rows: &mut Vec<Row>,
) -> Result<Vec<Outcome>, NoMemory>
    requires rising { IsTrue (rises member_below members.now) }
    requires own { IsTrue (list_all (is_of_member members.now) items.now) }
    requires long { length rows.old.items ≡ length members.now }
    requires fit { IsTrue (list_all (row_fits rules.now) rows.old.items) }
    ensures outcomes { IfOk result (λ os. os.items ≡ outcomes_of rules.now keep (member_names members.now) parked items.now rows.old.items) }
    ensures rows { IfOk result (λ os. rows.new.items ≡ rows_after rules.now (member_names members.now) items.now os.items rows.old.items) }
{
    let mut outcomes = Vec::with_capacity(alloc, items.len())?;
    let mut behind = parked;
    for item in items {
        if behind {
            outcomes.push(Outcome::Parked(Why::Behind))?;
            continue;
        }
        let place = place_of(members, &item.item.name.aggregate);
        match tried(alloc, rules, row_in(rows, place), item)? {
            Ok(row) => {
                rows[place] = row;
                outcomes.push(Outcome::Applied)?;
            }
            Err(why) => {
                behind = keep;
                outcomes.push(failed(keep, why))?;
            }
        }
    }
    Ok(outcomes)
}

/// The row after an item, or why it fails.
pub(crate) fn tried(
    alloc: Global,
    rules: &Rules,
    row: &Row,
    item: &BasisItem,
) -> Result<Result<Row, Why>, NoMemory>
    requires { IsTrue (row_fits rules.now row.now) }
    ensures value { IfOk result (λ made. made ≡ tried item.now.marked (applied rules.now row.now item.now.item)) }
    ensures fits { IfOk result (λ made. IfOk made (λ row. IsTrue (row_fits rules.now row))) }
{
    if item.marked {
        return Ok(Err(Why::Marked));
    }
    match rules.apply(alloc, row, &item.item)? {
        Applied::Row(row) => Ok(Ok(row)),
        Applied::Fault(cause) => Ok(Err(Why::Failed(cause))),
    }
}

/// The outcome of an item that fails: parked under keep, else dropped.
pub(crate) fn failed(keep: bool, why: Why) -> Outcome
    ensures { result ≡ failed keep why }
{
    if keep {
        Outcome::Parked(why)
    } else {
        Outcome::Dropped(why)
    }
}

/// The row at a place.
fn row_in(rows: &[Row], place: usize) -> &Row
    requires { place < length rows.now }
    ensures { result.now ≡ row_in_place place rows.now }
{
    &rows[place]
}

/// The place of the member of an aggregate.
fn place_of(members: &[Member], aggregate: &Name) -> usize
    requires rising { IsTrue (rises member_below members.now) }
    requires there { IsTrue (is_member members.now aggregate.now) }
    ensures value { result ≡ name_place aggregate.now (member_names members.now) }
    ensures within { result < length members.now }
{
    match members.binary_search_by(|member| member.aggregate.cmp(aggregate)) {
        Ok(place) => place,
        Err(_) => unreachable!(),
    }
}
