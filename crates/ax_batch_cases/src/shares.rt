ghost use Rattle.std.specs.Prelude.{◌≡◌};
ghost use Rattle.std.specs.List.{list_all};
ghost use Rattle.ax_values.specs.Words.{rises};
ghost use Rattle.ax_basis.specs.Basis.{is_member, is_of_member, member_below, members_fit, shares_fit};

use ax_basis::{BasisItem, BasisItems, Member, Members, Share};
use ax_case_lines::CaseFault;
use ax_rules::Rules;
use ax_values::{Name, Same};

/// The share of these members and items, where the members rise and each item is of one of them.
pub(crate) fn share_of(
    sequence: Name,
    parked: bool,
    members: Vec<Member>,
    items: Vec<BasisItem>,
) -> Result<Share, CaseFault> {
    if !are_rising(&members) || !are_own(&members, &items) {
        return Err(CaseFault::Line);
    }
    Ok(Share {
        sequence,
        parked,
        members: Members::of(members),
        items: BasisItems::of(items),
    })
}

/// Whether the members rise by their aggregates.
fn are_rising(members: &[Member]) -> bool
    ensures { result ≡ rises member_below members.now }
{
    members.is_sorted_by(|member, next| member.aggregate < next.aggregate)
}

/// Whether each item is of one of the members.
fn are_own(members: &[Member], items: &[BasisItem]) -> bool
    ensures { result ≡ list_all (is_of_member members.now) items.now }
{
    items
        .iter()
        .all(|item| is_member(members, &item.item.name.aggregate))
}

fn is_member(members: &[Member], aggregate: &Name) -> bool
    ensures { result ≡ is_member members.now aggregate.now }
{
    members
        .iter()
        .any(|member| member.aggregate.same(aggregate))
}

/// Whether each member's row has a number for each field of the rules.
pub(crate) fn are_fitting(rules: &Rules, shares: &[Share]) -> bool
    ensures { result ≡ shares_fit rules.now shares.now }
{
    shares
        .iter()
        .all(|share| are_fitting_members(rules, share.members.parts()))
}

fn are_fitting_members(rules: &Rules, members: &[Member]) -> bool
    ensures { result ≡ members_fit rules.now members.now }
{
    members
        .iter()
        .all(|member| member.row.parts().len() == rules.fields().len())
}
