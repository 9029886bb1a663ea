ghost use Rattle.std.specs.Prelude.{◌≡◌, ◌<◌, ◌++◌, ◌∷◌, [], List, length, IsTrue, IfOk, OnOk};
ghost use Rattle.ax_values.specs.Words.{rises};
ghost use Rattle.ax_projections.specs.Table.{look_up};
ghost use Rattle.ax_projections.specs.Rebuild.{or_start};
ghost use Rattle.ax_basis.specs.Basis.{is_of_member};
ghost use Rattle.ax_basis.specs.declared.item.BasisItem.{BasisItem};
ghost use Rattle.ax_step_work.specs.Sharing.{IsPlaceOf, member_read, share_below, shares_read, single};

use ax_basis::{BasisItem, BasisItems, Member, Members, Share, Shares};
use ax_projections::{Positioned, Table};
use ax_rules::Rules;
use ax_values::{Duplicate, Marks, Name, NoMemory, Seen};
use std::alloc::Global;
use std::cmp::Ordering;

/// The items by aggregate, each with the row that is kept of it, or the first values.
pub(crate) fn shares_of(
    alloc: Global,
    rules: &Rules,
    kept: &Table,
    items: Vec<BasisItem>,
) -> Result<Shares, NoMemory>
    ensures { IfOk result (λ shares. shares ≡ shares_read rules.now kept.now.entries items.items) }
{
    let mut shares = Vec::new(alloc);
    for item in items {
        add_item(alloc, rules, kept, &mut shares, item)?;
    }
    Ok(Shares::of(shares))
}

/// Adds an item to the share of its aggregate, which comes with its first item.
fn add_item(
    alloc: Global,
    rules: &Rules,
    kept: &Table,
    shares: &mut Vec<Share>,
    item: BasisItem,
) -> Result<(), NoMemory>
    requires { (done : List BasisItem) × (shares.old.items ≡ shares_read rules.now kept.now.entries done) }
    ensures { OnOk result ((done : List BasisItem) → shares.old.items ≡ shares_read rules.now kept.now.entries done → shares.new.items ≡ shares_read rules.now kept.now.entries (done ++ item ∷ [])) }
{
    match place_of(shares, &item.item.name.aggregate) {
        Ok(place) => push_to(&mut shares[place], item),
        Err(place) => {
            let share = new_share(alloc, rules, kept, item)?;
            shares.insert(place, share)?;
            Ok(())
        }
    }
}

/// Where the share of an aggregate stands, or else where it would stand. An item mostly is of the last share or of a new last
/// one: so the last is looked at first.
fn place_of(shares: &[Share], aggregate: &Name) -> Result<usize, usize>
    requires { IsTrue (rises share_below shares.now) }
    ensures { IsPlaceOf aggregate.now shares.now result }
{
    let Some(last) = shares.last() else {
        return Err(0);
    };
    match last.sequence.cmp(aggregate) {
        Ordering::Less => Err(shares.len()),
        Ordering::Equal => Ok(shares.len() - 1),
        Ordering::Greater => place_among(shares, aggregate),
    }
}

/// The same, by halves.
fn place_among(shares: &[Share], aggregate: &Name) -> Result<usize, usize>
    requires { IsTrue (rises share_below shares.now) }
    ensures { IsPlaceOf aggregate.now shares.now result }
{
    shares.binary_search_by(|share| share.sequence.cmp(aggregate))
}

fn push_to(share: &mut Share, item: BasisItem) -> Result<(), NoMemory>
    requires { IsTrue (is_of_member share.old.members item) }
    ensures { OnOk result (share.new ≡ record share.old { items = share.old.items ++ item ∷ [] }) }
{
    share.items.push(item)
}

/// A share of one item.
fn new_share(alloc: Global, rules: &Rules, kept: &Table, item: BasisItem) -> Result<Share, NoMemory>
    ensures { IfOk result (λ share. share ≡ single (member_read rules.now kept.now.entries) item.item.name.aggregate (item ∷ [])) }
{
    let aggregate = &item.item.name.aggregate;
    let member = read_member(alloc, rules, kept, aggregate)?;
    let sequence = aggregate.copy(alloc)?;
    let mut members = Vec::with_capacity(alloc, 1)?;
    members.push(member)?;
    let mut items = Vec::with_capacity(alloc, 1)?;
    items.push(item)?;
    Ok(Share {
        sequence,
        parked: false,
        members: Members::of(members),
        items: BasisItems::of(items),
    })
}

/// An aggregate with its position and its row, or 0 and the first values.
fn read_member(
    alloc: Global,
    rules: &Rules,
    kept: &Table,
    aggregate: &Name,
) -> Result<Member, NoMemory>
    ensures { IfOk result (λ member. member ≡ member_read rules.now kept.now.entries aggregate.now) }
{
    let Positioned { position, row } = read_row(alloc, rules, kept, aggregate)?;
    let aggregate = aggregate.copy(alloc)?;
    let marks = Marks::of(Vec::new(alloc));
    let seen = Seen {
        position,
        parked: false,
        marks,
    };
    Ok(Member {
        aggregate,
        seen,
        row,
    })
}

/// What is kept of an aggregate, or 0 and the first values.
fn read_row(
    alloc: Global,
    rules: &Rules,
    kept: &Table,
    aggregate: &Name,
) -> Result<Positioned, NoMemory>
    ensures { IfOk result (λ value. value ≡ or_start rules.now (look_up aggregate.now kept.now.entries)) }
{
    match kept.get(aggregate) {
        Some(value) => value.copy(alloc),
        None => {
            let row = rules.start(alloc)?;
            Ok(Positioned { position: 0, row })
        }
    }
}
