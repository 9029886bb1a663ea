ghost use Rattle.std.specs.Prelude.{◌≡◌, [], IfOk, IsTrue};
ghost use Rattle.ax_basis.specs.Basis.{shares_fit};

use ax_basis::{Basis, BasisItems, Handled, Members, Share, Shares, handle};
use ax_case_lines::{CaseFault, name_of};
use ax_rules::Rules;
use ax_segments::root;
use ax_sheet::Sheet;
use ax_tokens::Token;
use ax_values::{Duplicate, Name};
use std::alloc::Global;
use std::test::Fail;

/// A share without items, of a sequence.
fn share(alloc: Global, sequence: Name) -> Share
    ensures { result.members ≡ [] }
{
    let members = Members::new(alloc);
    let items = BasisItems::new(alloc);
    Share {
        sequence,
        parked: false,
        members,
        items,
    }
}

/// One share without members.
fn shares(alloc: Global, rules: &Rules) -> Result<Shares, CaseFault>
    ensures { IfOk result (λ shares. IsTrue (shares_fit rules.now shares)) }
{
    let sequence = name_of(alloc, b"card-1")?;
    let share = share(alloc, sequence);
    Ok(Shares::of(vec![in alloc; share]?))
}

fn basis(alloc: Global, shares: Shares) -> Basis
    ensures { result.shares ≡ shares }
{
    Basis {
        processor: 0,
        segment: root(),
        fence: 1,
        old: Token::start(alloc),
        new: Token::start(alloc),
        keep: true,
        shares,
    }
}

fn handled(alloc: Global, rules: &Rules) -> Result<Handled, CaseFault> {
    let shares = shares(alloc, rules)?;
    Ok(handle(alloc, basis(alloc, shares), rules)?)
}

/// Whether the batch is copied.
fn is_copied(alloc: Global, basis: &Basis) -> Result<bool, CaseFault> {
    let copied = basis.copy(alloc)?;
    let same = copied.same(basis);
    drop(copied);
    Ok(same)
}

/// Whether a batch is handled and copied.
fn is_handled(alloc: Global, rules: &Rules) -> Result<bool, CaseFault> {
    let handled = handled(alloc, rules)?;
    let copied = is_copied(alloc, handled.basis())?;
    Ok(copied && handled.results().parts().len() == 1)
}

#[test]
fn a_batch_is_handled(rt: HostRuntime) -> Result<(), Fail> {
    let alloc = rt.alloc();
    let cards = Sheet::cards(alloc)?;
    assert!(rt; is_handled(alloc, cards.aggregate())?);
    Ok(())
}
