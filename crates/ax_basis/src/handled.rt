ghost use Rattle.std.specs.Prelude.{◌≡◌, IsTrue, IfOk};
ghost use Rattle.ax_basis.specs.Basis.{shares_fit};
ghost use Rattle.ax_basis.specs.Outcomes.{results_of};

use crate::handling::results_of;
use crate::{Basis, Results};
use ax_rules::Rules;
use ax_values::{Duplicate, NoMemory};
use std::alloc::Global;
use std::marker::Model;

/// A batch that was handled: its results are what the rules make of its shares.
#[derive(Drop)]
pub struct Handled {
    basis: Basis,
    rules: Rules,
    results: Results,
}

impl Model for Handled {
    ghost use Rattle.std.specs.Prelude.{◌≡◌};
    ghost use Rattle.std.specs.Coded.{codes};
    ghost use Rattle.ax_tokens.specs.TokenCode.{coded_token};
    ghost use Rattle.ax_rules.specs.ExprCode.{coded_expr};
    ghost use Rattle.ax_basis.specs.Basis.{Handled as Done};
    ghost use Rattle.ax_basis.specs.Outcomes.{results_of};

    ghost Value = { Done };

    ghost coded = { Prim.hlevel (codes, coded_token, coded_expr) };

    ghost view = { λ h. record { basis = h.basis; rules = h.rules } };

    ghost invariant = { λ h. h.results ≡ results_of h.rules h.basis };
}

impl Handled {
    /// The batch.
    pub fn basis(&self) -> &Basis
        ensures { result.now ≡ self.now.basis }
    {
        &self.basis
    }

    /// The rules.
    pub fn rules(&self) -> &Rules
        ensures { result.now ≡ self.now.rules }
    {
        &self.rules
    }

    /// What the rules make of each share, in the order of the shares.
    pub fn results(&self) -> &Results
        ensures { result.now ≡ results_of self.now.rules self.now.basis }
    {
        &self.results
    }

    /// Batch, rules and results, given up.
    pub fn into_parts(self) -> (Basis, Rules, Results)
        ensures basis { result.0 ≡ self.basis }
        ensures rules { result.1 ≡ self.rules }
        ensures results { result.2 ≡ results_of self.rules self.basis }
    {
        let Handled {
            basis,
            rules,
            results,
        } = self;
        (basis, rules, results)
    }
}

/// Handles a batch by rules, of which it keeps a copy. Each item is tried on the row of its aggregate. Where its sequence was
/// parked, each item is parked, too. Else an item fails where it is marked or the rules do not apply to it: under keep it
/// is parked, and so is each later one of its sequence; else it is dropped, and the row stays.
pub fn handle(alloc: Global, basis: Basis, rules: &Rules) -> Result<Handled, NoMemory>
    requires { IsTrue (shares_fit rules.now basis.shares) }
    ensures basis { IfOk result (λ handled. handled.basis ≡ basis) }
    ensures rules { IfOk result (λ handled. handled.rules ≡ rules.now) }
{
    let results = results_of(alloc, rules, &basis)?;
    let rules = rules.copy(alloc)?;
    Ok(Handled {
        basis,
        rules,
        results,
    })
}
