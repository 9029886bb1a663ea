//! Rules of a projection or an aggregate: guards and settings over whole numbers, and how an item changes a row.
#![tactic(auto)]

mod cause;
mod expr;
mod guard;
mod rule;
mod rules;
mod saga_rules;
mod why;

pub use cause::{BorrowedCause, Cause};
pub use expr::{Expr, Operand};
pub use guard::{Guard, Guards, Test, guards_cause};
pub use rule::{Row, Rule, RuleList, Set, Sets, sets_made};
pub use rules::{Applied, Declared, Initial, Rules, start_row};
pub use saga_rules::{
    Association, Associations, Dispatch, Dispatches, GivenParam, GivenParams, Handler, Handlers,
    ParamKind, SagaRules, Source,
};
pub use why::Why;
