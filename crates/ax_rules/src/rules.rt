ghost use Rattle.std.specs.Prelude.{◌≡◌, ◌↔◌, length, map, IsTrue, IfOk, IfSome, option_copied};
ghost use Rattle.std.specs.List.{list_all};

use crate::{Cause, Row, Rule, RuleList, guards_cause, sets_made};
use ax_values::{Duplicate, Item, ListOf, Name, NoMemory, Same};
use std::alloc::Global;
use std::marker::Model;

/// A declared field and its first value.
#[derive(Drop)]
pub struct Initial {
    pub name: Name,
    pub value: i64,
}

pub type Declared = ListOf<Initial>;

/// What rules make of a row and an item.
#[derive(Drop)]
pub enum Applied {
    Row(Row),
    Fault(Cause),
}

/// Declared fields, and a rule for each kind of item that changes them. Each field place in a rule is below the number of
/// fields, and no rule has 2^32 guards.
#[derive(Drop)]
pub struct Rules {
    fields: Declared,
    rules: RuleList,
}

impl Model for Rules {
    ghost use Rattle.std.specs.Prelude.{length, IsTrue};
    ghost use Rattle.std.specs.List.{list_all};
    ghost use Rattle.std.specs.Coded.{codes};
    ghost use Rattle.ax_rules.specs.ExprCode.{coded_expr};
    ghost use Rattle.ax_rules.specs.Rules.{Rules as Folding, rule_fits};

    ghost Value = { Folding };

    ghost coded = { Prim.hlevel (codes, coded_expr) };

    ghost view = { λ rules. record { fields = rules.fields; rules = rules.rules } };

    ghost invariant = { λ rules. IsTrue (list_all (rule_fits (length rules.fields)) rules.rules) };
}

impl Rules {
    ghost use Rattle.ax_rules.specs.Rules.{rule_fits, rule_for, start_row, applied, applied_of, announces};

    /// The rules over these fields.
    pub fn of(fields: Declared, rules: RuleList) -> Rules
        requires { IsTrue (list_all (rule_fits (length fields)) rules) }
        ensures { result ≡ record { fields = fields; rules = rules } }
    {
        Rules { fields, rules }
    }

    /// The declared fields.
    pub fn fields(&self) -> &[Initial]
        ensures { result.now ≡ self.now.fields }
    {
        self.fields.parts()
    }

    /// The rules, in order.
    pub fn rules(&self) -> &[Rule]
        ensures value { result.now ≡ self.now.rules }
        ensures places { IsTrue (list_all (rule_fits (length self.now.fields)) self.now.rules) }
    {
        self.rules.parts()
    }

    /// The first rule for a kind.
    pub fn rule_for(&self, kind: &Name) -> Option<&Rule>
        ensures value { option_copied result ≡ rule_for self.now kind.now }
        ensures places { IfSome result (λ rule. IsTrue (rule_fits (length self.now.fields) rule.now)) }
    {
        self.rules().iter().find(|rule| rule.kind.same(kind))
    }

    /// The declared fields' first values.
    pub fn start(&self, alloc: Global) -> Result<Row, NoMemory>
        ensures { IfOk result (λ row. row ≡ start_row self.now.fields) }
    {
        start_row(alloc, self.fields())
    }

    /// The row after the item, or the first cause that the rules do not apply to it. Without a rule the row stays.
    pub fn apply(&self, alloc: Global, row: &Row, item: &Item) -> Result<Applied, NoMemory>
        requires { length row.now ≡ length self.now.fields }
        ensures { IfOk result (λ answer. answer ≡ applied_of (applied self.now row.now item.now)) }
    {
        let Some(rule) = self.rule_for(&item.kind) else {
            return Ok(Applied::Row(row.copy(alloc)?));
        };
        if let Some(cause) = guards_cause(rule.guards.parts(), row.parts(), &item.payload) {
            return Ok(Applied::Fault(cause.own(alloc)?));
        }
        match sets_made(alloc, rule.sets.parts(), row.parts(), &item.payload)? {
            Ok(row) => Ok(Applied::Row(row)),
            Err(cause) => Ok(Applied::Fault(cause.own(alloc)?)),
        }
    }

    /// Whether an item that is applied makes a notice.
    pub fn announces(&self, item: &Item) -> bool
        ensures { result ≡ announces self.now item.now }
    {
        match self.rule_for(&item.kind) {
            Some(rule) => rule.announce,
            None => false,
        }
    }

    /// Whether both are equal.
    pub fn same(&self, other: &Rules) -> bool
        ensures { IsTrue result ↔ (self.now ≡ other.now) }
    {
        self.fields.same(&other.fields) && self.rules.same(&other.rules)
    }
}

/// The declared fields' first values.
pub fn start_row(alloc: Global, fields: &[Initial]) -> Result<Row, NoMemory>
    ensures { IfOk result (λ row. row ≡ map (λ field. field.value) fields.now) }
{
    let mut values = Vec::with_capacity(alloc, fields.len())?;
    for field in fields {
        values.push(field.value)?;
    }
    Ok(Row::of(values))
}

impl Duplicate for Initial {
    fn copy(&self, alloc: Global) -> Result<Initial, NoMemory> {
        Ok(Initial {
            name: self.name.copy(alloc)?,
            value: self.value,
        })
    }
}

impl Duplicate for Rules {
    fn copy(&self, alloc: Global) -> Result<Rules, NoMemory> {
        Ok(Rules {
            fields: self.fields.copy(alloc)?,
            rules: self.rules.copy(alloc)?,
        })
    }
}

impl Same for Initial {
    fn same(&self, other: &Initial) -> bool {
        Same::same(&self.name, &other.name) && self.value == other.value
    }
}
