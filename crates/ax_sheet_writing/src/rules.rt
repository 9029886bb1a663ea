ghost use Rattle.std.specs.Prelude.{◌≡◌, IfOk, OnOk, codes};
ghost use Rattle.serde_json.specs.Data.{string};
ghost use Rattle.serde_json.specs.View.{view, members_view};
ghost use Rattle.ax_rules.specs.Nodes.{expr_of};
ghost use Rattle.ax_sheet_writing.specs.Text.{int_data, expr_data, field_name, test_text, guard_data, sets_data, put_list, three_data, rule_data, rules_data, two_members};

use crate::parts::{Keyed, Written, object_of, put_list};
use crate::values::{copy_of, int, members, name_str, put_flag, three, word};
use ax_rules::{Expr, Guard, Initial, Rule, Rules, Set, Test};
use ax_sheet_parts::NamedRules;
use ax_values::NoMemory;
use serde_json::{Map, Value, put};
use std::alloc::Global;

fn field_name<'a>(fields: &'a [Initial], place: u32) -> &'a str
    ensures { result.now ≡ field_name fields.now place }
{
    match fields.get(place as usize) {
        Some(field) => name_str(&field.name),
        None => "",
    }
}

fn operation_data(
    alloc: Global,
    operation: &str,
    left: Value,
    right: Value,
) -> Result<Value, NoMemory>
    ensures { IfOk result (λ made. view made ≡ three_data (string operation.now) (view left) (view right)) }
{
    let operation = word(alloc, operation)?;
    three(alloc, operation, left, right)
}

#[tactic(auto, unfolding(crate::specs::Text::expr_data))]
fn expr_data(alloc: Global, fields: &[Initial], expr: &Expr) -> Result<Value, NoMemory>
    ensures { IfOk result (λ made. view made ≡ expr_data fields.now (expr_of expr.now)) }
{
    match expr {
        Expr::Int(number) => Ok(int(*number)),
        Expr::Field(place) => word(alloc, field_name(fields, *place)),
        Expr::Arg(name) => copy_of(alloc, name),
        Expr::Add(left, right) => {
            let left = expr_data(alloc, fields, left.get())?;
            let right = expr_data(alloc, fields, right.get())?;
            operation_data(alloc, "+", left, right)
        }
        Expr::Sub(left, right) => {
            let left = expr_data(alloc, fields, left.get())?;
            let right = expr_data(alloc, fields, right.get())?;
            operation_data(alloc, "-", left, right)
        }
        Expr::Mul(left, right) => {
            let left = expr_data(alloc, fields, left.get())?;
            let right = expr_data(alloc, fields, right.get())?;
            operation_data(alloc, "*", left, right)
        }
    }
}

fn test_text(test: Test) -> &'static str
    ensures { result.now ≡ test_text test }
{
    match test {
        Test::Equal => "=",
        Test::Differ => "!=",
        Test::Less => "<",
        Test::AtMost => "<=",
    }
}

impl Written for Guard {
    ghost written = { guard_data };

    fn data(&self, alloc: Global, fields: &[Initial]) -> Result<Value, NoMemory> {
        let test = word(alloc, test_text(self.test))?;
        let left = expr_data(alloc, fields, &self.left)?;
        let right = expr_data(alloc, fields, &self.right)?;
        three(alloc, test, left, right)
    }
}

impl Written for Set {
    ghost written = { λ fields set. expr_data fields (expr_of set.value) };

    fn data(&self, alloc: Global, fields: &[Initial]) -> Result<Value, NoMemory> {
        expr_data(alloc, fields, &self.value)
    }
}

impl Keyed for Set {
    ghost key = { λ fields set. field_name fields set.field };

    fn name<'a>(&'a self, fields: &'a [Initial]) -> &'a str {
        field_name(fields, self.field)
    }
}

impl Written for Initial {
    ghost written = { λ fields field. int_data field.value };

    fn data(&self, _alloc: Global, _fields: &[Initial]) -> Result<Value, NoMemory> {
        Ok(int(self.value))
    }
}

impl Keyed for Initial {
    ghost key = { λ fields field. field.name };

    fn name<'a>(&'a self, _fields: &'a [Initial]) -> &'a str {
        name_str(&self.name)
    }
}

/// Adds sets, where there are some.
pub(crate) fn put_sets(
    alloc: Global,
    fields: &[Initial],
    sets: &[Set],
    map: &mut Map<String, Value>,
) -> Result<(), NoMemory>
    ensures { OnOk result (members_view map.new.entries ≡ put_list (codes "sets") (sets_data fields.now) sets.now (members_view map.old.entries)) }
{
    if let [_, ..] = sets {
        put(map, alloc, "sets", object_of(alloc, fields, sets)?)?;
    }
    Ok(())
}

impl Written for Rule {
    ghost written = { rule_data };

    #[tactic(auto, unfolding(crate::specs::Text::rule_data))]
    fn data(&self, alloc: Global, fields: &[Initial]) -> Result<Value, NoMemory> {
        let mut map = Map::new(alloc);
        put_list(alloc, fields, "guards", self.guards.parts(), &mut map)?;
        put_sets(alloc, fields, self.sets.parts(), &mut map)?;
        put_flag(alloc, "announce", self.announce, &mut map)?;
        Ok(members(map))
    }
}

impl Keyed for Rule {
    ghost key = { λ fields rule. rule.kind };

    fn name<'a>(&'a self, _fields: &'a [Initial]) -> &'a str {
        name_str(&self.kind)
    }
}

#[tactic(auto, unfolding(crate::specs::Text::rules_data))]
pub(crate) fn rules_data(alloc: Global, rules: &Rules) -> Result<Value, NoMemory>
    ensures { IfOk result (λ made. view made ≡ rules_data rules.now) }
{
    let fields = object_of(alloc, rules.fields(), rules.fields())?;
    let on = object_of(alloc, rules.fields(), rules.rules())?;
    fields_and_on(alloc, fields, on)
}

/// The object of fields and of rules or handlers.
pub(crate) fn fields_and_on(alloc: Global, fields: Value, on: Value) -> Result<Value, NoMemory>
    ensures { IfOk result (λ made. view made ≡ two_members (view fields) (view on)) }
{
    let mut map = Map::new(alloc);
    put(&mut map, alloc, "fields", fields)?;
    put(&mut map, alloc, "on", on)?;
    Ok(members(map))
}

impl Written for NamedRules {
    ghost written = { λ fields named. rules_data named.rules };

    fn data(&self, alloc: Global, _fields: &[Initial]) -> Result<Value, NoMemory> {
        rules_data(alloc, &self.rules)
    }
}

impl Keyed for NamedRules {
    ghost key = { λ fields named. named.name };

    fn name<'a>(&'a self, _fields: &'a [Initial]) -> &'a str {
        name_str(&self.name)
    }
}
