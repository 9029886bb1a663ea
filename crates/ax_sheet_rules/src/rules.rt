ghost use Rattle.std.specs.Prelude.{◌≡◌, ◌≤◌, ◌<◌, ◌^◌, [], IfOk, IfSome, length, codes, option_map};
ghost use Rattle.serde_json.specs.View.{view};
ghost use Rattle.ax_sheet_rules.specs.Members.{object_of, optional, wanted};
ghost use Rattle.ax_sheet_rules.specs.Names.{takes, anything};
ghost use Rattle.ax_sheet_rules.specs.Shape.{guard_of, guards_of, set_of, sets_of, initial_of, fields_of, rule_keys, two_keys, rule_of, rules_of};

use crate::each::{ReadsItem, ReadsMember, list_of, named_of, wanted_object};
use crate::expr::{guard_of, set_of};
use crate::names::Names;
use crate::readers::{flag_of, object_of};
use ax_rules::{Declared, Guard, Guards, Initial, Rule, Rules, Set, Sets};
use ax_values::{Name, NoMemory};
use serde_json::Value;
use std::alloc::Global;

/// Reads guards over these fields.
#[derive(Drop)]
struct GuardReader<'a> {
    fields: &'a [Initial],
    names: Names<'a>,
    ghost few: { length fields.now ≤ 8 },
}

impl ReadsItem for GuardReader<'_> {
    type Part = Guard;

    ghost read = { λ reader. guard_of reader.fields.now (takes reader.names) };

    fn item(&self, alloc: Global, value: &Value) -> Result<Option<Guard>, NoMemory> {
        guard_of(alloc, self.fields, self.names, value)
    }
}

/// Fewer than 2^32 guards.
#[tactic(auto, unfolding(crate::specs::Shape::guards_of))]
pub fn guards_of(
    alloc: Global,
    fields: &[Initial],
    names: Names,
    value: &Value,
) -> Result<Option<Guards>, NoMemory>
    requires { length fields.now ≤ 8 }
    ensures value { IfOk result (λ guards. guards ≡ guards_of fields.now (takes names.entry) (view value.now)) }
    ensures few { IfOk result (λ read. IfSome read (λ guards. length guards < 2 ^ 32)) }
{
    match list_of(alloc, &GuardReader { fields, names }, value)? {
        Some(guards) if guards.parts().len() < 0x1_0000_0000 => Ok(Some(guards)),
        _ => Ok(None),
    }
}

/// The guards of a rule or a handler, which may be missing.
pub fn optional_guards(
    alloc: Global,
    fields: &[Initial],
    value: &Value,
) -> Result<Option<Guards>, NoMemory>
    requires { length fields.now ≤ 8 }
    ensures value { IfOk result (λ guards. guards ≡ optional (codes "guards") [] (guards_of fields.now anything) (view value.now)) }
{
    match value.get("guards") {
        Some(guards) => guards_of(alloc, fields, Names::Any, guards),
        None => Ok(Some(Guards::new(alloc))),
    }
}

/// Reads sets of these fields.
#[derive(Drop)]
struct SetReader<'a> {
    fields: &'a [Initial],
    ghost few: { length fields.now ≤ 8 },
}

impl ReadsMember for SetReader<'_> {
    type Part = Set;

    ghost read = { λ reader. set_of reader.fields.now anything };

    fn member(&self, alloc: Global, name: Name, value: &Value) -> Result<Option<Set>, NoMemory> {
        set_of(alloc, self.fields, Names::Any, &name, value)
    }
}

/// The sets of a rule or a handler, which may be missing.
pub fn optional_sets(
    alloc: Global,
    fields: &[Initial],
    value: &Value,
) -> Result<Option<Sets>, NoMemory>
    requires { length fields.now ≤ 8 }
    ensures value { IfOk result (λ sets. sets ≡ optional (codes "sets") [] (sets_of fields.now anything) (view value.now)) }
{
    match value.get("sets") {
        Some(sets) => named_of(alloc, &SetReader { fields }, sets),
        None => Ok(Some(Sets::new(alloc))),
    }
}

/// Reads declared fields.
#[derive(Drop)]
struct InitialReader;

impl ReadsMember for InitialReader {
    type Part = Initial;

    ghost read = { λ reader. initial_of };

    #[tactic(auto, unfolding(crate::specs::Shape::initial_of))]
    fn member(
        &self,
        _alloc: Global,
        name: Name,
        value: &Value,
    ) -> Result<Option<Initial>, NoMemory> {
        match value.as_i64() {
            Some(value) => Ok(Some(Initial { name, value })),
            None => Ok(None),
        }
    }
}

/// At most 8 declared fields.
#[tactic(auto, unfolding(crate::specs::Shape::fields_of))]
fn fields_of(alloc: Global, value: &Value) -> Result<Option<Declared>, NoMemory>
    ensures value { IfOk result (λ fields. fields ≡ fields_of (view value.now)) }
    ensures few { IfOk result (λ read. IfSome read (λ fields. length fields ≤ 8)) }
{
    match named_of(alloc, &InitialReader, value)? {
        Some(fields) if fields.parts().len() <= 8 => Ok(Some(fields)),
        _ => Ok(None),
    }
}

/// The declared fields of an object, which must be there.
pub fn wanted_fields(alloc: Global, object: &Value) -> Result<Option<Declared>, NoMemory>
    ensures value { IfOk result (λ fields. fields ≡ wanted (codes "fields") fields_of (view object.now)) }
    ensures few { IfOk result (λ read. IfSome read (λ fields. length fields ≤ 8)) }
{
    match object.get("fields") {
        Some(fields) => fields_of(alloc, fields),
        None => Ok(None),
    }
}

fn rule_object(announcing: bool, value: &Value) -> Option<&Value>
    ensures { option_map (λ found. view found.now) result ≡ object_of (rule_keys announcing) (view value.now) }
{
    if announcing {
        object_of(&["guards", "sets", "announce"], value)
    } else {
        object_of(&["guards", "sets"], value)
    }
}

/// Reads rules over these fields, which may announce or not.
#[derive(Drop)]
struct RuleReader<'a> {
    announcing: bool,
    fields: &'a [Initial],
    ghost few: { length fields.now ≤ 8 },
}

impl ReadsMember for RuleReader<'_> {
    type Part = Rule;

    ghost read = { λ reader. rule_of reader.announcing reader.fields.now };

    #[tactic(auto, unfolding(crate::specs::Shape::rule_of))]
    fn member(&self, alloc: Global, kind: Name, value: &Value) -> Result<Option<Rule>, NoMemory> {
        let Some(object) = rule_object(self.announcing, value) else {
            return Ok(None);
        };
        let Some(guards) = optional_guards(alloc, self.fields, object)? else {
            return Ok(None);
        };
        let Some(sets) = optional_sets(alloc, self.fields, object)? else {
            return Ok(None);
        };
        let Some(announce) = flag_of("announce", object) else {
            return Ok(None);
        };
        Ok(Some(Rule {
            kind,
            guards,
            sets,
            announce,
        }))
    }
}

/// The object of fields and rules or handlers that a value is.
pub fn fields_and_rules(value: &Value) -> Option<&Value>
    ensures value { option_map (λ found. view found.now) result ≡ object_of two_keys (view value.now) }
{
    object_of(&["fields", "on"], value)
}

/// The rules of an aggregate, or of a projection, which may announce.
#[tactic(auto, unfolding(crate::specs::Shape::rules_of))]
pub fn rules_of(alloc: Global, announcing: bool, value: &Value) -> Result<Option<Rules>, NoMemory>
    ensures value { IfOk result (λ rules. rules ≡ rules_of announcing (view value.now)) }
    ensures few { IfOk result (λ read. IfSome read (λ rules. length rules.fields ≤ 8)) }
{
    let Some(object) = fields_and_rules(value) else {
        return Ok(None);
    };
    let Some(fields) = wanted_fields(alloc, object)? else {
        return Ok(None);
    };
    let reader = RuleReader {
        announcing,
        fields: fields.parts(),
    };
    match wanted_object(alloc, &reader, "on", object)? {
        Some(rules) => Ok(Some(Rules::of(fields, rules))),
        None => Ok(None),
    }
}
