ghost use Rattle.std.specs.Prelude.{◌≡◌, ◌≤◌, IfOk, length, option_map};
ghost use Rattle.serde_json.specs.View.{view, items_view};
ghost use Rattle.ax_sheet_rules.specs.Names.{takes};
ghost use Rattle.ax_sheet_rules.specs.Shape.{place_of, copied, leaf_of, operation, operation_of, expr_of, most_deep, test_of, guard_of, set_of};

use crate::names::Names;
use crate::readers::{three_items, triple_of};
use ax_rules::{Expr, Guard, Initial, Operand, Set, Test};
use ax_values::{Name, NoMemory};
use serde_json::Value;
use std::alloc::Global;

/// How deep an expression may be. A leaf is 1 deep.
pub(crate) const MOST_DEEP: u32 = 8;

/// The place of a declared field.
pub(crate) fn place_of(fields: &[Initial], name: &[u8]) -> Option<u32>
    requires { length fields.now ≤ 8 }
    ensures { result ≡ place_of fields.now name.now }
{
    for (place, field) in fields.iter().enumerate() {
        if field.name.parts() == name {
            return Some(place as u32);
        }
    }
    None
}

/// The name after `$`.
pub fn copied(alloc: Global, text: &[u8]) -> Result<Option<Name>, NoMemory>
    ensures value { IfOk result (λ name. name ≡ copied text.now) }
{
    match text {
        [b'$', name @ ..] => Name::read(alloc, name),
        _ => Ok(None),
    }
}

/// A declared field, or `$` and a name that may stand there.
fn leaf_of(
    alloc: Global,
    fields: &[Initial],
    names: Names,
    text: &[u8],
) -> Result<Option<Expr>, NoMemory>
    requires { length fields.now ≤ 8 }
    ensures { IfOk result (λ leaf. leaf ≡ leaf_of fields.now (takes names.entry) text.now) }
{
    if let Some(place) = place_of(fields, text) {
        return Ok(Some(Expr::Field(place)));
    }
    match copied(alloc, text)? {
        Some(name) if names.takes(&name) => Ok(Some(Expr::Arg(name))),
        _ => Ok(None),
    }
}

fn operation(alloc: Global, word: &[u8], left: Expr, right: Expr) -> Result<Option<Expr>, NoMemory>
    ensures { IfOk result (λ whole. whole ≡ operation word.now left right) }
{
    let left = Operand::of(alloc, left)?;
    let right = Operand::of(alloc, right)?;
    match word {
        b"+" => Ok(Some(Expr::Add(left, right))),
        b"-" => Ok(Some(Expr::Sub(left, right))),
        b"*" => Ok(Some(Expr::Mul(left, right))),
        _ => Ok(None),
    }
}

/// An operation whose sides are at most `room` deep.
#[cycle(expr_of)]
fn operation_of(
    alloc: Global,
    fields: &[Initial],
    names: Names,
    room: u32,
    parts: &[Value],
) -> Result<Option<Expr>, NoMemory>
    requires { length fields.now ≤ 8 }
    ensures { IfOk result (λ whole. whole ≡ operation_of (λ side. expr_of fields.now (takes names.entry) room side) (items_view parts.now)) }
{
    let Some((word, left, right)) = three_items(parts) else {
        return Ok(None);
    };
    let Some(word) = word.as_str() else {
        return Ok(None);
    };
    let Some(left) = expr_of(alloc, fields, names, room, left)? else {
        return Ok(None);
    };
    let Some(right) = expr_of(alloc, fields, names, room, right)? else {
        return Ok(None);
    };
    operation(alloc, word.as_bytes(), left, right)
}

/// An expression at most `room` deep.
#[cycle(expr_of)]
#[tactic(auto, using(crate::proofs::Rooms::with_room), unfolding(crate::specs::Shape::expr_of))]
fn expr_of(
    alloc: Global,
    fields: &[Initial],
    names: Names,
    room: u32,
    value: &Value,
) -> Result<Option<Expr>, NoMemory>
    requires { length fields.now ≤ 8 }
    ensures { IfOk result (λ expr. expr ≡ expr_of fields.now (takes names.entry) room (view value.now)) }
{
    if room == 0 {
        return Ok(None);
    }
    if let Some(text) = value.as_str() {
        return leaf_of(alloc, fields, names, text.as_bytes());
    }
    match value.as_array() {
        Some(parts) => operation_of(alloc, fields, names, room - 1, parts.as_slice()),
        None => Ok(value.as_i64().map(Expr::Int)),
    }
}

fn test_of(word: &[u8]) -> Option<Test>
    ensures { result ≡ test_of word.now }
{
    match word {
        b"=" => Some(Test::Equal),
        b"!=" => Some(Test::Differ),
        b"<" => Some(Test::Less),
        b"<=" => Some(Test::AtMost),
        _ => None,
    }
}

/// A test and its two sides.
#[tactic(auto, unfolding(crate::specs::Shape::guard_of))]
pub(crate) fn guard_of(
    alloc: Global,
    fields: &[Initial],
    names: Names,
    value: &Value,
) -> Result<Option<Guard>, NoMemory>
    requires { length fields.now ≤ 8 }
    ensures { IfOk result (λ guard. guard ≡ guard_of fields.now (takes names.entry) (view value.now)) }
{
    let Some((word, left, right)) = triple_of(value) else {
        return Ok(None);
    };
    let Some(test) = word.as_str().and_then(|word| test_of(word.as_bytes())) else {
        return Ok(None);
    };
    let Some(left) = expr_of(alloc, fields, names, MOST_DEEP, left)? else {
        return Ok(None);
    };
    let Some(right) = expr_of(alloc, fields, names, MOST_DEEP, right)? else {
        return Ok(None);
    };
    Ok(Some(Guard { left, test, right }))
}

/// A declared field, and what it is set to.
#[tactic(auto, unfolding(crate::specs::Shape::set_of))]
pub(crate) fn set_of(
    alloc: Global,
    fields: &[Initial],
    names: Names,
    name: &Name,
    value: &Value,
) -> Result<Option<Set>, NoMemory>
    requires { length fields.now ≤ 8 }
    ensures { IfOk result (λ set. set ≡ set_of fields.now (takes names.entry) name.now (view value.now)) }
{
    let Some(field) = place_of(fields, name.parts()) else {
        return Ok(None);
    };
    match expr_of(alloc, fields, names, MOST_DEEP, value)? {
        Some(value) => Ok(Some(Set { field, value })),
        None => Ok(None),
    }
}
