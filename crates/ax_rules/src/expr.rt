ghost use Rattle.std.specs.Prelude.{◌≡◌, ◌↔◌, ◌+ℤ◌, ◌-ℤ◌, ◌*ℤ◌, length, IsTrue, IfOk, option_map};
ghost use Rattle.ax_rules.specs.Cause.{with_cause};
ghost use Rattle.ax_rules.specs.Expr.{value_of, expr_fits, number_or_overflow, number_or_missing};
ghost use Rattle.ax_rules.specs.Nodes.{expr_of};

use crate::BorrowedCause;
use ax_values::{Duplicate, Name, NoMemory, Payload, Same, Value};
use std::alloc::Global;
use std::marker::Model;

/// An expression over whole numbers of 64 bits with sign.
#[cycle(expr)]
#[derive(Drop)]
pub enum Expr {
    Int(i64),
    /// The place of a declared field, counted from 0.
    Field(u32),
    /// A field of the item, or a parameter of the command.
    Arg(Name),
    Add(Operand, Operand),
    Sub(Operand, Operand),
    Mul(Operand, Operand),
}

/// A side of an operation.
#[cycle(expr)]
#[derive(Drop)]
pub struct Operand {
    expr: Box<Expr>,
}

impl Model for Operand {
    ghost use Rattle.ax_rules.specs.Expr.{Expr, size_of};
    ghost use Rattle.ax_rules.specs.ExprCode.{coded_expr};

    ghost Value = { Expr };

    ghost coded = { coded_expr };

    ghost use Rattle.ax_rules.specs.Nodes.{expr_of};

    ghost view = { λ operand. expr_of operand.expr.value };

    ghost size = { size_of };

    ghost use Rattle.ax_rules.specs.Falls.{falls};

    ghost size_decreases = { λ a h. falls a.expr.value };
}

impl Operand {
    /// The expression as a side of an operation.
    pub fn of(alloc: Global, expr: Expr) -> Result<Operand, NoMemory>
        ensures { IfOk result (λ operand. operand ≡ expr_of expr) }
    {
        Ok(Operand {
            expr: Box::new(alloc, expr)?,
        })
    }

    /// The expression of this side.
    pub fn get(&self) -> &Expr
        ensures { expr_of result.now ≡ self.now }
    {
        &self.expr
    }
}

impl Expr {
    /// The value over a row and the fields of an item, or the first cause that there is none, left side first.
    pub fn value_of<'a>(&'a self, row: &[i64], payload: &Payload) -> Result<i64, BorrowedCause<'a>>
        requires { IsTrue (expr_fits (length row.now) (expr_of self.now)) }
        ensures { with_cause result ≡ value_of (expr_of self.now) row.now payload.now }
    {
        match self {
            Expr::Int(number) => Ok(*number),
            Expr::Field(place) => Ok(row[*place as usize]),
            Expr::Arg(name) => number_or_missing(name, payload.get(name)),
            Expr::Add(left, right) => {
                let first = left.get().value_of(row, payload)?;
                sum(first, right.get().value_of(row, payload)?)
            }
            Expr::Sub(left, right) => {
                let first = left.get().value_of(row, payload)?;
                difference(first, right.get().value_of(row, payload)?)
            }
            Expr::Mul(left, right) => {
                let first = left.get().value_of(row, payload)?;
                product(first, right.get().value_of(row, payload)?)
            }
        }
    }
}

impl Duplicate for Expr {
    #[cycle(copy)]
    fn copy(&self, alloc: Global) -> Result<Expr, NoMemory> {
        match self {
            Expr::Int(number) => Ok(Expr::Int(*number)),
            Expr::Field(place) => Ok(Expr::Field(*place)),
            Expr::Arg(name) => Ok(Expr::Arg(name.copy(alloc)?)),
            Expr::Add(left, right) => Ok(Expr::Add(left.copy(alloc)?, right.copy(alloc)?)),
            Expr::Sub(left, right) => Ok(Expr::Sub(left.copy(alloc)?, right.copy(alloc)?)),
            Expr::Mul(left, right) => Ok(Expr::Mul(left.copy(alloc)?, right.copy(alloc)?)),
        }
    }
}

impl Duplicate for Operand {
    #[cycle(copy)]
    fn copy(&self, alloc: Global) -> Result<Operand, NoMemory> {
        Operand::of(alloc, self.get().copy(alloc)?)
    }
}

impl Same for Expr {
    #[cycle(same)]
    fn same(&self, other: &Expr) -> bool {
        match (self, other) {
            (Expr::Int(this), Expr::Int(that)) => this == that,
            (Expr::Field(this), Expr::Field(that)) => this == that,
            (Expr::Arg(this), Expr::Arg(that)) => Same::same(this, that),
            (Expr::Add(left, right), Expr::Add(first, second))
            | (Expr::Sub(left, right), Expr::Sub(first, second))
            | (Expr::Mul(left, right), Expr::Mul(first, second)) => left.same(first)
                && right.same(second),
            _ => false,
        }
    }
}

impl Same for Operand {
    #[cycle(same)]
    fn same(&self, other: &Operand) -> bool {
        self.get().same(other.get())
    }
}

fn sum(left: i64, right: i64) -> Result<i64, BorrowedCause<'static>>
    ensures { with_cause result ≡ number_or_overflow (left +ℤ right) }
{
    left.checked_add(right).ok_or(BorrowedCause::Overflow)
}

fn difference(left: i64, right: i64) -> Result<i64, BorrowedCause<'static>>
    ensures { with_cause result ≡ number_or_overflow (left -ℤ right) }
{
    left.checked_sub(right).ok_or(BorrowedCause::Overflow)
}

fn product(left: i64, right: i64) -> Result<i64, BorrowedCause<'static>>
    ensures { with_cause result ≡ number_or_overflow (left *ℤ right) }
{
    left.checked_mul(right).ok_or(BorrowedCause::Overflow)
}

fn number_or_missing<'a>(name: &'a Name, value: Option<&Value>) -> Result<i64, BorrowedCause<'a>>
    ensures { with_cause result ≡ number_or_missing name.now (option_map (λ found. found.now) value.entry) }
{
    match value {
        Some(Value::Int(number)) => Ok(*number),
        Some(Value::Text(_)) | None => Err(BorrowedCause::Missing(name)),
    }
}
