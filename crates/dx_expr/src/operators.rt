//! What operators make of single values.

ghost use Rattle.std.specs.Prelude.{◌≡◌};
ghost use Rattle.dx_expr.specs.Value as spec;

use crate::ItemFault;
use dx_expr_grammar::{Binary, Unary};

/// How an operator or a function looks at its two sides.
#[derive(Clone, Copy, Debug, PartialEq, Eq)]
pub enum Sides {
    /// The right one only where the left one is 0.
    UnlessTrue,
    /// The right one only where the left one isn't 0.
    IfTrue,
    /// Both, which are vectors, as a whole.
    Vectors,
    /// Both, value by value.
    Both,
}

pub fn sides_of(operator: Binary) -> Sides
    ensures { result ≡ spec.sides_of operator }
{
    match operator {
        Binary::Or => Sides::UnlessTrue,
        Binary::And => Sides::IfTrue,
        Binary::Dot => Sides::Vectors,
        _ => Sides::Both,
    }
}

/// A value, where it lies in the int range, and else Overflow.
pub fn checked(v: i64) -> Result<i32, ItemFault>
    ensures { result ≡ spec.checked v }
{
    if v < -2_147_483_648 || 2_147_483_647 < v {
        return Err(ItemFault::Overflow);
    }
    Ok(v as i32)
}

/// What a comparison or a decision is worth: 1 where it is true, and 0 where it isn't.
pub fn truth(b: bool) -> i32
    ensures { result ≡ spec.truth b }
{
    if b { 1 } else { 0 }
}

/// What an operator or a function of one operand makes of a value: Overflow where that lies outside the int range.
pub fn unary_value(operator: Unary, v: i32) -> Result<i32, ItemFault>
    ensures { result ≡ spec.unary_value operator v }
{
    match operator {
        Unary::Negate => checked(-i64::from(v)),
        Unary::Not => Ok(truth(v == 0)),
        Unary::Absolute => checked(i64::from(v.unsigned_abs())),
        Unary::Sign => Ok(v.signum()),
    }
}

/// The quotient, cut towards zero.
fn quotient(a: i32, b: i32) -> Result<i32, ItemFault>
    ensures { result ≡ spec.quotient a b }
{
    if b == 0 {
        return Err(ItemFault::DivisionByZero);
    }
    checked(i64::from(a) / i64::from(b))
}

/// What the quotient leaves.
fn remainder(a: i32, b: i32) -> Result<i32, ItemFault>
    ensures { result ≡ spec.remainder a b }
{
    if b == 0 {
        return Err(ItemFault::DivisionByZero);
    }
    checked(i64::from(a) % i64::from(b))
}

/// What an operator or a function of two operands makes of two values.
pub fn binary_value(operator: Binary, a: i32, b: i32) -> Result<i32, ItemFault>
    ensures { result ≡ spec.binary_value operator a b }
{
    match operator {
        Binary::Or => Ok(truth(a != 0 || b != 0)),
        Binary::And => Ok(truth(a != 0 && b != 0)),
        Binary::Equal => Ok(truth(a == b)),
        Binary::NotEqual => Ok(truth(a != b)),
        Binary::Less => Ok(truth(a < b)),
        Binary::LessEqual => Ok(truth(a <= b)),
        Binary::Greater => Ok(truth(a > b)),
        Binary::GreaterEqual => Ok(truth(a >= b)),
        Binary::Add => checked(i64::from(a) + i64::from(b)),
        Binary::Subtract => checked(i64::from(a) - i64::from(b)),
        Binary::Multiply => checked(i64::from(a) * i64::from(b)),
        Binary::Divide => quotient(a, b),
        Binary::Remainder => remainder(a, b),
        Binary::Minimum => Ok(a.min(b)),
        Binary::Maximum => Ok(a.max(b)),
        Binary::Dot => checked(i64::from(a) * i64::from(b)),
    }
}
