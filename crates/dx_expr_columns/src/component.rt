//! The expression of a component.

ghost use Rattle.std.specs.Prelude.{◌≡◌, ◌<◌, IfOk, Some};
ghost use Rattle.dx_expr.specs.Shape.{shape_of};
ghost use Rattle.dx_expr_columns.specs.Columns as spec;

use crate::copy;
use dx_expr::{Binary, Boxed, Expression, Inputs};
use std::alloc::{AllocError, Global};

/// Component number `place` of an input; one that is a single value is its own component.
fn column_of_input<I: Inputs>(
    alloc: Global,
    k: u8,
    inputs: &I,
    place: u8,
) -> Result<Expression, AllocError>
    ensures { IfOk result (λ found. found ≡ spec.column_of_input (I.given inputs.now).shape place k) }
{
    if inputs.extents(k).is_empty() {
        return Ok(Expression::Input(k));
    }
    Ok(Expression::Part(Boxed::new(alloc, Expression::Input(k))?, place))
}

/// One of a vector's parts.
fn column_of_parts(alloc: Global, parts: &[Expression], place: u8) -> Result<Expression, AllocError>
    ensures { IfOk result (λ found. found ≡ spec.part_at parts.now place) }
{
    match parts.get(usize::from(place)) {
        Some(part) => copy(alloc, part),
        None => Ok(Expression::Number(0)),
    }
}

/// The expression whose value at each item is value number `place` of this one, where this one has one for each place; a
/// single value is its own component.
#[tactic(auto, using(crate::proofs::Equations::columns_by_parts))]
pub fn column<I: Inputs>(
    alloc: Global,
    e: &Expression,
    inputs: &I,
    place: u8,
) -> Result<Expression, AllocError>
    ensures { IfOk result (λ found. found ≡ spec.column (I.given inputs.now).shape place e.now) }
{
    match e {
        Expression::Input(k) => column_of_input(alloc, *k, inputs, place),
        Expression::Unary(operator, a) => {
            let a = column(alloc, a.get(), inputs, place)?;
            Ok(Expression::Unary(*operator, Boxed::new(alloc, a)?))
        }
        Expression::Binary(operator, a, b) => match *operator {
            Binary::Or | Binary::And | Binary::Dot => copy(alloc, e),
            _ => {
                let a = column(alloc, a.get(), inputs, place)?;
                let b = column(alloc, b.get(), inputs, place)?;
                let a = Boxed::new(alloc, a)?;
                Ok(Expression::Binary(*operator, a, Boxed::new(alloc, b)?))
            }
        },
        Expression::Choice(condition, a, b) => {
            let condition = copy(alloc, condition.get())?;
            let a = column(alloc, a.get(), inputs, place)?;
            let b = column(alloc, b.get(), inputs, place)?;
            let condition = Boxed::new(alloc, condition)?;
            let a = Boxed::new(alloc, a)?;
            Ok(Expression::Choice(condition, a, Boxed::new(alloc, b)?))
        }
        Expression::Vector(parts) => column_of_parts(alloc, parts.as_slice(), place),
        Expression::Number(_) | Expression::Part(_, _) => copy(alloc, e),
    }
}
