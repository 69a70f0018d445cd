//! Expressions that are a single value, with the components of a vector where a vector stands in them.

ghost use Rattle.std.specs.Prelude.{◌≡◌, ◌<◌, ◌≤◌, ◌∷◌, [], IfOk, Some};
ghost use Rattle.dx_expr_grammar.specs.declared.tree.Binary.TheVariants as binary;
ghost use Rattle.dx_expr_grammar.specs.declared.tree.Expression.TheVariants as e;
ghost use Rattle.dx_expr.specs.Shape.{shape_of};
ghost use Rattle.dx_expr_columns.specs.Columns.{column as spec_column};
ghost use Rattle.dx_expr_columns.specs.Scalars as spec;

use crate::{column, copy, width_of};
use dx_expr::{Binary, Boxed, Expression, Inputs};
use std::alloc::{AllocError, Global};

/// A sum with one summand more.
fn plus(alloc: Global, sum: Expression, more: Expression) -> Result<Expression, AllocError>
    ensures { IfOk result (λ found. found ≡ e.Binary binary.Add sum more) }
{
    let sum = Boxed::new(alloc, sum)?;
    Ok(Expression::Binary(Binary::Add, sum, Boxed::new(alloc, more)?))
}

fn times(alloc: Global, a: Expression, b: Expression) -> Result<Expression, AllocError>
    ensures { IfOk result (λ found. found ≡ e.Binary binary.Multiply a b) }
{
    let a = Boxed::new(alloc, a)?;
    Ok(Expression::Binary(Binary::Multiply, a, Boxed::new(alloc, b)?))
}

/// The product of a component of each of two vectors.
fn product<I: Inputs>(
    alloc: Global,
    a: &Expression,
    b: &Expression,
    inputs: &I,
    place: u8,
) -> Result<Expression, AllocError>
    ensures { IfOk result (λ found. found ≡ e.Binary binary.Multiply (spec_column (I.given inputs.now).shape place a.now) (spec_column (I.given inputs.now).shape place b.now)) }
{
    let a = column(alloc, a, inputs, place)?;
    let b = column(alloc, b, inputs, place)?;
    times(alloc, a, b)
}

/// The products of the first components of two vectors, so many, added from the left.
fn sum_of_products<I: Inputs>(
    alloc: Global,
    a: &Expression,
    b: &Expression,
    inputs: &I,
    count: usize,
) -> Result<Expression, AllocError>
    requires { count ≤ 16 }
    ensures { IfOk result (λ found. found ≡ spec.sum_of_products (I.given inputs.now).shape count a.now b.now) }
{
    let mut sum = Expression::Number(0);
    for place in 0..count {
        let more = product(alloc, a, b, inputs, place as u8)?;
        sum = plus(alloc, sum, more)?;
    }
    Ok(sum)
}

/// The scalar product of two expressions.
fn scalar_product<I: Inputs>(
    alloc: Global,
    a: &Expression,
    b: &Expression,
    inputs: &I,
) -> Result<Expression, AllocError>
    ensures { IfOk result (λ found. spec.HasValuesOf (I.given inputs.now) found (e.Binary binary.Dot a.now b.now)) }
{
    let count = width_of(a, inputs);
    if count == 0 || width_of(b, inputs) != count {
        let a = Boxed::new(alloc, copy(alloc, a)?)?;
        let b = Boxed::new(alloc, copy(alloc, b)?)?;
        return Ok(Expression::Binary(Binary::Dot, a, b));
    }
    sum_of_products(alloc, a, b, inputs, count)
}

/// A component that is looked at and changes nothing.
fn beside(alloc: Global, found: Expression, other: Expression) -> Result<Expression, AllocError>
    ensures { IfOk result (λ both. both ≡ e.Binary binary.Add found (e.Binary binary.Multiply other (e.Number 0))) }
{
    let nothing = times(alloc, other, Expression::Number(0))?;
    plus(alloc, found, nothing)
}

/// A component of a vector, which looks at all of them, as a part of the vector does.
fn component_beside<I: Inputs>(
    alloc: Global,
    a: &Expression,
    inputs: &I,
    count: usize,
    place: u8,
) -> Result<Expression, AllocError>
    requires { count ≤ 16 }
    ensures { IfOk result (λ found. found ≡ spec.component_beside (I.given inputs.now).shape count a.now place) }
{
    let mut found = column(alloc, a, inputs, place)?;
    for other in 0..count {
        if other != usize::from(place) {
            let other = column(alloc, a, inputs, other as u8)?;
            found = beside(alloc, found, other)?;
        }
    }
    Ok(found)
}

fn is_input(e: &Expression) -> bool {
    match e {
        Expression::Input(_) => true,
        _ => false,
    }
}

/// A part of an expression. Those of an input stay, since they are read where they stand.
fn part<I: Inputs>(
    alloc: Global,
    a: &Expression,
    inputs: &I,
    place: u8,
) -> Result<Expression, AllocError>
    ensures { IfOk result (λ found. spec.HasValuesOf (I.given inputs.now) found (e.Part a.now place)) }
{
    let count = width_of(a, inputs);
    if is_input(a) || count <= usize::from(place) {
        let a = Boxed::new(alloc, copy(alloc, a)?)?;
        return Ok(Expression::Part(a, place));
    }
    component_beside(alloc, a, inputs, count, place)
}

/// An expression that has the values of this one wherever it has some, with the components of vectors of at most 16 values
/// where this one has a scalar product or a part of such vectors. What stands in a vector stays.
pub fn by_components<I: Inputs>(
    alloc: Global,
    e: &Expression,
    inputs: &I,
) -> Result<Expression, AllocError>
    ensures { IfOk result (λ found. spec.HasValuesOf (I.given inputs.now) found e.now) }
{
    match e {
        Expression::Unary(operator, a) => {
            let a = by_components(alloc, a.get(), inputs)?;
            Ok(Expression::Unary(*operator, Boxed::new(alloc, a)?))
        }
        Expression::Binary(operator, a, b) => match *operator {
            Binary::Dot => scalar_product(alloc, a.get(), b.get(), inputs),
            _ => {
                let a = by_components(alloc, a.get(), inputs)?;
                let b = by_components(alloc, b.get(), inputs)?;
                let a = Boxed::new(alloc, a)?;
                Ok(Expression::Binary(*operator, a, Boxed::new(alloc, b)?))
            }
        },
        Expression::Choice(condition, a, b) => {
            let condition = by_components(alloc, condition.get(), inputs)?;
            let a = by_components(alloc, a.get(), inputs)?;
            let b = by_components(alloc, b.get(), inputs)?;
            let condition = Boxed::new(alloc, condition)?;
            let a = Boxed::new(alloc, a)?;
            Ok(Expression::Choice(condition, a, Boxed::new(alloc, b)?))
        }
        Expression::Part(a, place) => part(alloc, a.get(), inputs, *place),
        Expression::Number(_) | Expression::Input(_) | Expression::Vector(_) => copy(alloc, e),
    }
}
