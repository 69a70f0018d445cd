//! Copies of an expression's tree.

ghost use Rattle.std.specs.Prelude.{◌≡◌, IfOk};

use dx_base::Items;
use dx_expr::{Boxed, Expression};
use std::alloc::{AllocError, Global};

/// A tree like this one.
#[cycle(copy)]
pub fn copy(alloc: Global, e: &Expression) -> Result<Expression, AllocError>
    ensures { IfOk result (λ found. found ≡ e.now) }
{
    Ok(match e {
        Expression::Number(n) => Expression::Number(*n),
        Expression::Input(k) => Expression::Input(*k),
        Expression::Unary(operator, a) => Expression::Unary(*operator, boxed_copy(alloc, a.get())?),
        Expression::Binary(operator, a, b) => {
            let a = boxed_copy(alloc, a.get())?;
            Expression::Binary(*operator, a, boxed_copy(alloc, b.get())?)
        }
        Expression::Choice(condition, a, b) => {
            let condition = boxed_copy(alloc, condition.get())?;
            let a = boxed_copy(alloc, a.get())?;
            Expression::Choice(condition, a, boxed_copy(alloc, b.get())?)
        }
        Expression::Part(a, k) => Expression::Part(boxed_copy(alloc, a.get())?, *k),
        Expression::Vector(parts) => Expression::Vector(copies(alloc, parts.as_slice())?),
    })
}

/// The same on the heap.
#[cycle(copy)]
fn boxed_copy(alloc: Global, e: &Expression) -> Result<Boxed<Expression>, AllocError>
    ensures { IfOk result (λ found. found ≡ e.now) }
{
    Boxed::new(alloc, copy(alloc, e)?)
}

/// A copy of each, in order.
#[cycle(copy)]
fn copies(alloc: Global, parts: &[Expression]) -> Result<Items<Expression>, AllocError>
    ensures { IfOk result (λ found. found ≡ parts.now) }
{
    let mut found = Items::new(alloc);
    for part in parts {
        found.push(copy(alloc, part)?)?;
    }
    Ok(found)
}
