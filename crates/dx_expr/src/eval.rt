//! The evaluation of an item of an expression.

ghost use Rattle.std.specs.Prelude.{◌≡◌, ◌<◌, [], Some, IfOk, IsSome, length, map, pos, true};
ghost use Rattle.dx_expr_grammar.specs.declared.tree.Expression.TheVariants as expression;
ghost use Rattle.dx_expr.specs.Shape as shapes;
ghost use Rattle.dx_expr.specs.Value as spec;
ghost use Rattle.dx_expr.specs.Evaluated.{Gives, GivesSingle};

use crate::operators::{Sides, checked, sides_of};
use crate::values::{
    Values, as_values, decided, dot_product, input_values, on_both, on_each, on_one, on_two,
    part_of, single_input,
};
use crate::{EvalFail, Inputs};
use dx_base::Items;
use dx_expr_grammar::{Binary, Expression};
use std::alloc::Global;

fn number(n: u32) -> Result<i32, EvalFail>
    ensures { GivesSingle (spec.after spec.alone (spec.checked (pos n))) result }
{
    let v = checked(i64::from(n))?;
    Ok(v)
}

/// The value of an item of an expression that is a single value. Parts that are single values take no memory.
#[cycle(eval)]
pub fn single_value<I: Inputs>(
    alloc: Global,
    e: &Expression,
    inputs: &I,
    item: u64,
) -> Result<i32, EvalFail>
    requires single { shapes.shape_of (I.given inputs.now).shape e.now ≡ Some [] }
    requires item { item < I.items inputs.now }
    ensures { GivesSingle (spec.value_of (I.given inputs.now) item e.now) result }
{
    match e {
        Expression::Number(n) => number(*n),
        Expression::Input(k) => single_input(inputs, *k, item),
        Expression::Unary(operator, a) => {
            on_one(*operator, single_value(alloc, a.get(), inputs, item))
        }
        Expression::Binary(operator, a, b) => {
            operator_value(alloc, *operator, a.get(), b.get(), inputs, item)
        }
        Expression::Choice(condition, a, b) => {
            let c = single_value(alloc, condition.get(), inputs, item)?;
            if c == 0 {
                single_value(alloc, b.get(), inputs, item)
            } else {
                single_value(alloc, a.get(), inputs, item)
            }
        }
        Expression::Part(a, k) => part_of(all_values(alloc, a.get(), inputs, item), *k),
        Expression::Vector(_) => unreachable!(),
    }
}

/// The value of an item of an operator or a function of two operands that is a single value.
#[cycle(eval)]
fn operator_value<I: Inputs>(
    alloc: Global,
    operator: Binary,
    a: &Expression,
    b: &Expression,
    inputs: &I,
    item: u64,
) -> Result<i32, EvalFail>
    requires single { shapes.shape_of (I.given inputs.now).shape (expression.Binary operator a.now b.now) ≡ Some [] }
    requires item { item < I.items inputs.now }
    ensures { GivesSingle (spec.value_of (I.given inputs.now) item (expression.Binary operator a.now b.now)) result }
{
    match sides_of(operator) {
        Sides::UnlessTrue => {
            let x = single_value(alloc, a, inputs, item)?;
            if x != 0 {
                return Ok(1);
            }
            decided(single_value(alloc, b, inputs, item))
        }
        Sides::IfTrue => {
            let x = single_value(alloc, a, inputs, item)?;
            if x == 0 {
                return Ok(0);
            }
            decided(single_value(alloc, b, inputs, item))
        }
        Sides::Vectors => {
            let x = all_values(alloc, a, inputs, item)?;
            dot_product(x.as_slice(), all_values(alloc, b, inputs, item))
        }
        Sides::Both => {
            let x = single_value(alloc, a, inputs, item)?;
            on_two(operator, x, single_value(alloc, b, inputs, item))
        }
    }
}

/// The values of an item of an expression whose shapes fit, in order.
#[cycle(eval)]
fn all_values<I: Inputs>(
    alloc: Global,
    e: &Expression,
    inputs: &I,
    item: u64,
) -> Result<Values, EvalFail>
    requires fits { IsSome (shapes.shape_of (I.given inputs.now).shape e.now) }
    requires item { item < I.items inputs.now }
    ensures { Gives (spec.value_of (I.given inputs.now) item e.now) result }
{
    match e {
        Expression::Number(_) => as_values(alloc, single_value(alloc, e, inputs, item)),
        Expression::Input(k) => input_values(alloc, *k, inputs, item),
        Expression::Unary(operator, a) => {
            on_each(alloc, *operator, all_values(alloc, a.get(), inputs, item))
        }
        Expression::Binary(operator, a, b) => match sides_of(*operator) {
            Sides::Both => {
                let x = all_values(alloc, a.get(), inputs, item)?;
                on_both(
                    alloc,
                    *operator,
                    x.as_slice(),
                    all_values(alloc, b.get(), inputs, item),
                )
            }
            _ => as_values(alloc, single_value(alloc, e, inputs, item)),
        },
        Expression::Choice(condition, a, b) => {
            let c = single_value(alloc, condition.get(), inputs, item)?;
            if c == 0 {
                all_values(alloc, b.get(), inputs, item)
            } else {
                all_values(alloc, a.get(), inputs, item)
            }
        }
        Expression::Part(_, _) => as_values(alloc, single_value(alloc, e, inputs, item)),
        Expression::Vector(parts) => vector_values(alloc, parts.as_slice(), inputs, item),
    }
}

/// The values of the parts of a vector.
#[cycle(eval)]
fn vector_values<I: Inputs>(
    alloc: Global,
    parts: &[Expression],
    inputs: &I,
    item: u64,
) -> Result<Values, EvalFail>
    requires fit { shapes.all_single (map (shapes.shape_of (I.given inputs.now).shape) parts.now) ≡ true }
    requires item { item < I.items inputs.now }
    ensures { Gives (spec.joined (map (spec.value_of (I.given inputs.now) item) parts.now)) result }
{
    let mut found = Items::new(alloc);
    for part in parts {
        let v = single_value(alloc, part, inputs, item)?;
        found.push(v)?;
    }
    Ok(found)
}

/// The values of an item of an expression whose shapes fit, in order: as many as the product of the shape's extents.
pub fn values_of<I: Inputs>(
    alloc: Global,
    e: &Expression,
    inputs: &I,
    item: u64,
) -> Result<Values, EvalFail>
    requires fits { IsSome (shapes.shape_of (I.given inputs.now).shape e.now) }
    requires item { item < I.items inputs.now }
    ensures values { Gives (spec.value_of (I.given inputs.now) item e.now) result }
    ensures count { (s : shapes.Shape) → shapes.shape_of (I.given inputs.now).shape e.now ≡ Some s →
        IfOk result (λ vs. length vs ≡ spec.size s) }
{
    all_values(alloc, e, inputs, item)
}
