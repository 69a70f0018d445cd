//! The values of an item of an expression.

ghost use Rattle.std.specs.Prelude.{◌≡◌, ◌<◌, ◌==◌, [], ◌∷◌, ◌++◌, length, pos, slice_index_or, OnOk, OnErr};
ghost use Rattle.std.specs.List.{range_with_len};
ghost use Rattle.dx_expr.specs.Value as spec;
ghost use Rattle.dx_expr.specs.Value.{each, side_by_side, unary_value, binary_value, dot_from, with_product};
ghost use Rattle.dx_expr.specs.Value.{Outcome, after};
ghost use Rattle.dx_expr.specs.Evaluated.{Gives, GivesSingle};

use crate::operators::{binary_value, checked, truth, unary_value};
use crate::{EvalFail, Inputs, ItemFault};
use dx_base::Items;
use dx_expr_grammar::{Binary, Expression, Unary};
use std::alloc::Global;

/// The values of an item in order, the last extent varying fastest.
pub type Values = Items<i32>;

/// An operator of one operand on each value, in order.
fn each_unary(alloc: Global, operator: Unary, vs: &[i32]) -> Result<Values, EvalFail>
    ensures { Gives (each (unary_value operator) vs.now) result }
{
    let mut found = Items::new(alloc);
    for v in vs {
        found.push(unary_value(operator, *v)?)?;
    }
    Ok(found)
}

/// The value at a place, or 0 where there is none.
fn at(vs: &[i32], place: usize) -> i32
    ensures { result ≡ slice_index_or vs.now place (pos 0) }
{
    match vs.get(place) {
        Some(v) => *v,
        None => 0,
    }
}

/// The value at a place; a single value is at each.
fn value_at(vs: &[i32], place: usize) -> i32
    ensures { result ≡ spec.value_at vs.now place }
{
    at(vs, if vs.len() == 1 { 0 } else { place })
}

/// An operator on the values of both sides at a place.
fn value_of_two(operator: Binary, xs: &[i32], ys: &[i32], place: usize) -> Result<i32, ItemFault>
    ensures { result ≡ binary_value operator (spec.value_at xs.now place) (spec.value_at ys.now place) }
{
    binary_value(operator, value_at(xs, place), value_at(ys, place))
}

/// How many values an operator gives value by value.
fn places(xs: &[i32], ys: &[i32]) -> usize
    ensures { result ≡ spec.places xs.now ys.now }
{
    if xs.len() == 1 { ys.len() } else { xs.len() }
}

/// An operator value by value, in order.
fn beside(alloc: Global, operator: Binary, xs: &[i32], ys: &[i32]) -> Result<Values, EvalFail>
    ensures { Gives (side_by_side (binary_value operator) xs.now ys.now) result }
{
    let mut found = Items::new(alloc);
    for place in 0..places(xs, ys) {
        let v = value_of_two(operator, xs, ys, place)?;
        found.push(v)?;
    }
    Ok(found)
}

/// A sum, with the product at a place added.
fn with_product(sum: i32, xs: &[i32], ys: &[i32], place: usize) -> Result<i32, ItemFault>
    ensures { result ≡ with_product (spec.value_at xs.now place) (spec.value_at ys.now place) sum }
{
    let product = value_of_two(Binary::Multiply, xs, ys, place)?;
    binary_value(Binary::Add, sum, product)
}

/// The products of the values of two vectors, added from the left.
fn dot(xs: &[i32], ys: &[i32]) -> Result<i32, ItemFault>
    ensures { result ≡ dot_from xs.now ys.now (pos 0) (range_with_len 0 (length xs.now)) }
{
    let mut sum = 0;
    for place in 0..xs.len() {
        sum = with_product(sum, xs, ys, place)?;
    }
    Ok(sum)
}

/// The value of an input at an item and a place, where it lies in the int range.
fn input_value<I: Inputs>(inputs: &I, k: u8, item: u64, place: u64) -> Result<i32, ItemFault>
    requires item { item < I.items inputs.now }
    requires place { place < spec.size ((I.given inputs.now).shape k) }
    ensures { result ≡ spec.checked ((I.given inputs.now).value k item place) }
{
    checked(inputs.value(k, item, place))
}

/// The values of an item of an input.
pub fn input_values<I: Inputs>(
    alloc: Global,
    k: u8,
    inputs: &I,
    item: u64,
) -> Result<Values, EvalFail>
    requires { item < I.items inputs.now }
    ensures { Gives (spec.input_values (I.given inputs.now) item k) result }
{
    let mut found = Items::new(alloc);
    for place in 0..inputs.size(k) {
        let v = input_value(inputs, k, item, place)?;
        found.push(v)?;
    }
    Ok(found)
}

/// One value, as the values of an item.
fn alone(alloc: Global, v: i32) -> Result<Values, EvalFail>
    ensures { Gives (spec.alone v) result }
{
    let mut found = Items::new(alloc);
    found.push(v)?;
    Ok(found)
}

/// The value of an item of an input that is a single value.
pub fn single_input<I: Inputs>(inputs: &I, k: u8, item: u64) -> Result<i32, EvalFail>
    requires item { item < I.items inputs.now }
    requires single { (I.given inputs.now).shape k ≡ [] }
    ensures { GivesSingle (spec.input_values (I.given inputs.now) item k) result }
{
    let v = input_value(inputs, k, item, 0)?;
    Ok(v)
}

/// An operator or a function on a single value.
pub fn on_one(operator: Unary, a: Result<i32, EvalFail>) -> Result<i32, EvalFail>
    ensures { (o : Outcome spec.Values) → GivesSingle o a → GivesSingle (after (each (unary_value operator)) o) result }
{
    let v = unary_value(operator, a?)?;
    Ok(v)
}

/// An operator or a function on two single values.
pub fn on_two(operator: Binary, x: i32, b: Result<i32, EvalFail>) -> Result<i32, EvalFail>
    ensures { (o : Outcome spec.Values) → GivesSingle o b → GivesSingle (after (λ y. side_by_side (binary_value operator) (x ∷ []) y) o) result }
{
    let v = binary_value(operator, x, b?)?;
    Ok(v)
}

/// 1 or 0, as the right side decides.
pub fn decided(b: Result<i32, EvalFail>) -> Result<i32, EvalFail>
    ensures { (o : Outcome spec.Values) → GivesSingle o b → GivesSingle (after (spec.decided) o) result }
{
    let y = b?;
    Ok(truth(y != 0))
}

/// The sum of the products of the values of two vectors.
pub fn dot_product(xs: &[i32], b: Result<Values, EvalFail>) -> Result<i32, EvalFail>
    ensures { (o : Outcome spec.Values) → Gives o b → GivesSingle (after (λ y. spec.dot_product xs.now y) o) result }
{
    let ys = b?;
    let v = dot(xs, ys.as_slice())?;
    Ok(v)
}

/// A part of a vector.
pub fn part_of(a: Result<Values, EvalFail>, k: u8) -> Result<i32, EvalFail>
    ensures { (o : Outcome spec.Values) → Gives o a → GivesSingle (after (λ x. spec.alone (slice_index_or x k (pos 0))) o) result }
{
    let vs = a?;
    Ok(at(vs.as_slice(), usize::from(k)))
}

/// An operator of one operand value by value.
pub fn on_each(
    alloc: Global,
    operator: Unary,
    a: Result<Values, EvalFail>,
) -> Result<Values, EvalFail>
    ensures { (o : Outcome spec.Values) → Gives o a → Gives (after (each (unary_value operator)) o) result }
{
    let vs = a?;
    each_unary(alloc, operator, vs.as_slice())
}

/// An operator of two operands value by value.
pub fn on_both(
    alloc: Global,
    operator: Binary,
    xs: &[i32],
    b: Result<Values, EvalFail>,
) -> Result<Values, EvalFail>
    ensures { (o : Outcome spec.Values) → Gives o b → Gives (after (λ y. side_by_side (binary_value operator) xs.now y) o) result }
{
    let ys = b?;
    beside(alloc, operator, xs, ys.as_slice())
}

/// A single value, as the values of an item.
pub fn as_values(alloc: Global, v: Result<i32, EvalFail>) -> Result<Values, EvalFail>
    ensures { (o : Outcome spec.Values) → GivesSingle o v → Gives o result }
{
    alone(alloc, v?)
}
