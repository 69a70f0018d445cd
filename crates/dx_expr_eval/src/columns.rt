//! Which expressions are evaluated by components of vectors, and these.
ghost use Rattle.std.specs.Prelude.{◌≡◌, ◌<◌, ◌≤◌, [], true, Some, IfOk, length, map};
ghost use Rattle.std.specs.List.{range_with_len};
ghost use Rattle.dx_expr.specs.Shape.{shape_of as spec_shape_of};
ghost use Rattle.dx_expr_columns.specs.Columns as spec;
ghost use Rattle.dx_expr_eval.specs.Rows.{AreColumns};

use dx_base::Items;
use dx_expr::{Binary, Expression, Inputs, is_single, shape_of, uses_input};
use dx_expr_blocks::{Columns, Table};
use dx_expr_columns::{by_components, column, width_of};
use std::alloc::{AllocError, Global};

fn is_signed(e: &Expression) -> bool {
    match e {
        Expression::Unary(_, _) => true,
        _ => false,
    }
}

fn is_input(e: &Expression) -> bool {
    match e {
        Expression::Input(_) => true,
        _ => false,
    }
}

// Whether blocks evaluate each component without a look at an item as a whole. A component has a vector's part alone, and
// so much else of the expression as is a single value.
fn goes_by_columns(e: &Expression) -> bool {
    match e {
        Expression::Number(_) | Expression::Input(_) | Expression::Vector(_) => true,
        Expression::Unary(_, a) => !is_signed(a.get()) && goes_by_columns(a.get()),
        Expression::Binary(Binary::Dot, _, _) => false,
        Expression::Binary(_, a, b) => goes_by_columns(a.get()) && goes_by_columns(b.get()),
        Expression::Choice(condition, a, b) => {
            goes_by_columns(condition.get()) && goes_by_columns(a.get()) && goes_by_columns(b.get())
        }
        Expression::Part(a, _) => is_input(a.get()),
    }
}

// Whether an input's parts are read where they stand.
fn is_read_by_parts<I: Columns>(inputs: &I, k: u8) -> bool {
    match inputs.table(k) {
        Table::Other => inputs.extents(k).is_empty(),
        _ => true,
    }
}

// Whether those of all inputs are that an expression speaks of.
fn are_read_by_parts<I: Columns>(e: &Expression, inputs: &I) -> bool {
    for k in 0..21u8 {
        if uses_input(e, k) && !is_read_by_parts(inputs, k) {
            return false;
        }
    }
    true
}

// Whether an expression that is a single value has a scalar product, or a part of what is no input.
fn has_vectors(e: &Expression) -> bool {
    match e {
        Expression::Number(_) | Expression::Input(_) | Expression::Vector(_) => false,
        Expression::Unary(_, a) => has_vectors(a.get()),
        Expression::Binary(Binary::Dot, _, _) => true,
        Expression::Binary(_, a, b) => has_vectors(a.get()) || has_vectors(b.get()),
        Expression::Choice(condition, a, b) => {
            has_vectors(condition.get()) || has_vectors(a.get()) || has_vectors(b.get())
        }
        Expression::Part(a, _) => !is_input(a.get()),
    }
}

// Whether the vectors in an expression that is a single value go by columns.
fn goes_by_components(e: &Expression) -> bool {
    match e {
        Expression::Number(_) | Expression::Input(_) => true,
        Expression::Vector(_) => false,
        Expression::Unary(_, a) => !is_signed(a.get()) && goes_by_components(a.get()),
        Expression::Binary(Binary::Dot, a, b) => {
            goes_by_columns(a.get()) && goes_by_columns(b.get())
        }
        Expression::Binary(_, a, b) => goes_by_components(a.get()) && goes_by_components(b.get()),
        Expression::Choice(condition, a, b) => {
            goes_by_components(condition.get())
                && goes_by_components(a.get())
                && goes_by_components(b.get())
        }
        Expression::Part(a, _) => goes_by_columns(a.get()),
    }
}

/// The first components of an expression, so many.
fn first_columns<I: Inputs>(
    alloc: Global,
    e: &Expression,
    inputs: &I,
    count: usize,
) -> Result<Items<Expression>, AllocError>
    requires { count ≤ 16 }
    ensures { IfOk result (λ found. found ≡ map (λ j. spec.column (I.given inputs.now).shape j e.now) (range_with_len 0 count)) }
{
    let mut found = Items::new(alloc);
    for place in 0..count {
        found.push(column(alloc, e, inputs, place as u8)?)?;
    }
    Ok(found)
}

/// The expression alone that stands for one that is a single value; none where that is no single value.
fn single_column<I: Inputs>(
    alloc: Global,
    e: &Expression,
    inputs: &I,
) -> Result<Items<Expression>, AllocError>
    requires { spec_shape_of (I.given inputs.now).shape e.now ≡ Some [] }
    ensures { IfOk result (λ found. 0 < length found → AreColumns (I.given inputs.now) e.now found) }
{
    let mut found = Items::new(alloc);
    let single = by_components(alloc, e, inputs)?;
    if is_number(&single, inputs) {
        found.push(single)?;
    }
    Ok(found)
}

/// Whether each item has a single value.
pub(crate) fn is_number<I: Inputs>(e: &Expression, inputs: &I) -> bool
    ensures { result ≡ true → spec_shape_of (I.given inputs.now).shape e.now ≡ Some [] }
{
    match shape_of(e, inputs) {
        Some(shape) => is_single(shape),
        None => false,
    }
}

/// The expressions by which an expression is evaluated that is a single value; none where it has no vectors, or its vectors
/// don't go by columns.
pub(crate) fn columns_of_number<I: Columns>(
    alloc: Global,
    e: &Expression,
    inputs: &I,
) -> Result<Items<Expression>, AllocError>
    requires { spec_shape_of (I.given inputs.now).shape e.now ≡ Some [] }
    ensures { IfOk result (λ found. 0 < length found → AreColumns (I.given inputs.now) e.now found) }
{
    if has_vectors(e) && goes_by_components(e) && are_read_by_parts(e, inputs) {
        return single_column(alloc, e, inputs);
    }
    Ok(Items::new(alloc))
}

/// The components by which an expression is evaluated; none where it is no vector of few values, or doesn't go by columns.
pub(crate) fn columns_of<I: Columns>(
    alloc: Global,
    e: &Expression,
    inputs: &I,
) -> Result<Items<Expression>, AllocError>
    ensures { IfOk result (λ found. 0 < length found → AreColumns (I.given inputs.now) e.now found) }
{
    let count = width_of(e, inputs);
    if count != 0 && goes_by_columns(e) && are_read_by_parts(e, inputs) {
        return first_columns(alloc, e, inputs, count);
    }
    Ok(Items::new(alloc))
}
