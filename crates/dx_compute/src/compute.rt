//! The array of an expression over arrays.
ghost use Rattle.std.specs.Prelude.{◌≡◌, ◌≤◌, ◌<◌, ◌*◌, ◌%◌, true, length, option_map, Some, IfOk};
ghost use Rattle.std.specs.List.{list_all};
ghost use Rattle.dx_base.specs.Answers.{refused};
ghost use Rattle.dx_base.specs.Elem.{in_range};
ghost use Rattle.dx_base.specs.declared.elem.ElemType.TheVariants.{Int};
ghost use Rattle.dx_base.specs.Array.{product};
ghost use Rattle.dx_base.specs.ArrayLimits.{is_shape, max_items, max_values};
ghost use Rattle.dx_expr.specs.Shape.{shape_of as spec_shape_of};
ghost use Rattle.dx_expr.specs.Shapes.{extents_of};
ghost use Rattle.dx_expr_bounds.specs.Bounds.{is_bounded};
ghost use Rattle.dx_compute_meaning.specs.Arrays as spec;
ghost use Rattle.dx_compute_meaning.specs.Shown.{shown_arrays, Computes, code_in};

use crate::arrays::are_alike;
use crate::given::Given;
use crate::runs::find_fault_in_runs;
use dx_arrays::{Array, Shape};
use dx_base::{Code, Fail};
use dx_expr::{Expression, ItemFault, shape_of};
use dx_expr_eval::evaluate;
use dx_objects::RunFail;
use std::alloc::{AllocError, Global};

/// How many values an array of ints has at most that is an object: 64 bytes and 4 for each value are at most 268,435,456.
const MOST_VALUES: u64 = 67_108_848;

fn failed(fail: Fail<ItemFault>) -> RunFail
    ensures { code_in result ≡ option_map spec.fault_code (refused fail) }
{
    match fail {
        Fail::Refused(ItemFault::Overflow) => RunFail::Code(Code::Overflow),
        Fail::Refused(ItemFault::DivisionByZero) => RunFail::Code(Code::DivisionByZero),
        Fail::Memory => RunFail::Memory,
    }
}

fn width_of(shape: &[u32]) -> u64
    requires { is_shape shape.now ≡ true }
    ensures width { result ≡ product shape.now }
    ensures few { result ≤ 65536 }
{
    match shape {
        [] => 1,
        [n] => u64::from(*n),
        [n, m, ..] => u64::from(*n) * u64::from(*m),
    }
}

fn extents(alloc: Global, shape: dx_expr::Shape<'_>) -> Result<Shape, AllocError>
    requires { is_shape (extents_of shape) ≡ true }
    ensures { IfOk result (λ found. found ≡ extents_of shape.entry) }
{
    let mut found = Shape::new(alloc);
    match shape {
        dx_expr::Shape::Single => {}
        dx_expr::Shape::Vector(n) => found.push(n as u32)?,
        dx_expr::Shape::Extents(extents) => {
            for n in extents {
                found.push(*n)?;
            }
        }
    }
    Ok(found)
}

/// The expression's array, and nothing where it has more values than an object can: these are computed for their first
/// fault, and not kept.
///
/// ItemMismatch where the numbers of items differ, or else where the shapes don't fit; then Overflow or DivisionByZero,
/// the first fault of the first item that has one.
pub(crate) fn computed(
    alloc: Global,
    e: &Expression,
    arrays: &[Option<&Array>],
    items: u64,
) -> Result<Option<Array>, RunFail>
    requires bounded { is_bounded e.now ≡ true }
    requires items { items ≡ spec.item_count (shown_arrays arrays.now) }
    requires few { items ≤ max_items }
    ensures { Computes (spec.computed e.now (shown_arrays arrays.now)) result }
{
    if !are_alike(arrays, items) {
        return Err(RunFail::Code(Code::ItemMismatch));
    }
    let inputs = Given { arrays, items };
    let Some(shape) = shape_of(e, &inputs) else {
        return Err(RunFail::Code(Code::ItemMismatch));
    };
    let shape = extents(alloc, shape)?;
    array_of(alloc, e, &inputs, shape)
}

// The array of an expression of this shape.
fn array_of(
    alloc: Global,
    e: &Expression,
    inputs: &Given<'_>,
    shape: Shape,
) -> Result<Option<Array>, RunFail>
    requires shape { spec_shape_of (spec.given (shown_arrays inputs.now.arrays.now)).shape e.now ≡ Some shape }
    requires lawful { is_shape shape ≡ true }
    requires few { inputs.now.items ≤ max_items }
    ensures { Computes (spec.array_of e.now (shown_arrays inputs.now.arrays.now) inputs.now.items shape) result }
{
    let values = inputs.items * width_of(shape.as_slice());
    if values > MOST_VALUES {
        too_many(alloc, e, inputs, shape.as_slice())
    } else {
        kept(alloc, e, inputs, shape)
    }
}

// More values than an object holds: only their first fault matters.
fn too_many(
    alloc: Global,
    e: &Expression,
    inputs: &Given<'_>,
    shape: &[u32],
) -> Result<Option<Array>, RunFail>
    requires shape { spec_shape_of (spec.given (shown_arrays inputs.now.arrays.now)).shape e.now ≡ Some shape.now }
    requires many { 67108848 < inputs.now.items * product shape.now }
    ensures { Computes (spec.array_of e.now (shown_arrays inputs.now.arrays.now) inputs.now.items shape.now) result }
{
    match find_fault_in_runs(alloc, e, inputs) {
        Ok(()) => Ok(None),
        Err(fail) => Err(failed(fail)),
    }
}

fn kept(
    alloc: Global,
    e: &Expression,
    inputs: &Given<'_>,
    shape: Shape,
) -> Result<Option<Array>, RunFail>
    requires shape { spec_shape_of (spec.given (shown_arrays inputs.now.arrays.now)).shape e.now ≡ Some shape }
    requires lawful { is_shape shape ≡ true }
    requires few { inputs.now.items ≤ max_items }
    requires less { inputs.now.items * product shape ≤ 67108848 }
    ensures { Computes (spec.array_of e.now (shown_arrays inputs.now.arrays.now) inputs.now.items shape) result }
{
    match evaluate(alloc, e, inputs, inputs.items) {
        Ok(values) => Ok(Some(ints(shape, values.into_vec()))),
        Err(fail) => Err(failed(fail)),
    }
}

// The plain int array of these values.
fn ints(shape: Shape, values: Vec<i32>) -> Array
    requires lawful { is_shape shape ≡ true }
    requires items { length values.items ≤ max_items * product shape }
    requires values { length values.items ≤ max_values }
    requires whole { length values.items % product shape ≡ 0 }
    requires ints { list_all (in_range Int) values.items ≡ true }
    ensures { result ≡ spec.int_array shape values.items }
{
    Array::ints(shape, values).unwrap()
}
