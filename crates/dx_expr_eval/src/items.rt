//! All items of an expression: by blocks where each has a single value, and else one after the other.
ghost use Rattle.std.specs.Prelude.{◌≡◌, ◌≤◌, ◌*◌, [], true, length, IsSome, Some, IfOk};
ghost use Rattle.std.specs.List.{list_all};
ghost use Rattle.dx_base.specs.Answers.{Answers, refused};
ghost use Rattle.dx_base.specs.Elem.{in_range};
ghost use Rattle.dx_base.specs.declared.elem.ElemType.TheVariants.{Int};
ghost use Rattle.dx_expr.specs.Shape as shapes;
ghost use Rattle.dx_expr.specs.Value as spec;
ghost use Rattle.dx_expr_eval.specs.Items.{all_values, values_from, faultless};

use crate::columns::{columns_of, columns_of_number, is_number};
use crate::components::{evaluate_components, find_fault_of_components};
use crate::numbers::{evaluate_numbers, find_fault_of_numbers};
use crate::vectors::{evaluate_vectors, find_fault_of_vectors};
use dx_base::{Fail, Items};
use dx_expr::{Expression, ItemFault};
use dx_expr_blocks::Columns;
use std::alloc::Global;

/// The values of the items from 0 on, so many, item by item and each with all its values.
///
/// Where an item has none, the answer is the first fault of the first such item (User's Reference, Compute).
pub fn evaluate<I: Columns>(
    alloc: Global,
    e: &Expression,
    inputs: &I,
    items: u64,
) -> Result<Items<i32>, Fail<ItemFault>>
    requires fits { IsSome (shapes.shape_of (I.given inputs.now).shape e.now) }
    requires within { items ≤ I.items inputs.now }
    ensures values { Answers refused (all_values (I.given inputs.now) e.now items) result }
    ensures count { (s : shapes.Shape) → shapes.shape_of (I.given inputs.now).shape e.now ≡ Some s →
        IfOk result (λ vs. length vs ≡ items * spec.size s) }
    ensures ints { IfOk result (λ vs. list_all (in_range Int) vs ≡ true) }
{
    let is_number = is_number(e, inputs);
    let columns = if is_number {
        columns_of_number(alloc, e, inputs)?
    } else {
        columns_of(alloc, e, inputs)?
    };
    if !columns.is_empty() {
        return evaluate_components(alloc, e, columns.as_slice(), inputs, items as usize);
    }
    if is_number {
        evaluate_numbers(alloc, e, inputs, items as usize)
    } else {
        evaluate_vectors(alloc, e, inputs, items)
    }
}

/// Whether each item from one to before another has its values; where one has none, the first fault of the first such item.
pub fn find_fault<I: Columns>(
    alloc: Global,
    e: &Expression,
    inputs: &I,
    from: u64,
    to: u64,
) -> Result<(), Fail<ItemFault>>
    requires fits { IsSome (shapes.shape_of (I.given inputs.now).shape e.now) }
    requires order { from ≤ to }
    requires within { to ≤ I.items inputs.now }
    ensures { Answers refused (faultless (values_from (I.given inputs.now) e.now from to)) result }
{
    let is_number = is_number(e, inputs);
    let columns = if is_number {
        columns_of_number(alloc, e, inputs)?
    } else {
        columns_of(alloc, e, inputs)?
    };
    if !columns.is_empty() {
        let columns = columns.as_slice();
        return find_fault_of_components(alloc, e, columns, inputs, from as usize, to as usize);
    }
    if is_number {
        find_fault_of_numbers(alloc, e, inputs, from as usize, to as usize)
    } else {
        find_fault_of_vectors(alloc, e, inputs, from, to)
    }
}
