//! Expressions that are vectors, item by item.
ghost use Rattle.std.specs.Prelude.{◌≡◌, ◌≤◌, ◌<◌, ◌*◌, length, IsSome, Some, IfOk};
ghost use Rattle.dx_base.specs.Answers.{Answers, refused};
ghost use Rattle.dx_expr.specs.Shape as shapes;
ghost use Rattle.dx_expr.specs.Value as spec;
ghost use Rattle.dx_expr_eval.specs.Items.{all_values, values_from, faultless};

use dx_base::{Fail, Items};
use dx_expr::{EvalFail, Expression, Inputs, ItemFault, Values, values_of};
use std::alloc::Global;

/// The values of the items from 0 on, so many, item by item and each with all its values.
///
/// Where an item has none, the answer is the first fault of the first such item (User's Reference, Compute).
pub(crate) fn evaluate_vectors<I: Inputs>(
    alloc: Global,
    e: &Expression,
    inputs: &I,
    items: u64,
) -> Result<Items<i32>, Fail<ItemFault>>
    requires fits { IsSome (shapes.shape_of (I.given inputs.now).shape e.now) }
    requires within { items ≤ I.items inputs.now }
    ensures values { Answers refused (all_values (I.given inputs.now) e.now items) result }
    ensures count { (s : shapes.Shape) → shapes.shape_of (I.given inputs.now).shape e.now ≡ Some s →
        IfOk result (λ vs. length vs ≡ items * spec.size s) }
{
    let mut found = Vec::new(alloc);
    for item in 0..items {
        let values = item_values(alloc, e, inputs, item)?;
        found.extend_from_slice(values.as_slice())?;
    }
    Ok(Items::from_vec(found))
}

/// Whether each item from one to before another has its values; where one has none, the first fault of the first such item.
pub(crate) fn find_fault_of_vectors<I: Inputs>(
    alloc: Global,
    e: &Expression,
    inputs: &I,
    from: u64,
    to: u64,
) -> Result<(), Fail<ItemFault>>
    requires fits { IsSome (shapes.shape_of (I.given inputs.now).shape e.now) }
    requires order { from ≤ to }
    requires within { to ≤ I.items inputs.now }
    ensures { Answers refused (faultless (values_from (I.given inputs.now) e.now from to)) result }
{
    for item in from..to {
        item_values(alloc, e, inputs, item)?;
    }
    Ok(())
}

pub(crate) fn item_values<I: Inputs>(
    alloc: Global,
    e: &Expression,
    inputs: &I,
    item: u64,
) -> Result<Values, Fail<ItemFault>>
    requires fits { IsSome (shapes.shape_of (I.given inputs.now).shape e.now) }
    requires item { item < I.items inputs.now }
    ensures values { Answers refused (spec.value_of (I.given inputs.now) item e.now) result }
    ensures count { (s : shapes.Shape) → shapes.shape_of (I.given inputs.now).shape e.now ≡ Some s →
        IfOk result (λ vs. length vs ≡ spec.size s) }
{
    match values_of(alloc, e, inputs, item) {
        Ok(values) => Ok(values),
        Err(EvalFail::Fault(fault)) => Err(Fail::Refused(fault)),
        Err(EvalFail::Memory) => Err(Fail::Memory),
    }
}
