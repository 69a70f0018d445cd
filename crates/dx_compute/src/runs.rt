//! The first fault of all items by runs: a run is left out where it is certain, from where the inputs' values lie in it,
//! that none of its items has a fault.
ghost use Rattle.std.specs.Prelude.{◌≡◌, ◌<◌, ◌≤◌, true, Ok, IfOk, IsSome};
ghost use Rattle.dx_base.specs.Answers.{Answers, refused};
ghost use Rattle.dx_expr.specs.Shape.{shape_of as spec_shape_of};
ghost use Rattle.dx_expr_eval.specs.Items.{all_values, values_from, faultless};
ghost use Rattle.dx_compute_meaning.specs.Arrays as spec;
ghost use Rattle.dx_compute_meaning.specs.Shown.{shown_arrays};

use crate::given::Given;
use crate::ranges::ranges_of;
use dx_base::Fail;
use dx_expr::{Expression, ItemFault};
use dx_expr_eval::find_fault;
use dx_expr_ranges::is_faultless;
use std::alloc::{AllocError, Global};

/// How many items a long run has.
const LONG: u64 = 65_536;

/// How many items a short run has.
const SHORT: u64 = 256;

/// Whether it is certain that no item of a run has a fault.
fn is_certain(
    alloc: Global,
    e: &Expression,
    inputs: &Given<'_>,
    from: u64,
    to: u64,
) -> Result<bool, AllocError>
    requires order { from < to }
    requires within { to ≤ inputs.now.items }
    ensures { IfOk result (λ sure. sure ≡ true → faultless (values_from (spec.given (shown_arrays inputs.now.arrays.now)) e.now from to) ≡ Ok tt) }
{
    let ranges = ranges_of(alloc, inputs, from, to)?;
    Ok(is_faultless(e, &ranges))
}

fn find_fault_in_short_run(
    alloc: Global,
    e: &Expression,
    inputs: &Given<'_>,
    from: u64,
    to: u64,
) -> Result<(), Fail<ItemFault>>
    requires fits { IsSome (spec_shape_of (spec.given (shown_arrays inputs.now.arrays.now)).shape e.now) }
    requires order { from < to }
    requires within { to ≤ inputs.now.items }
    ensures { Answers refused (faultless (values_from (spec.given (shown_arrays inputs.now.arrays.now)) e.now from to)) result }
{
    if is_certain(alloc, e, inputs, from, to)? {
        return Ok(());
    }
    find_fault(alloc, e, inputs, from, to)
}

fn find_fault_in_short_runs(
    alloc: Global,
    e: &Expression,
    inputs: &Given<'_>,
    from: u64,
    to: u64,
) -> Result<(), Fail<ItemFault>>
    requires fits { IsSome (spec_shape_of (spec.given (shown_arrays inputs.now.arrays.now)).shape e.now) }
    requires order { from ≤ to }
    requires within { to ≤ inputs.now.items }
    ensures { Answers refused (faultless (values_from (spec.given (shown_arrays inputs.now.arrays.now)) e.now from to)) result }
{
    let mut first = from;
    'turns: while first < to {
        let behind = first.saturating_add(SHORT).min(to);
        find_fault_in_short_run(alloc, e, inputs, first, behind)?;
        first = behind;
    }
    Ok(())
}

fn find_fault_in_long_run(
    alloc: Global,
    e: &Expression,
    inputs: &Given<'_>,
    from: u64,
    to: u64,
) -> Result<(), Fail<ItemFault>>
    requires fits { IsSome (spec_shape_of (spec.given (shown_arrays inputs.now.arrays.now)).shape e.now) }
    requires order { from < to }
    requires within { to ≤ inputs.now.items }
    ensures { Answers refused (faultless (values_from (spec.given (shown_arrays inputs.now.arrays.now)) e.now from to)) result }
{
    if is_certain(alloc, e, inputs, from, to)? {
        return Ok(());
    }
    find_fault_in_short_runs(alloc, e, inputs, from, to)
}

/// Whether each item has its values; where one has none, the first fault of the first such item.
///
/// Long runs are looked at before the short runs in them, so that where few inputs are near a fault, few looks do.
pub(crate) fn find_fault_in_runs(
    alloc: Global,
    e: &Expression,
    inputs: &Given<'_>,
) -> Result<(), Fail<ItemFault>>
    requires fits { IsSome (spec_shape_of (spec.given (shown_arrays inputs.now.arrays.now)).shape e.now) }
    ensures { Answers refused (faultless (all_values (spec.given (shown_arrays inputs.now.arrays.now)) e.now inputs.now.items)) result }
{
    let to = inputs.items;
    let mut first = 0;
    'turns: while first < to {
        let behind = first.saturating_add(LONG).min(to);
        find_fault_in_long_run(alloc, e, inputs, first, behind)?;
        first = behind;
    }
    Ok(())
}
