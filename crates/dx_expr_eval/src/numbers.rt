//! Expressions that are a single value for each item, by blocks of items.
ghost use Rattle.std.specs.Prelude.{◌≡◌, ◌≤◌, [], length, Some, IfOk};
ghost use Rattle.dx_base.specs.Answers.{Answers, refused};
ghost use Rattle.dx_expr.specs.Shape.{shape_of as spec_shape_of};
ghost use Rattle.dx_expr_eval.specs.Items.{all_values, values_from, faultless};

use dx_base::{Fail, Items};
use dx_expr::{Expression, ItemFault};
use dx_expr_blocks::{Columns, Spare, evaluate_range};
use std::alloc::Global;

/// How many items a block has: so few that its buffers stay near the processor.
const BLOCK: usize = 1024;

/// The values of so many items.
pub(crate) fn evaluate_numbers<I: Columns>(
    alloc: Global,
    e: &Expression,
    inputs: &I,
    items: usize,
) -> Result<Items<i32>, Fail<ItemFault>>
    requires single { spec_shape_of (I.given inputs.now).shape e.now ≡ Some [] }
    requires within { items ≤ I.items inputs.now }
    ensures values { Answers refused (all_values (I.given inputs.now) e.now items) result }
    ensures count { IfOk result (λ vs. length vs ≡ items) }
{
    let mut spare = Spare::new(alloc);
    let mut found = Vec::with_capacity(alloc, items)?;
    let mut from = 0;
    'turns: while from < items {
        let to = from.saturating_add(BLOCK).min(items);
        let block = evaluate_range(alloc, &mut spare, e, inputs, from, to)?;
        if let Some(fault) = block.fault {
            return Err(Fail::Refused(fault));
        }
        found.extend_from_slice(block.values.as_slice())?;
        spare.keep_values(block.values)?;
        from = to;
    }
    Ok(Items::from_vec(found))
}

/// Whether each item from one to before another has its value.
pub(crate) fn find_fault_of_numbers<I: Columns>(
    alloc: Global,
    e: &Expression,
    inputs: &I,
    from: usize,
    to: usize,
) -> Result<(), Fail<ItemFault>>
    requires single { spec_shape_of (I.given inputs.now).shape e.now ≡ Some [] }
    requires order { from ≤ to }
    requires within { to ≤ I.items inputs.now }
    ensures { Answers refused (faultless (values_from (I.given inputs.now) e.now from to)) result }
{
    let mut spare = Spare::new(alloc);
    let mut first = from;
    'turns: while first < to {
        let behind = first.saturating_add(BLOCK).min(to);
        let block = evaluate_range(alloc, &mut spare, e, inputs, first, behind)?;
        if let Some(fault) = block.fault {
            return Err(Fail::Refused(fault));
        }
        spare.keep_values(block.values)?;
        first = behind;
    }
    Ok(())
}
