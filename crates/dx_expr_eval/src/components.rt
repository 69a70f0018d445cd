//! Expressions that are vectors, by their components and by blocks of items.
ghost use Rattle.std.specs.Prelude.{◌≤◌};
ghost use Rattle.dx_base.specs.Answers.{Answers, refused};
ghost use Rattle.dx_expr_eval.specs.Items.{all_values, values_from, faultless};
ghost use Rattle.dx_expr_eval.specs.Rows.{AreColumns};

use crate::rows::block;
use dx_base::{Fail, Items};
use dx_expr::{Expression, ItemFault};
use dx_expr_blocks::{Columns, Spare};
use std::alloc::Global;

/// How many items a block has.
const BLOCK: usize = 1024;

/// The values of so many items of an expression with these components.
pub(crate) fn evaluate_components<I: Columns>(
    alloc: Global,
    e: &Expression,
    columns: &[Expression],
    inputs: &I,
    items: usize,
) -> Result<Items<i32>, Fail<ItemFault>>
    requires columns { AreColumns (I.given inputs.now) e.now columns.now }
    requires within { items ≤ I.items inputs.now }
    ensures { Answers refused (all_values (I.given inputs.now) e.now items) result }
{
    let mut spare = Spare::new(alloc);
    let mut found = Vec::with_capacity(alloc, items.saturating_mul(columns.len()))?;
    let mut from = 0;
    'turns: while from < items {
        let to = from.saturating_add(BLOCK).min(items);
        let rows = block(alloc, &mut spare, e, columns, inputs, from, to)?;
        found.extend_from_slice(rows.values.as_slice())?;
        spare.keep_values(rows.values)?;
        from += rows.count;
    }
    Ok(Items::from_vec(found))
}

/// Whether each item from one to before another has its values.
pub(crate) fn find_fault_of_components<I: Columns>(
    alloc: Global,
    e: &Expression,
    columns: &[Expression],
    inputs: &I,
    from: usize,
    to: usize,
) -> Result<(), Fail<ItemFault>>
    requires columns { AreColumns (I.given inputs.now) e.now columns.now }
    requires order { from ≤ to }
    requires within { to ≤ I.items inputs.now }
    ensures { Answers refused (faultless (values_from (I.given inputs.now) e.now from to)) result }
{
    let mut spare = Spare::new(alloc);
    let mut first = from;
    'turns: while first < to {
        let behind = first.saturating_add(BLOCK).min(to);
        let rows = block(alloc, &mut spare, e, columns, inputs, first, behind)?;
        spare.keep_values(rows.values)?;
        first += rows.count;
    }
    Ok(())
}
