//! A block's items of a vector expression: component by component, and then in rows.
ghost use Rattle.std.specs.Prelude.{◌≡◌, ◌<◌, ◌≤◌, ◌+◌, ◌-◌, ◌*◌, ℕ, [], Some, IfOk, length, pos, slice_index_or};
ghost use Rattle.dx_base.specs.Answers.{IsEither, refused};
ghost use Rattle.dx_expr.specs.Shape.{shape_of};
ghost use Rattle.dx_expr_columns.specs.Columns.{part_at};
ghost use Rattle.dx_expr_eval.specs.Rows.{AreColumns, HaveValues, HasItems, Fails};

use crate::vectors::item_values;
use dx_base::Fail;
use dx_expr::{Expression, ItemFault};
use dx_expr_blocks::{Columns, Spare, evaluate_range};
use std::alloc::{AllocError, Global};

/// The values of so many items, item by item.
#[derive(Drop)]
pub(crate) struct Piece {
    pub count: usize,
    pub values: Vec<i32>,
}

/// Puts the first of these values, so many, in their place of each row.
fn place_column(rows: &mut [i32], values: &[i32], count: usize, width: usize, place: usize)
    requires enough { count ≤ length values.now }
    requires place { place < width }
    requires room { count * width ≤ length rows.old }
    ensures length { length rows.new ≡ length rows.old }
    ensures column { (i : ℕ) → i < count → slice_index_or rows.new (i * width + place) (pos 0) ≡ slice_index_or values.now i (pos 0) }
    ensures others { (i j : ℕ) → j < width → (j ≡ place → ⊥) → slice_index_or rows.new (i * width + j) (pos 0) ≡ slice_index_or rows.old (i * width + j) (pos 0) }
{
    for row in 0..count {
        rows[row * width + place] = values[row];
    }
}

/// The items from one to before another, up to the first for which a component has no value.
fn component_rows<I: Columns>(
    alloc: Global,
    spare: &mut Spare,
    columns: &[Expression],
    inputs: &I,
    from: usize,
    to: usize,
) -> Result<Piece, AllocError>
    requires singles { (j : ℕ) → j < length columns.now → shape_of (I.given inputs.now).shape (part_at columns.now j) ≡ Some [] }
    requires few { length columns.now ≤ 16 }
    requires order { from ≤ to }
    requires near { to - from ≤ 1024 }
    requires within { to ≤ I.items inputs.now }
    ensures count { IfOk result (λ found. found.count ≤ to - from) }
    ensures values { IfOk result (λ found. HaveValues (I.given inputs.now) columns.now (length columns.now) from found.count (length columns.now) found.values.items) }
    ensures length { IfOk result (λ found. length found.values.items ≡ found.count * length columns.now) }
{
    let width = columns.len();
    let mut count = to - from;
    let mut values = spare.values(alloc, count * width, 0)?;
    for place in 0..width {
        let found = evaluate_range(alloc, spare, &columns[place], inputs, from, to)?;
        count = count.min(found.values.len());
        place_column(
            values.as_mut_slice(),
            found.values.as_slice(),
            count,
            width,
            place,
        );
        spare.keep_values(found.values)?;
    }
    values.truncate(count * width);
    Ok(Piece { count, values })
}

/// The items from one to before another, or the first of them; where a component of an item has no value, that item is
/// evaluated as a whole.
pub(crate) fn block<I: Columns>(
    alloc: Global,
    spare: &mut Spare,
    e: &Expression,
    columns: &[Expression],
    inputs: &I,
    from: usize,
    to: usize,
) -> Result<Piece, Fail<ItemFault>>
    requires columns { AreColumns (I.given inputs.now) e.now columns.now }
    requires order { from < to }
    requires near { to - from ≤ 1024 }
    requires within { to ≤ I.items inputs.now }
    ensures { IsEither refused (λ found. HasItems (I.given inputs.now) e.now from to found.count found.values.items) (λ fault. Fails (I.given inputs.now) e.now from to fault) result }
{
    let mut found = component_rows(alloc, spare, columns, inputs, from, to)?;
    if found.count == to - from {
        return Ok(found);
    }
    let values = item_values(alloc, e, inputs, (from + found.count) as u64)?;
    found.values.extend_from_slice(values.as_slice())?;
    found.count += 1;
    Ok(found)
}
