//! Inputs with parts whose values stand in 4 bytes each: all of them are ints, so that none is looked at.

ghost use Rattle.std.specs.Prelude.{◌≡◌, ◌-◌, ◌<◌, ◌+◌, ◌*◌, ℕ, length, map, pos, slice_index, slice_index_or};
ghost use Rattle.std.specs.List.{range_with_len};
ghost use Rattle.dx_expr.specs.Value as spec;
ghost use Rattle.dx_expr_blocks.specs.Block.{up_to};
ghost use Rattle.dx_expr_blocks.specs.Found.{IsFound};
ghost use Rattle.dx_expr_blocks.specs.Items.{items_of};

use crate::Found;
use crate::block::Block;
use crate::steps::{Step, filled};
use dx_expr::ItemFault;

/// The ints of one place in rows of a width, from one of them on.
#[derive(Drop)]
struct RowSpan<'a> {
    values: &'a [i32],
    width: usize,
    first: usize,
}

impl Step for RowSpan<'_> {
    ghost use Rattle.std.specs.Prelude.{◌<◌, ◌+◌, ◌*◌, length, pos, slice_index_or};
    ghost use Rattle.dx_expr.specs.Value.{checked};

    ghost can_step = { λ s place. s.first + place * s.width < length s.values.now };

    ghost gives = { λ s place _. checked (slice_index_or s.values.now (s.first + place * s.width) (pos 0)) };

    fn step(&self, place: usize, _value: i32) -> Result<i32, ItemFault> {
        Ok(self.values[self.first + place * self.width])
    }
}

/// The ints in one place of the rows of these items.
#[derive(Drop)]
struct RowGather<'a> {
    values: &'a [i32],
    width: usize,
    place: usize,
    items: &'a [usize],
}

impl Step for RowGather<'_> {
    ghost use Rattle.std.specs.Prelude.{◌<◌, ◌+◌, ◌*◌, length, pos, slice_index, slice_index_or};
    ghost use Rattle.dx_expr.specs.Value.{checked};

    ghost can_step = { λ s place. (place < length s.items.now) × (slice_index s.items.now place * s.width + s.place < length s.values.now) };

    ghost gives = { λ s place _. checked (slice_index_or s.values.now (slice_index s.items.now place * s.width + s.place) (pos 0)) };

    fn step(&self, place: usize, _value: i32) -> Result<i32, ItemFault> {
        Ok(self.values[self.items[place] * self.width + self.place])
    }
}

/// The ints in one place of the rows from one item to before another.
fn spanned(
    values: &[i32],
    width: usize,
    place: usize,
    from: usize,
    to: usize,
    buffer: Vec<i32>,
) -> Found
    requires room { length buffer.items ≡ length (range_with_len from (to - from)) }
    requires within { (p : ℕ) → p < length (range_with_len from (to - from)) → slice_index (range_with_len from (to - from)) p * width + place < length values.now }
    ensures { IsFound (up_to (map (λ item. spec.checked (slice_index_or values.now (item * width + place) (pos 0))) (range_with_len from (to - from)))) result }
{
    if to <= from {
        return Found {
            values: buffer,
            fault: None,
        };
    }
    let first = from * width + place;
    filled(
        &RowSpan {
            values,
            width,
            first,
        },
        buffer,
    )
}

/// The ints in one place of the rows of these items.
fn gathered(values: &[i32], width: usize, place: usize, items: &[usize], buffer: Vec<i32>) -> Found
    requires room { length buffer.items ≡ length items.now }
    requires within { (p : ℕ) → p < length items.now → slice_index items.now p * width + place < length values.now }
    ensures { IsFound (up_to (map (λ item. spec.checked (slice_index_or values.now (item * width + place) (pos 0))) items.now)) result }
{
    filled(
        &RowGather {
            values,
            width,
            place,
            items,
        },
        buffer,
    )
}

/// The ints in one place of the rows of a block's items.
pub(crate) fn in_int_rows(
    values: &[i32],
    width: usize,
    place: usize,
    block: Block<'_>,
    buffer: Vec<i32>,
) -> Found
    requires room { length buffer.items ≡ length (items_of block) }
    requires within { (p : ℕ) → p < length (items_of block) → slice_index (items_of block) p * width + place < length values.now }
    ensures { IsFound (up_to (map (λ item. spec.checked (slice_index_or values.now (item * width + place) (pos 0))) (items_of block.entry))) result }
{
    match block {
        Block::Range(from, to) => spanned(values, width, place, from, to, buffer),
        Block::Listed(items) => gathered(values, width, place, items, buffer),
    }
}
