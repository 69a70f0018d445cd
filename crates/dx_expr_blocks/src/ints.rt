//! Inputs whose values stand in 4 bytes each: all of them are ints, so that none is looked at.

ghost use Rattle.std.specs.Prelude.{◌≡◌, ◌-◌, length, map, pos, slice_index_or};
ghost use Rattle.std.specs.List.{range_with_len};
ghost use Rattle.dx_expr.specs.Value as spec;
ghost use Rattle.dx_expr_blocks.specs.Block.{up_to};
ghost use Rattle.dx_expr_blocks.specs.Found.{IsFound};
ghost use Rattle.dx_expr_blocks.specs.Items.{items_of, all_below};

use crate::Found;
use crate::block::Block;
use crate::steps::{Step, filled};
use dx_expr::ItemFault;

/// The ints from an item on.
#[derive(Drop)]
struct Span<'a> {
    values: &'a [i32],
    from: usize,
}

impl Step for Span<'_> {
    ghost use Rattle.std.specs.Prelude.{◌<◌, ◌+◌, length, pos, slice_index_or};
    ghost use Rattle.dx_expr.specs.Value.{checked};

    ghost can_step = { λ s place. s.from + place < length s.values.now };

    ghost gives = { λ s place _. checked (slice_index_or s.values.now (s.from + place) (pos 0)) };

    fn step(&self, place: usize, _value: i32) -> Result<i32, ItemFault> {
        Ok(self.values[self.from + place])
    }
}

/// The ints at these items.
#[derive(Drop)]
struct Gather<'a> {
    values: &'a [i32],
    items: &'a [usize],
}

impl Step for Gather<'_> {
    ghost use Rattle.std.specs.Prelude.{◌<◌, length, pos, slice_index, slice_index_or};
    ghost use Rattle.dx_expr.specs.Value.{checked};

    ghost can_step = { λ s place. (place < length s.items.now) × (slice_index s.items.now place < length s.values.now) };

    ghost gives = { λ s place _. checked (slice_index_or s.values.now (slice_index s.items.now place) (pos 0)) };

    fn step(&self, place: usize, _value: i32) -> Result<i32, ItemFault> {
        Ok(self.values[self.items[place]])
    }
}

/// The ints from one item to before another.
fn spanned(values: &[i32], from: usize, to: usize, buffer: Vec<i32>) -> Found
    requires room { length buffer.items ≡ length (range_with_len from (to - from)) }
    requires within { all_below (length values.now) (range_with_len from (to - from)) }
    ensures { IsFound (up_to (map (λ item. spec.checked (slice_index_or values.now item (pos 0))) (range_with_len from (to - from)))) result }
{
    filled(&Span { values, from }, buffer)
}

/// The ints at these items.
fn gathered(values: &[i32], items: &[usize], buffer: Vec<i32>) -> Found
    requires room { length buffer.items ≡ length items.now }
    requires within { all_below (length values.now) items.now }
    ensures { IsFound (up_to (map (λ item. spec.checked (slice_index_or values.now item (pos 0))) items.now)) result }
{
    filled(&Gather { values, items }, buffer)
}

/// The ints at the items of a block.
pub(crate) fn loaded_ints(values: &[i32], block: Block<'_>, buffer: Vec<i32>) -> Found
    requires room { length buffer.items ≡ length (items_of block) }
    requires within { all_below (length values.now) (items_of block) }
    ensures { IsFound (up_to (map (λ item. spec.checked (slice_index_or values.now item (pos 0))) (items_of block.entry))) result }
{
    match block {
        Block::Range(from, to) => spanned(values, from, to, buffer),
        Block::Listed(items) => gathered(values, items, buffer),
    }
}
