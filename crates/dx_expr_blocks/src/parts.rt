//! Parts of vectors: those of an input are read where they stand.

ghost use Rattle.std.specs.Prelude.{◌≡◌, ◌<◌, ◌+◌, ◌*◌, ℕ, IfOk, Some, [], length, map, pos, slice_index, slice_index_or};
ghost use Rattle.dx_expr_grammar.specs.declared.tree.Expression.TheVariants as expression;
ghost use Rattle.dx_expr.specs.Shape.{shape_of};
ghost use Rattle.dx_expr.specs.Value as spec;
ghost use Rattle.dx_expr_blocks.specs.Block.{block_of, up_to};
ghost use Rattle.dx_expr_blocks.specs.Found.{IsFound};
ghost use Rattle.dx_expr_blocks.specs.Items.{items_of, all_below};

use crate::block::{Block, count, item_at};
use crate::eval::one_by_one;
use crate::int_rows::in_int_rows;
use crate::steps::{Step, filled};
use crate::{Columns, Found, Spare, Table};
use dx_expr::{Expression, Inputs, ItemFault, checked};
use std::alloc::{AllocError, Global};

/// The values in one place of each row, at the items of a block.
#[derive(Drop)]
struct InRows<'a> {
    values: &'a [i64],
    width: usize,
    place: usize,
    block: Block<'a>,
}

impl Step for InRows<'_> {
    ghost use Rattle.std.specs.Prelude.{◌<◌, ◌+◌, ◌*◌, length, pos, slice_index, slice_index_or};
    ghost use Rattle.dx_expr.specs.Value.{checked};
    ghost use Rattle.dx_expr_blocks.specs.Items.{items_of};

    ghost can_step = { λ s place. (place < length (items_of s.block)) × (slice_index (items_of s.block) place * s.width + s.place < length s.values.now) };

    ghost gives = { λ s place _. checked (slice_index_or s.values.now (slice_index (items_of s.block) place * s.width + s.place) (pos 0)) };

    fn step(&self, place: usize, _value: i32) -> Result<i32, ItemFault> {
        checked(self.values[item_at(self.block, place) * self.width + self.place])
    }
}

/// The values of an input in one place, asked for one by one.
#[derive(Drop)]
struct AskPart<'a, I: Inputs> {
    inputs: &'a I,
    k: u8,
    place: u8,
    block: Block<'a>,
}

impl<I: Inputs> Step for AskPart<'_, I> {
    ghost use Rattle.std.specs.Prelude.{◌<◌, length, slice_index};
    ghost use Rattle.dx_expr.specs.Value.{checked, size};
    ghost use Rattle.dx_expr_blocks.specs.Items.{items_of};

    ghost can_step = { λ s place. (s.place < size ((I.given s.inputs.now).shape s.k)) × (place < length (items_of s.block)) × (slice_index (items_of s.block) place < I.items s.inputs.now) };

    ghost gives = { λ s place _. checked ((I.given s.inputs.now).value s.k (slice_index (items_of s.block) place) s.place) };

    fn step(&self, place: usize, _value: i32) -> Result<i32, ItemFault> {
        checked(
            self.inputs.value(
                self.k,
                item_at(self.block, place) as u64,
                u64::from(self.place),
            ),
        )
    }
}

/// The values in one place of each row, at the items of a block.
fn in_rows(values: &[i64], width: usize, place: usize, block: Block<'_>, buffer: Vec<i32>) -> Found
    requires room { length buffer.items ≡ length (items_of block) }
    requires within { (p : ℕ) → p < length (items_of block) → slice_index (items_of block) p * width + place < length values.now }
    ensures { IsFound (up_to (map (λ item. spec.checked (slice_index_or values.now (item * width + place) (pos 0))) (items_of block.entry))) result }
{
    filled(
        &InRows {
            values,
            width,
            place,
            block,
        },
        buffer,
    )
}

/// The values of an input in one place at the items of a block, asked for one by one.
fn asked_part<I: Inputs>(inputs: &I, k: u8, place: u8, block: Block<'_>, buffer: Vec<i32>) -> Found
    requires place { place < spec.size ((I.given inputs.now).shape k) }
    requires room { length buffer.items ≡ length (items_of block) }
    requires within { all_below (I.items inputs.now) (items_of block) }
    ensures { IsFound (up_to (map (λ item. spec.checked ((I.given inputs.now).value k item place)) (items_of block.entry))) result }
{
    filled(
        &AskPart {
            inputs,
            k,
            place,
            block,
        },
        buffer,
    )
}

/// What a block gives of a part of an input.
fn input_part<I: Columns>(
    alloc: Global,
    spare: &mut Spare,
    e: &Expression,
    k: u8,
    place: u8,
    inputs: &I,
    block: Block<'_>,
) -> Result<Found, AllocError>
    requires is { e.now ≡ expression.Part (expression.Input k) place }
    requires single { shape_of (I.given inputs.now).shape e.now ≡ Some [] }
    requires within { all_below (I.items inputs.now) (items_of block) }
    ensures { IfOk result (λ found. IsFound (block_of (I.given inputs.now) e.now (items_of block.entry)) found) }
{
    match inputs.table(k) {
        Table::Rows(values, width) => {
            let buffer = spare.room(alloc, count(block))?;
            Ok(in_rows(values, width, usize::from(place), block, buffer))
        }
        Table::IntRows(values, width) => {
            let buffer = spare.room(alloc, count(block))?;
            Ok(in_int_rows(values, width, usize::from(place), block, buffer))
        }
        Table::Ints => {
            let buffer = spare.room(alloc, count(block))?;
            Ok(asked_part(inputs, k, place, block, buffer))
        }
        Table::Other => one_by_one(alloc, spare, e, inputs, block),
    }
}

/// What a block gives of a part: of an input, or of a vector whose values are found item by item.
pub(crate) fn part_run<I: Columns>(
    alloc: Global,
    spare: &mut Spare,
    e: &Expression,
    a: &Expression,
    place: u8,
    inputs: &I,
    block: Block<'_>,
) -> Result<Found, AllocError>
    requires is { e.now ≡ expression.Part a.now place }
    requires single { shape_of (I.given inputs.now).shape e.now ≡ Some [] }
    requires within { all_below (I.items inputs.now) (items_of block) }
    ensures { IfOk result (λ found. IsFound (block_of (I.given inputs.now) e.now (items_of block.entry)) found) }
{
    match a {
        Expression::Input(k) => input_part(alloc, spare, e, *k, place, inputs, block),
        _ => one_by_one(alloc, spare, e, inputs, block),
    }
}
