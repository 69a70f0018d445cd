//! Operands without parts: numbers and inputs.

ghost use Rattle.std.specs.Prelude.{◌≡◌, ◌<◌, ℕ, List, IfOk, IfSome, None, Some, [], length, map, replicate, pos, slice_index_or};
ghost use Rattle.dx_expr.specs.Shape as shapes;
ghost use Rattle.dx_expr.specs.Value as spec;
ghost use Rattle.dx_expr_blocks.specs.Block.{block_of, run_of, up_to};
ghost use Rattle.dx_expr_blocks.specs.Found.{IsFound};
ghost use Rattle.dx_expr_blocks.specs.Items.{items_of, all_below};

use crate::block::{Block, count, item_at};
use crate::ints::loaded_ints;
use crate::steps::{Step, filled};
use crate::{Columns, Found, Source, Spare};
use dx_expr::{Expression, Inputs, ItemFault, checked};
use std::alloc::{AllocError, Global};

/// The values of an array at the items of a block.
#[derive(Drop)]
struct Load<'a> {
    values: &'a [i64],
    block: Block<'a>,
}

impl Step for Load<'_> {
    ghost use Rattle.std.specs.Prelude.{◌<◌, length, pos, slice_index, slice_index_or};
    ghost use Rattle.dx_expr.specs.Value.{checked};
    ghost use Rattle.dx_expr_blocks.specs.Items.{items_of};

    ghost can_step = { λ s place. (place < length (items_of s.block)) × (slice_index (items_of s.block) place < length s.values.now) };

    ghost gives = { λ s place _. checked (slice_index_or s.values.now (slice_index (items_of s.block) place) (pos 0)) };

    fn step(&self, place: usize, _value: i32) -> Result<i32, ItemFault> {
        checked(self.values[item_at(self.block, place)])
    }
}

/// The values of an input that are asked for one by one.
#[derive(Drop)]
struct Ask<'a, I: Inputs> {
    inputs: &'a I,
    k: u8,
    block: Block<'a>,
}

impl<I: Inputs> Step for Ask<'_, I> {
    ghost use Rattle.std.specs.Prelude.{◌≡◌, ◌<◌, [], length, slice_index};
    ghost use Rattle.dx_expr.specs.Value.{checked};
    ghost use Rattle.dx_expr_blocks.specs.Items.{items_of};

    ghost can_step = { λ s place. ((I.given s.inputs.now).shape s.k ≡ []) × (place < length (items_of s.block)) × (slice_index (items_of s.block) place < I.items s.inputs.now) };

    ghost gives = { λ s place _. checked ((I.given s.inputs.now).value s.k (slice_index (items_of s.block) place) 0) };

    fn step(&self, place: usize, _value: i32) -> Result<i32, ItemFault> {
        checked(
            self.inputs
                .value(self.k, item_at(self.block, place) as u64, 0),
        )
    }
}

/// A value that is the same for so many items.
pub(crate) fn constant(
    alloc: Global,
    spare: &mut Spare,
    value: i64,
    count: usize,
) -> Result<Found, AllocError>
    ensures { IfOk result (λ found. IsFound (up_to (replicate count (spec.checked value))) found) }
{
    match checked(value) {
        Ok(v) => Ok(Found {
            values: spare.values(alloc, count, v)?,
            fault: None,
        }),
        Err(fault) => Ok(Found {
            values: spare.values(alloc, 0, 0)?,
            fault: if count == 0 { None } else { Some(fault) },
        }),
    }
}

/// The value that an expression has at every item, where its form tells it.
pub(crate) fn same_value<I: Columns>(e: &Expression, inputs: &I) -> Option<i32>
    requires { shapes.shape_of (I.given inputs.now).shape e.now ≡ Some [] }
    ensures { IfSome result (λ v. (items : List ℕ) → all_below (I.items inputs.now) items → block_of (I.given inputs.now) e.now items ≡ run_of (replicate (length items) v) None) }
{
    match e {
        Expression::Number(n) => checked(i64::from(*n)).ok(),
        Expression::Input(k) => match inputs.source(*k) {
            Source::Same(v) => checked(v).ok(),
            _ => None,
        },
        _ => None,
    }
}

/// The values of an array at the items of a block.
fn loaded(values: &[i64], block: Block<'_>, buffer: Vec<i32>) -> Found
    requires room { length buffer.items ≡ length (items_of block) }
    requires within { all_below (length values.now) (items_of block) }
    ensures { IsFound (up_to (map (λ item. spec.checked (slice_index_or values.now item (pos 0))) (items_of block.entry))) result }
{
    filled(&Load { values, block }, buffer)
}

/// The values of an input at the items of a block, asked for one by one.
fn asked<I: Inputs>(inputs: &I, k: u8, block: Block<'_>, buffer: Vec<i32>) -> Found
    requires single { (I.given inputs.now).shape k ≡ [] }
    requires room { length buffer.items ≡ length (items_of block) }
    requires within { all_below (I.items inputs.now) (items_of block) }
    ensures { IsFound (up_to (map (λ item. spec.checked ((I.given inputs.now).value k item 0)) (items_of block.entry))) result }
{
    filled(&Ask { inputs, k, block }, buffer)
}

/// The values of an input at the items of a block.
pub(crate) fn input_run<I: Columns>(
    alloc: Global,
    spare: &mut Spare,
    inputs: &I,
    k: u8,
    block: Block<'_>,
) -> Result<Found, AllocError>
    requires single { (I.given inputs.now).shape k ≡ [] }
    requires within { all_below (I.items inputs.now) (items_of block) }
    ensures { IfOk result (λ found. IsFound (up_to (map (λ item. spec.checked ((I.given inputs.now).value k item 0)) (items_of block.entry))) found) }
{
    let n = count(block);
    match inputs.source(k) {
        Source::Each(values) => {
            let buffer = spare.room(alloc, n)?;
            Ok(loaded(values, block, buffer))
        }
        Source::Ints(values) => {
            let buffer = spare.room(alloc, n)?;
            Ok(loaded_ints(values, block, buffer))
        }
        Source::Same(v) => constant(alloc, spare, v, n),
        Source::Other => {
            let buffer = spare.room(alloc, n)?;
            Ok(asked(inputs, k, block, buffer))
        }
    }
}
