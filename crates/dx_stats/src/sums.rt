//! Sums of numbers, in one pass.
ghost use Rattle.std.specs.Prelude.{◌≡◌, ◌+◌, ◌-◌, ◌<◌, ◌≤◌, [], pos, ◌*ℤ◌, length, OnOk, IfOk, All};
ghost use Rattle.dx_base.specs.Array.{items as items_of};
ghost use Rattle.dx_arrays.specs.Block.{IsSmall, values_from};
ghost use Rattle.dx_stats.specs.Numbers.{numbers};
ghost use Rattle.dx_stats.specs.Sums.{AreHeld, IsNext, Adds, AreSums, most_numbers};

use dx_arrays::{Array, Values};
use std::alloc::{AllocError, Global};

/// How many items that aren't stored one by one are read at a time.
const BLOCK_ITEMS: u64 = 4096;

/// How many numbers there are, their sum, the sum of their squares, and the least and the greatest of them. Of as many
/// numbers as an array may have the sum stays below 64 bits and the sum of the squares below 128.
#[derive(Clone, Copy)]
pub(crate) struct Sums {
    pub(crate) count: u64,
    pub(crate) total: i64,
    pub(crate) squares: i128,
    pub(crate) least: i64,
    pub(crate) greatest: i64,
}

/// The square of a number that some type of values holds.
pub(crate) fn square(value: i64) -> i128
    ensures { result ≡ value *ℤ value }
{
    value as i128 * value as i128
}

/// The square of an int, which 64 bits hold.
fn square_of_int(value: i32) -> i128
    ensures { result ≡ value *ℤ value }
{
    let wide = i64::from(value);
    (wide * wide) as u64 as i128
}

impl Sums {
    /// The sums of no numbers.
    fn none() -> Sums
        ensures none { result.count ≡ 0 }
        ensures total { result.total ≡ pos 0 }
        ensures squares { result.squares ≡ pos 0 }
        ensures least { result.least ≡ i64.MAX }
        ensures greatest { result.greatest ≡ i64.MIN }
        ensures held { AreHeld result }
    {
        Sums {
            count: 0,
            total: 0,
            squares: 0,
            least: i64::MAX,
            greatest: i64::MIN,
        }
    }

    // The sums with one number more, whose square this is.
    #[inline]
    fn and(self, value: i64, square: i128) -> Sums
        requires square { square ≡ value *ℤ value }
        requires few { self.count < most_numbers }
        requires small { IsSmall value }
        requires held { AreHeld self }
        ensures next { IsNext self value result }
        ensures held { AreHeld result }
    {
        Sums {
            count: self.count + 1,
            total: self.total + value,
            squares: self.squares + square,
            least: self.least.min(value),
            greatest: self.greatest.max(value),
        }
    }

    // The sums with these numbers too.
    #[tactic(auto, using(crate::proofs::Held::adds_none, crate::proofs::Held::adds_more, crate::proofs::Held::adds_all))]
    fn with(self, values: &[i64]) -> Sums
        requires few { self.count + length values.now ≤ most_numbers }
        requires small { All IsSmall values.now }
        requires held { AreHeld self }
        ensures sums { Adds self values.now result }
        ensures held { AreHeld result }
    {
        let mut sums = self;
        for value in values {
            sums = sums.and(*value, square(*value));
        }
        sums
    }

    // The sums with these ints too, which stand in 4 bytes each.
    #[tactic(auto, using(crate::proofs::Held::adds_none, crate::proofs::Held::adds_more, crate::proofs::Held::adds_all))]
    fn with_ints(self, values: &[i32]) -> Sums
        requires few { self.count + length values.now ≤ most_numbers }
        requires small { All IsSmall values.now }
        requires held { AreHeld self }
        ensures sums { Adds self values.now result }
        ensures held { AreHeld result }
    {
        let mut sums = self;
        for value in values {
            sums = sums.and(i64::from(*value), square_of_int(*value));
        }
        sums
    }

    // The sums with the items from one number on, up to another.
    fn with_items(
        self,
        array: &Array,
        from: u64,
        to: u64,
        block: &mut Vec<i64>,
    ) -> Result<Sums, AllocError>
        requires single { array.now.extents ≡ [] }
        requires order { from ≤ to }
        requires within { to ≤ items_of array.now }
        requires count { self.count ≡ from }
        requires held { AreHeld self }
        ensures sums { IfOk result (λ s. Adds self (values_from array.now from (to - from)) s) }
        ensures held { IfOk result (λ s. AreHeld s) }
    {
        let _width = array.width();
        read_block(array, from, to, block)?;
        Ok(self.with(block.as_slice()))
    }
}

/// The sums of the numbers of an array: of those that are stored one by one where they stand, and of others block by block.
pub(crate) fn sums_of(alloc: Global, array: &Array) -> Result<Sums, AllocError>
    requires single { array.now.extents ≡ [] }
    requires some { 0 < items_of array.now }
    ensures sums { IfOk result (λ s. AreSums (numbers array.now) s) }
    ensures held { IfOk result (λ s. AreHeld s) }
{
    let items = array.items();
    match array.plain_values() {
        Some(Values::Wide(values)) => Ok(Sums::none().with(values)),
        _ => other_sums(alloc, array, items),
    }
}

// The sums of what isn't stored in 8 bytes each.
fn other_sums(alloc: Global, array: &Array, items: u64) -> Result<Sums, AllocError>
    requires single { array.now.extents ≡ [] }
    requires some { 0 < items_of array.now }
    requires items { items ≡ items_of array.now }
    ensures sums { IfOk result (λ s. AreSums (numbers array.now) s) }
    ensures held { IfOk result (λ s. AreHeld s) }
{
    let _items = array.items();
    match array.plain_values() {
        Some(Values::Ints(values)) => Ok(Sums::none().with_ints(values)),
        _ => block_sums(alloc, array, items),
    }
}

// The sums, where the items are read block by block.
fn block_sums(alloc: Global, array: &Array, items: u64) -> Result<Sums, AllocError>
    requires single { array.now.extents ≡ [] }
    requires some { 0 < items_of array.now }
    requires items { items ≡ items_of array.now }
    ensures sums { IfOk result (λ s. AreSums (numbers array.now) s) }
    ensures held { IfOk result (λ s. AreHeld s) }
{
    let _width = array.width();
    let mut block = Vec::with_capacity(alloc, BLOCK_ITEMS as usize)?;
    let mut sums = Sums::none();
    let mut from = 0;
    while from < items {
        let to = items.min(from + BLOCK_ITEMS);
        sums = sums.with_items(array, from, to, &mut block)?;
        from = to;
    }
    Ok(sums)
}

// Reads the items from one number on, up to another, in the place of those that were read before.
fn read_block(array: &Array, from: u64, to: u64, block: &mut Vec<i64>) -> Result<(), AllocError>
    requires order { from ≤ to }
    requires within { to ≤ items_of array.now }
    ensures { OnOk result (block.new.items ≡ values_from array.now from (to - from)) }
{
    block.clear();
    array.push_items(from, to, block)
}
