//! Where the values of arrays lie in a run of items.
ghost use Rattle.std.specs.Prelude.{◌≡◌, ◌<◌, ◌≤◌, ◌+◌, ◌≤ℤ◌, ℕ, ℤ, [], ◌∷◌, Some, IfOk, IfSome};
ghost use Rattle.dx_base.specs.Array.{items as items_in, value as value_at, width as width_of};
ghost use Rattle.dx_arrays.specs.Classes.{kind_of};
ghost use Rattle.dx_arrays.specs.declared.array.ArrayClass.TheVariants.{Regular, GridConnections};
ghost use Rattle.dx_expr_ranges.specs.Ranges.{AreWithin, Keeps};
ghost use Rattle.dx_compute_meaning.specs.Arrays as spec;
ghost use Rattle.dx_compute_meaning.specs.Shown.{shown_arrays, shown_array};
ghost use Rattle.dx_compute.specs.Ranges.{Holds, HoldsItem, HoldsRun, HoldsFor, IsRange};

use crate::given::Given;
use dx_arrays::{Array, ArrayClass, point_count};
use dx_expr_ranges::Range;
use std::alloc::{AllocError, Global};

/// From which value to which some lie, and whether one of them may be zero.
#[derive(Clone, Copy)]
struct Reach {
    low: i64,
    high: i64,
    zero: bool,
}

fn narrowed(value: i64) -> Option<i32>
    ensures { IfSome result (λ found. found ≡ value) }
{
    if value < -2_147_483_648 || 2_147_483_647 < value {
        return None;
    }
    Some(value as i32)
}

impl Reach {
    /// That of no value.
    fn none() -> Reach {
        Reach {
            low: i64::MAX,
            high: i64::MIN,
            zero: false,
        }
    }

    fn of(value: i64) -> Reach
        ensures { Holds result value }
    {
        Reach {
            low: value,
            high: value,
            zero: value == 0,
        }
    }

    fn and(self, other: Reach) -> Reach
        ensures own { (v : ℤ) → Holds self v → Holds result v }
        ensures other { (v : ℤ) → Holds other v → Holds result v }
    {
        Reach {
            low: self.low.min(other.low),
            high: self.high.max(other.high),
            zero: self.zero || other.zero,
        }
    }

    /// That of all values in between.
    fn filled(self) -> Reach
        ensures { (v : ℤ) → self.low ≤ℤ v → v ≤ℤ self.high → Holds result v }
    {
        Reach {
            low: self.low,
            high: self.high,
            zero: true,
        }
    }

    /// That of so many values in each item, where it lies among the ints.
    fn range(self, count: u32) -> Option<Range>
        ensures { IfSome result (λ r. IsRange self count r) }
    {
        let low = narrowed(self.low)?;
        let high = narrowed(self.high)?;
        Some(Range {
            count,
            low,
            high,
            zero: self.zero,
        })
    }
}

fn item_reach(array: &Array, item: u64) -> Reach
    requires { item < items_in array.now }
    ensures { HoldsItem array.now result item }
{
    let mut reach = Reach::none();
    for place in 0..array.width() {
        reach = reach.and(Reach::of(array.value(item, place)));
    }
    reach
}

// That of the items of a regular array from one to another: each place goes evenly between the two.
fn ends_reach(array: &Array, from: u64, last: u64) -> Reach
    requires regular { kind_of array.now.class ≡ Regular }
    requires order { from ≤ last }
    requires within { last < items_in array.now }
    ensures { HoldsRun array.now result from (last + 1) }
{
    item_reach(array, from)
        .and(item_reach(array, last))
        .filled()
}

/// That of the items from one to before another, by a look at each.
fn each_reach(array: &Array, from: u64, to: u64) -> Reach
    requires { to ≤ items_in array.now }
    ensures { HoldsRun array.now result from to }
{
    let mut reach = Reach::none();
    for item in from..to {
        reach = reach.and(item_reach(array, item));
    }
    reach
}

// That of the cells of a grid, which say numbers of its points.
fn cells_reach(array: &Array) -> Option<Reach>
    requires { kind_of array.now.class ≡ GridConnections }
    ensures { IfSome result (λ r. HoldsRun array.now r 0 (items_in array.now)) }
{
    // Asked so that the proof knows that the array can be made.
    let _width = array.width();
    let points = point_count(array.counts());
    if points > 2_147_483_647 {
        return None;
    }
    Some(Reach {
        low: 0,
        high: points as i64,
        zero: true,
    })
}

/// The same without a look at each, where the class says it.
fn run_reach(array: &Array, from: u64, to: u64) -> Option<Reach>
    requires order { from < to }
    requires within { to ≤ items_in array.now }
    ensures { IfSome result (λ r. HoldsRun array.now r from to) }
{
    match array.class() {
        ArrayClass::Constant => Some(item_reach(array, from)),
        ArrayClass::Regular => Some(ends_reach(array, from, to - 1)),
        ArrayClass::GridConnections => cells_reach(array),
        _ => Some(each_reach(array, from, to)),
    }
}

/// That of the items that stand for those from one to before another: an array of one item stands for every item.
fn standing_reach(array: &Array, from: u64, to: u64) -> Option<Reach>
    requires order { from < to }
    requires within { (item : ℕ) → item < to → spec.item_of array.now item < items_in array.now }
    ensures { IfSome result (λ r. HoldsFor array.now r from to) }
{
    if array.items() == 1 {
        run_reach(array, 0, 1)
    } else {
        run_reach(array, from, to)
    }
}

fn range_of(array: &Array, from: u64, to: u64) -> Option<Range>
    requires order { from < to }
    requires within { (item : ℕ) → item < to → spec.item_of array.now item < items_in array.now }
    ensures { Keeps (spec.given (Some array.now ∷ [])) 0 from to result }
{
    let reach = standing_reach(array, from, to)?;
    reach.range(array.width() as u32)
}

/// That of an input; one that isn't there is zero.
fn range_for(array: Option<&Array>, from: u64, to: u64) -> Option<Range>
    requires order { from < to }
    requires within { IfSome array (λ a. (item : ℕ) → item < to → spec.item_of a.now item < items_in a.now) }
    ensures { Keeps (spec.given (shown_array array.entry ∷ [])) 0 from to result }
{
    match array {
        None => Some(Range {
            count: 1,
            low: 0,
            high: 0,
            zero: true,
        }),
        Some(array) => range_of(array, from, to),
    }
}

/// The ranges of all inputs in the items from one to before another.
pub(crate) fn ranges_of(
    alloc: Global,
    inputs: &Given<'_>,
    from: u64,
    to: u64,
) -> Result<Vec<Option<Range>>, AllocError>
    requires order { from < to }
    requires within { to ≤ inputs.now.items }
    ensures { IfOk result (λ ranges. AreWithin (spec.given (shown_arrays inputs.now.arrays.now)) from to ranges.items) }
{
    let mut ranges = Vec::new(alloc);
    for array in inputs.arrays {
        ranges.push(range_for(*array, from, to))?;
    }
    Ok(ranges)
}
