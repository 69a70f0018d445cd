//! Items of a grid that a slab keeps, as runs of items in a row.
ghost use Rattle.std.specs.Prelude.{◌≡◌, ◌<◌, ◌≤◌, ◌+◌, ◌++◌, length, slice_index, Some, IfOk};
ghost use Rattle.std.specs.List.{All};
ghost use Rattle.std.specs.Vec.{vec_len, vec_capacity};
ghost use Rattle.dx_base.specs.Array.{product, items};
ghost use Rattle.dx_arrays.specs.Classes.{plain_of};
ghost use Rattle.dx_slab.specs.Kept.{kept};
ghost use Rattle.dx_slab.specs.Runs.{AreWithin, run_items, run_values};

use dx_arrays::{Values, point_count};
use dx_objects::Array;
use std::alloc::{AllocError, Global};

// From how many values on they are copied at once.
const MANY: usize = 16;

/// So many runs of items in a row, each of them `len` items long. The first begins at item `start`, and each further one
/// `stride` items on.
#[derive(Clone, Copy)]
pub(crate) struct Runs {
    pub(crate) count: u64,
    pub(crate) stride: u64,
    pub(crate) start: u64,
    pub(crate) len: u64,
}

/// The items of a grid with these extents that have one of n indices from `first` on in a dimension.
pub(crate) fn runs_of(extents: &[u32], dimension: usize, first: u64, n: u64) -> Runs
    requires dimension { dimension < length extents.now }
    requires end { first + n ≤ slice_index extents.now dimension }
    requires some { All (λ e. 0 < e) extents.now }
    requires few { product extents.now ≤ 16777216 }
    ensures items { kept extents.now dimension first n ≡ run_items result }
    ensures within { AreWithin result (product extents.now) }
{
    let behind = point_count(&extents[dimension + 1..]);
    Runs {
        count: point_count(&extents[..dimension]),
        stride: extents[dimension] as u64 * behind,
        start: first * behind,
        len: n * behind,
    }
}

/// The values of these items of an array, item by item.
pub(crate) fn values_of(alloc: Global, array: &Array, runs: Runs) -> Result<Vec<i64>, AllocError>
    requires { AreWithin runs (items array.now) }
    ensures { IfOk result (λ values. values.items ≡ run_values array.now runs runs.count) }
{
    match array.plain_values() {
        Some(Values::Wide(stored)) => copied_values(alloc, array, stored, runs),
        Some(Values::Ints(stored)) => copied_ints(alloc, array, stored, runs),
        None => told_values(alloc, array, runs),
    }
}

// The values of these items of a plain array, which has all its values in a list, in 8 bytes each.
fn copied_values(
    alloc: Global,
    array: &Array,
    stored: &[i64],
    runs: Runs,
) -> Result<Vec<i64>, AllocError>
    requires within { AreWithin runs (items array.now) }
    requires stored { plain_of array.now.class ≡ Some stored.now }
    ensures { IfOk result (λ values. values.items ≡ run_values array.now runs runs.count) }
{
    let width = array.width();
    let len = runs.count * runs.len * width;
    let mut values = Vec::with_capacity(alloc, len as usize)?;
    for run in 0..runs.count {
        let from = (run * runs.stride + runs.start) * width;
        let to = (run * runs.stride + runs.start + runs.len) * width;
        push_row(&stored[from as usize..to as usize], &mut values);
    }
    Ok(values)
}

// Puts these values behind the others: few of them one by one, since a copy of many at once has a price of its own.
fn push_row(row: &[i64], out: &mut Vec<i64>)
    requires room { vec_len out.old + length row.now ≤ vec_capacity out.old }
    ensures items { out.new.items ≡ out.old.items ++ row.now }
    ensures len { vec_len out.new ≡ vec_len out.old + length row.now }
    ensures capacity { vec_capacity out.old ≤ vec_capacity out.new }
{
    if let [value] = row {
        out.push_reserved(*value);
    } else if row.len() < MANY {
        push_each(row, out);
    } else if out.extend_from_slice(row).is_err() {
        unreachable!()
    }
}

fn push_each(row: &[i64], out: &mut Vec<i64>)
    requires room { vec_len out.old + length row.now ≤ vec_capacity out.old }
    ensures items { out.new.items ≡ out.old.items ++ row.now }
    ensures len { vec_len out.new ≡ vec_len out.old + length row.now }
    ensures capacity { vec_capacity out.new ≡ vec_capacity out.old }
{
    for value in row {
        out.push_reserved(*value);
    }
}

// The values of these items of a plain array, which has all its values in a list of ints, in 4 bytes each.
fn copied_ints(
    alloc: Global,
    array: &Array,
    stored: &[i32],
    runs: Runs,
) -> Result<Vec<i64>, AllocError>
    requires within { AreWithin runs (items array.now) }
    requires stored { plain_of array.now.class ≡ Some stored.now }
    ensures { IfOk result (λ values. values.items ≡ run_values array.now runs runs.count) }
{
    let width = array.width();
    let len = runs.count * runs.len * width;
    let mut values = Vec::with_capacity(alloc, len as usize)?;
    for run in 0..runs.count {
        let first = (run * runs.stride + runs.start) * width;
        let end = (run * runs.stride + runs.start + runs.len) * width;
        push_ints(&stored[first as usize..end as usize], &mut values);
    }
    Ok(values)
}

// Puts these ints behind the others, one by one.
fn push_ints(row: &[i32], out: &mut Vec<i64>)
    requires room { vec_len out.old + length row.now ≤ vec_capacity out.old }
    ensures items { out.new.items ≡ out.old.items ++ row.now }
    ensures len { vec_len out.new ≡ vec_len out.old + length row.now }
    ensures capacity { vec_capacity out.new ≡ vec_capacity out.old }
{
    for value in row {
        out.push_reserved(i64::from(*value));
    }
}

// The values of these items of an array whose values are told by a few.
fn told_values(alloc: Global, array: &Array, runs: Runs) -> Result<Vec<i64>, AllocError>
    requires { AreWithin runs (items array.now) }
    ensures { IfOk result (λ values. values.items ≡ run_values array.now runs runs.count) }
{
    let width = array.width();
    let len = runs.count * runs.len * width;
    let mut values = Vec::with_capacity(alloc, len as usize)?;
    for run in 0..runs.count {
        let from = run * runs.stride + runs.start;
        array.push_items(from, from + runs.len, &mut values)?;
    }
    Ok(values)
}
