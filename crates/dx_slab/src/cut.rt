//! What becomes of the arrays of a field: its points and cells, and what depends on them.
ghost use Rattle.std.specs.Prelude.{◌≡◌, ◌<◌, ◌≤◌, length, None, Some, IfOk, IsTrue};
ghost use Rattle.std.specs.List.{All};
ghost use Rattle.dx_base.specs.Array.{items, product, origin_of, deltas_of, array_size};
ghost use Rattle.dx_fields.specs.Grids.{point_counts, cell_counts, without_ones};
ghost use Rattle.dx_slab.specs.Cuts as spec;
ghost use Rattle.dx_slab.specs.Gives.{GivesArray};
ghost use Rattle.dx_slab.specs.Lawful.{IsCutOf};
ghost use Rattle.dx_slab.specs.Runs.{AreWithin, run_items};

use crate::runs::{Runs, runs_of, values_of};
use dx_arrays::point_count;
use dx_objects::{Array, Code, MAX_SIZE, RunFail, Shape};
use std::alloc::{AllocError, Global};

/// A slab: the dimension that it cuts, the first index that it keeps there, and how many further ones.
#[derive(Clone, Copy, Debug, PartialEq, Eq)]
pub(crate) struct Cut {
    pub(crate) dimension: usize,
    pub(crate) first: u64,
    pub(crate) thickness: u64,
}

/// The counts of the slab's points.
pub(crate) fn cut_counts(alloc: Global, counts: &[u32], cut: Cut) -> Result<Vec<u32>, AllocError>
    requires { IsCutOf counts.now cut }
    ensures { IfOk result (λ own. own.items ≡ spec.cut_counts counts.now cut) }
{
    let mut own = Vec::from_slice(alloc, counts)?;
    own[cut.dimension] = cut.thickness as u32 + 1;
    Ok(own)
}

/// The counts by which the slab's cells are given.
pub(crate) fn joined_counts(alloc: Global, counts: &[u32], cut: Cut) -> Result<Vec<u32>, AllocError>
    requires { IsCutOf counts.now cut }
    ensures { IfOk result (λ joined. joined.items ≡ spec.joined_counts counts.now cut) }
{
    let own = cut_counts(alloc, counts, cut)?;
    without_ones(alloc, own.as_slice())
}

fn without_ones(alloc: Global, counts: &[u32]) -> Result<Vec<u32>, AllocError>
    ensures { IfOk result (λ others. others.items ≡ without_ones counts.now) }
{
    let mut others = Vec::new(alloc);
    for count in counts {
        if *count != 1 {
            others.push(*count)?;
        }
    }
    Ok(others)
}

/// The points of a grid, cut to those of the slab.
pub(crate) fn cut_positions(
    alloc: Global,
    array: &Array,
    counts: &[u32],
    cut: Cut,
) -> Result<Array, AllocError>
    requires points { point_counts array.now.class ≡ Some counts.now }
    requires cut { IsCutOf counts.now cut }
    ensures { IfOk result (λ own. own ≡ spec.cut_positions cut array.now) }
{
    // Asked so that the proof knows that the array can be made.
    let _items = array.items();
    let origin = first_point(alloc, array, counts, cut)?;
    let deltas = Vec::from_slice(alloc, array.deltas())?;
    let counts = cut_counts(alloc, counts, cut)?;
    match Array::grid_positions(counts, origin, deltas) {
        Ok(own) => Ok(own),
        Err(_) => unreachable!(),
    }
}

// The first of the kept points.
fn first_point(
    alloc: Global,
    array: &Array,
    counts: &[u32],
    cut: Cut,
) -> Result<Vec<i64>, AllocError>
    requires points { point_counts array.now.class ≡ Some counts.now }
    requires cut { IsCutOf counts.now cut }
    ensures { IfOk result (λ point. point.items ≡ spec.moved (origin_of array.now.class) (deltas_of array.now.class) cut) }
{
    // Asked so that the proof knows that the array can be made.
    let _items = array.items();
    let mut point = Vec::new(alloc);
    let number = cut.first * point_count(&counts[cut.dimension + 1..]);
    array.push_items(number, number + 1, &mut point)?;
    Ok(point)
}

/// The cells of a slab that has cells, whose grid's cells are those of this array.
pub(crate) fn cut_connections(
    alloc: Global,
    array: &Array,
    counts: &[u32],
    cut: Cut,
) -> Result<Array, AllocError>
    requires cells { cell_counts array.now.class ≡ Some (without_ones counts.now) }
    requires cut { IsCutOf counts.now cut }
    requires some { 0 < length (spec.joined_counts counts.now cut) }
    ensures { IfOk result (λ own. own ≡ spec.cut_connections counts.now cut) }
{
    // Asked so that the proof knows that the array can be made.
    let _items = array.items();
    let joined = joined_counts(alloc, counts, cut)?;
    match Array::grid_connections(joined) {
        Ok(own) => Ok(own),
        Err(_) => unreachable!(),
    }
}

/// What depends on the points: the plain array of the kept points' items. TooLarge where no object can hold it.
pub(crate) fn on_points(
    alloc: Global,
    array: &Array,
    counts: &[u32],
    cut: Cut,
) -> Result<Array, RunFail>
    requires items { items array.now ≡ product counts.now }
    requires cut { IsCutOf counts.now cut }
    ensures { GivesArray (spec.gathered array.now (spec.kept_points counts.now cut)) result }
{
    // Asked so that the proof knows how many there are.
    let _items = array.items();
    let runs = runs_of(counts, cut.dimension, cut.first, cut.thickness + 1);
    gathered(alloc, array, runs)
}

/// What depends on the cells: the plain array of the kept cells' items. TooLarge where no object can hold it.
pub(crate) fn on_cells(
    alloc: Global,
    array: &Array,
    counts: &[u32],
    cut: Cut,
) -> Result<Array, RunFail>
    requires items { items array.now ≡ product (spec.cell_extents counts.now) }
    requires cut { IsCutOf counts.now cut }
    ensures { GivesArray (spec.gathered array.now (spec.kept_cells counts.now cut)) result }
{
    // Asked so that the proof knows how many there are.
    let _items = array.items();
    let extents = cell_extents(alloc, counts)?;
    let first = first_cell(counts[cut.dimension] as u64, cut);
    let runs = runs_of(extents.as_slice(), cut.dimension, first, cells_kept(cut));
    gathered(alloc, array, runs)
}

fn cell_extents(alloc: Global, counts: &[u32]) -> Result<Vec<u32>, AllocError>
    ensures { IfOk result (λ extents. extents.items ≡ spec.cell_extents counts.now) }
{
    let mut extents = Vec::new(alloc);
    for count in counts {
        extents.push(cells_along(*count))?;
    }
    Ok(extents)
}

fn cells_along(points: u32) -> u32
    ensures { result ≡ spec.cells_along points }
{
    if points == 1 {
        1
    } else {
        points.saturating_sub(1)
    }
}

fn first_cell(points: u64, cut: Cut) -> u64
    requires { 0 < points }
    ensures { result ≡ spec.first_cell points cut }
{
    if cut.thickness == 0 && cut.first == points - 1 {
        cut.first.saturating_sub(1)
    } else {
        cut.first
    }
}

fn cells_kept(cut: Cut) -> u64
    ensures { result ≡ spec.cells_kept cut }
{
    if cut.thickness == 0 { 1 } else { cut.thickness }
}

// The plain array of these items. TooLarge where no object can hold it, which is told before it is made.
fn gathered(alloc: Global, array: &Array, runs: Runs) -> Result<Array, RunFail>
    requires { AreWithin runs (items array.now) }
    ensures { GivesArray (spec.gathered array.now (run_items runs)) result }
{
    if size_of(array, runs) > MAX_SIZE {
        return Err(RunFail::Code(Code::TooLarge));
    }
    Ok(made(alloc, array, runs)?)
}

// The stated size of the plain array of these items.
fn size_of(array: &Array, runs: Runs) -> u64
    requires { AreWithin runs (items array.now) }
    ensures { result ≡ array_size (spec.gathered array.now (run_items runs)) }
{
    // Asked so that the proof knows that the array can be made.
    let _items = array.items();
    64 + runs.count * runs.len * array.width() * array.elem().byte_count()
}

fn made(alloc: Global, array: &Array, runs: Runs) -> Result<Array, AllocError>
    requires { AreWithin runs (items array.now) }
    ensures { IfOk result (λ own. own ≡ spec.gathered array.now (run_items runs)) }
{
    // Asked so that the proof knows that the array can be made.
    let _items = array.items();
    let values = values_of(alloc, array, runs)?;
    let shape = Shape::from_vec(Vec::from_slice(alloc, array.extents())?);
    match Array::plain(array.elem(), shape, values) {
        Ok(own) => Ok(own),
        Err(_) => unreachable!(),
    }
}
