//! Arrays that the tests ask for.
use dx_arrays::{Array, ArrayError, ElemType, Shape};
use std::alloc::{AllocError, Global};
use std::test::Fail;

/// An array as it is asked for: its type and its extents, and what its class wants.
#[derive(Clone, Copy)]
pub(crate) enum Given<'a> {
    Plain(ElemType, &'a [u32], &'a [i64]),
    /// Ints, which are kept in 4 bytes each.
    Ints(&'a [u32], &'a [i32]),
    Constant(ElemType, &'a [u32], u64, &'a [i64]),
    /// Its items, the origin and the delta.
    Regular(ElemType, &'a [u32], u64, &'a [i64], &'a [i64]),
    /// The counts, the origin and the deltas.
    Points(&'a [u32], &'a [i64], &'a [i64]),
    Cells(&'a [u32]),
}

type Lists = (Vec<u32>, Vec<i64>);

fn lists(alloc: Global, numbers: &[u32], values: &[i64]) -> Result<Lists, AllocError> {
    let numbers = Vec::from_slice(alloc, numbers)?;
    Ok((numbers, Vec::from_slice(alloc, values)?))
}

fn pair(alloc: Global, one: &[i64], other: &[i64]) -> Result<(Vec<i64>, Vec<i64>), AllocError> {
    let one = Vec::from_slice(alloc, one)?;
    Ok((one, Vec::from_slice(alloc, other)?))
}

fn regular(
    alloc: Global,
    elem: ElemType,
    items: u64,
    lists: Lists,
    delta: &[i64],
) -> Result<Result<Array, ArrayError>, AllocError> {
    let delta = Vec::from_slice(alloc, delta)?;
    let (extents, origin) = lists;
    Ok(Array::regular(elem, Shape::from_vec(extents), items, origin, delta))
}

fn points(
    alloc: Global,
    counts: Vec<u32>,
    origin: &[i64],
    deltas: &[i64],
) -> Result<Result<Array, ArrayError>, AllocError> {
    let (origin, deltas) = pair(alloc, origin, deltas)?;
    Ok(Array::grid_positions(counts, origin, deltas))
}

/// What the makers answer.
pub(crate) fn made(
    alloc: Global,
    given: &Given<'_>,
) -> Result<Result<Array, ArrayError>, AllocError> {
    match given {
        Given::Plain(elem, extents, values) => {
            let (extents, values) = lists(alloc, extents, values)?;
            Ok(Array::plain(*elem, Shape::from_vec(extents), values))
        }
        Given::Ints(extents, values) => {
            let extents = Shape::from_vec(Vec::from_slice(alloc, extents)?);
            Ok(Array::ints(extents, Vec::from_slice(alloc, values)?))
        }
        Given::Constant(elem, extents, items, item) => {
            let (extents, item) = lists(alloc, extents, item)?;
            Ok(Array::constant(*elem, Shape::from_vec(extents), *items, item))
        }
        Given::Regular(elem, extents, items, origin, delta) => {
            let lists = lists(alloc, extents, origin)?;
            regular(alloc, *elem, *items, lists, delta)
        }
        Given::Points(counts, origin, deltas) => {
            points(alloc, Vec::from_slice(alloc, counts)?, origin, deltas)
        }
        Given::Cells(counts) => Ok(Array::grid_connections(Vec::from_slice(alloc, counts)?)),
    }
}

/// The array.
pub(crate) fn array(alloc: Global, given: &Given<'_>) -> Result<Array, Fail> {
    Ok(made(alloc, given)??)
}
