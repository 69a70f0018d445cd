//! Arrays of each class: what they hand out, their values, their stated size, and which are refused.
ghost use Rattle.std.specs.Prelude.{◌≤◌};
ghost use Rattle.dx_base.specs.Array.{items};

use crate::arrays_made::{Given, array, made};
use dx_arrays::{
    Array, ArrayClass, ArrayError, ElemType, Values, cell_count, has_room, point_count,
};
use std::alloc::Global;
use std::test::Fail;

const BYTE: ElemType = ElemType::Byte;

const SHORT: ElemType = ElemType::Short;

const INT: ElemType = ElemType::Int;

// Whether these are the values of the items from one on, up to another, item by item.
fn are_values(array: &Array, from: u64, to: u64, values: &[i64]) -> bool
    requires { to ≤ items array.now }
{
    let mut rest = values.iter();
    for item in from..to {
        for place in 0..array.width() {
            if rest.next() != Some(&array.value(item, place)) {
                return false;
            }
        }
    }
    rest.next().is_none()
}

// The lists that an array hands out: extents, counts, origin and deltas.
type Lists<'a> = (&'a [u32], &'a [u32], &'a [i64], &'a [i64]);

// An array; its class, its type and its lists; its items, its stated size and its values.
type Row<'a> = (
    Given<'a>,
    ArrayClass,
    ElemType,
    Lists<'a>,
    u64,
    u64,
    &'a [i64],
);

fn has_lists(array: &Array, lists: &Lists<'_>) -> bool {
    let (extents, counts, origin, deltas) = lists;
    array.extents() == *extents
        && array.counts() == *counts
        && array.origin() == *origin
        && array.deltas() == *deltas
}

fn shows(array: &Array, row: &Row<'_>) -> bool {
    let (_, class, elem, lists, items, size, values) = row;
    let is_stored = match array.plain_values() {
        Some(Values::Wide(stored)) => *class == ArrayClass::Plain && stored == *values,
        Some(Values::Ints(stored)) => *class == ArrayClass::Plain && stored.len() == values.len(),
        None => *class != ArrayClass::Plain,
    };
    is_stored
        && array.class() == *class
        && array.elem() == *elem
        && array.items() == *items
        && array.size() == *size
        && has_lists(array, lists)
        && are_values(array, 0, array.items(), values)
}

const SHOWN: &[Row<'static>] = &[
    (
        Given::Plain(INT, &[2], &[1, 2, 3, 4]),
        ArrayClass::Plain,
        INT,
        (&[2], &[], &[], &[]),
        2,
        80,
        &[1, 2, 3, 4],
    ),
    (
        Given::Ints(&[2], &[1, i32::MIN, 3, i32::MAX]),
        ArrayClass::Plain,
        INT,
        (&[2], &[], &[], &[]),
        2,
        80,
        &[1, -2147483648, 3, 2147483647],
    ),
    (
        Given::Ints(&[], &[]),
        ArrayClass::Plain,
        INT,
        (&[], &[], &[], &[]),
        0,
        64,
        &[],
    ),
    (
        Given::Constant(SHORT, &[], 3, &[7]),
        ArrayClass::Constant,
        SHORT,
        (&[], &[], &[7], &[]),
        3,
        66,
        &[7, 7, 7],
    ),
    (
        Given::Regular(INT, &[], 5, &[10], &[-2]),
        ArrayClass::Regular,
        INT,
        (&[], &[], &[10], &[-2]),
        5,
        72,
        &[10, 8, 6, 4, 2],
    ),
    (
        Given::Points(&[4], &[10], &[-2]),
        ArrayClass::GridPositions,
        INT,
        (&[1], &[4], &[10], &[-2]),
        4,
        76,
        &[10, 8, 6, 4],
    ),
    (
        Given::Points(&[2, 3], &[10, 20], &[1, 0, 0, 5]),
        ArrayClass::GridPositions,
        INT,
        (&[2], &[2, 3], &[10, 20], &[1, 0, 0, 5]),
        6,
        96,
        &[10, 20, 10, 25, 10, 30, 11, 20, 11, 25, 11, 30],
    ),
    (
        Given::Points(&[2, 2], &[0, 0], &[1, 7, -3, 2]),
        ArrayClass::GridPositions,
        INT,
        (&[2], &[2, 2], &[0, 0], &[1, 7, -3, 2]),
        4,
        96,
        &[0, 0, -3, 2, 1, 7, -2, 9],
    ),
    (
        Given::Points(&[2, 1, 2], &[1, 2, 3], &[10, 0, 0, 0, 5, 0, 0, 0, -1]),
        ArrayClass::GridPositions,
        INT,
        (&[3], &[2, 1, 2], &[1, 2, 3], &[10, 0, 0, 0, 5, 0, 0, 0, -1]),
        4,
        124,
        &[1, 2, 3, 1, 2, 2, 11, 2, 3, 11, 2, 2],
    ),
    (
        Given::Cells(&[4]),
        ArrayClass::GridConnections,
        INT,
        (&[2], &[4], &[], &[]),
        3,
        68,
        &[0, 1, 1, 2, 2, 3],
    ),
    (
        Given::Cells(&[4, 3]),
        ArrayClass::GridConnections,
        INT,
        (&[4], &[4, 3], &[], &[]),
        6,
        72,
        &[
            0, 1, 3, 4, 1, 2, 4, 5, 3, 4, 6, 7, 4, 5, 7, 8, 6, 7, 9, 10, 7, 8, 10, 11,
        ],
    ),
    (
        Given::Cells(&[2, 2, 3]),
        ArrayClass::GridConnections,
        INT,
        (&[8], &[2, 2, 3], &[], &[]),
        2,
        76,
        &[0, 1, 3, 4, 6, 7, 9, 10, 1, 2, 4, 5, 7, 8, 10, 11],
    ),
    (
        Given::Cells(&[1, 4294967295]),
        ArrayClass::GridConnections,
        INT,
        (&[4], &[1, 4294967295], &[], &[]),
        0,
        72,
        &[],
    ),
];

#[test]
fn arrays_have_their_parameters_their_size_and_their_values(rt: HostRuntime) -> Result<(), Fail> {
    for row in SHOWN {
        let array = array(rt.alloc(), &row.0)?;
        assert!(rt; shows(&array, row));
    }
    Ok(())
}

// Arrays of each class, with several lines of items in those of grids.
const READ: &[Given<'static>] = &[
    Given::Plain(INT, &[2], &[1, 2, 3, 4, 5, 6, 7, 8]),
    Given::Ints(&[3], &[1, -2, 3, 4, 5, i32::MIN, 7, i32::MAX, 9]),
    Given::Constant(SHORT, &[2], 5, &[7, -7]),
    Given::Regular(INT, &[], 6, &[10], &[-2]),
    Given::Regular(INT, &[], 1, &[10], &[i64::MAX]),
    Given::Points(&[4, 3], &[-5, 7], &[100, 1, 3, -10]),
    Given::Points(&[2, 3, 1], &[1, 2, 3], &[9, 0, 1, 0, 5, 0, 7, 0, -1]),
    Given::Cells(&[4, 5]),
    Given::Cells(&[2, 2, 6]),
];

// Whether the values of any stretch of items are those of its items, behind what the list holds.
fn reads(alloc: Global, array: &Array) -> Result<bool, Fail> {
    for from in 0..array.items() {
        for last in from..array.items() {
            let mut read = Vec::from_slice(alloc, &[99])?;
            array.push_items(from, last + 1, &mut read)?;
            let are_read = match read.as_slice() {
                [99, values @ ..] => are_values(array, from, last + 1, values),
                _ => false,
            };
            if !are_read {
                return Ok(false);
            }
        }
    }
    Ok(true)
}

#[test]
fn many_items_are_read_as_one_by_one(rt: HostRuntime) -> Result<(), Fail> {
    for given in READ {
        let array = array(rt.alloc(), given)?;
        assert!(rt; reads(rt.alloc(), &array)?);
    }
    Ok(())
}

const COUNTED: &[(&[u32], u64, u64)] = &[
    (&[4096, 4096], 16777216, 16769025),
    (&[5, 1, 7], 35, 0),
    (&[0, 9], 0, 0),
    (&[], 1, 1),
    (
        &[4294967295, 4294967295],
        18446744065119617025,
        18446744056529682436,
    ),
    (
        &[4294967295, 4294967295, 4294967295],
        18446744073709551615,
        18446744073709551615,
    ),
];

#[test]
fn items_of_grids_are_counted_before_they_are_made(rt: HostRuntime) {
    for (counts, points, cells) in COUNTED {
        assert!(rt; point_count(counts) == *points && cell_count(counts) == *cells);
    }
    assert!(rt; has_room(16777216, 8) && !has_room(16777217, 1) && !has_room(8388609, 16));
}

// Arrays, and why they are refused.
type Refusals<'a> = &'a [(Given<'a>, Option<ArrayError>)];

const TOO_MANY: Option<ArrayError> = Some(ArrayError::TooManyItems);

const NO_SHAPE: Option<ArrayError> = Some(ArrayError::BadShape);

const WRONG_LENGTH: Option<ArrayError> = Some(ArrayError::ItemCount);

const NOT_OF_THE_TYPE: Option<ArrayError> = Some(ArrayError::RangeOfType);

fn refuses(alloc: Global, rows: Refusals<'_>) -> Result<bool, Fail> {
    for (given, refusal) in rows {
        if made(alloc, given)?.err() != *refusal {
            return Ok(false);
        }
    }
    Ok(true)
}

const CONSTANTS: Refusals<'static> = &[
    (Given::Constant(BYTE, &[], 16777216, &[0]), None),
    (Given::Constant(BYTE, &[], 16777217, &[0]), TOO_MANY),
    (
        Given::Constant(BYTE, &[8], 16777216, &[0, 0, 0, 0, 0, 0, 0, 0]),
        None,
    ),
    (Given::Constant(BYTE, &[8], 16777217, &[0]), TOO_MANY),
    (Given::Constant(BYTE, &[16], 8388609, &[0]), TOO_MANY),
    (Given::Constant(BYTE, &[256], 524288, &[]), WRONG_LENGTH),
    (Given::Constant(BYTE, &[257], 524288, &[]), NO_SHAPE),
    (Given::Constant(BYTE, &[2, 0], 20000000, &[]), NO_SHAPE),
    (Given::Constant(BYTE, &[1, 1, 1], 20000000, &[]), NO_SHAPE),
    (Given::Constant(BYTE, &[2], 1, &[500]), WRONG_LENGTH),
    (Given::Constant(BYTE, &[], 0, &[500]), NOT_OF_THE_TYPE),
];

#[test]
fn one_item_for_all_is_refused_in_order(rt: HostRuntime) -> Result<(), Fail> {
    assert!(rt; refuses(rt.alloc(), CONSTANTS)?);
    Ok(())
}

const PLAIN: Refusals<'static> = &[
    (Given::Plain(BYTE, &[256], &[]), None),
    (Given::Plain(BYTE, &[257], &[500]), NO_SHAPE),
    (
        Given::Plain(BYTE, &[2, 2], &[1, 2, 3, 4, 500]),
        WRONG_LENGTH,
    ),
    (
        Given::Plain(BYTE, &[2, 2], &[1, 2, 3, 500]),
        NOT_OF_THE_TYPE,
    ),
    (Given::Plain(BYTE, &[], &[-128, 127]), None),
    (Given::Plain(BYTE, &[], &[-129]), NOT_OF_THE_TYPE),
    (Given::Ints(&[2], &[1, 2, 3]), WRONG_LENGTH),
    (Given::Ints(&[0], &[1, 2, 3]), NO_SHAPE),
    (Given::Ints(&[1, 1, 1], &[1]), NO_SHAPE),
];

#[test]
fn values_are_refused_in_order(rt: HostRuntime) -> Result<(), Fail> {
    assert!(rt; refuses(rt.alloc(), PLAIN)?);
    Ok(())
}

const LINES: Refusals<'static> = &[
    (Given::Regular(BYTE, &[], 16777216, &[0], &[0]), None),
    (Given::Regular(BYTE, &[], 16777217, &[0], &[0]), TOO_MANY),
    (Given::Regular(BYTE, &[], 0, &[500], &[500]), None),
    (Given::Regular(BYTE, &[], 1, &[127], &[500]), None),
    (Given::Regular(BYTE, &[], 2, &[127], &[1]), NOT_OF_THE_TYPE),
    (
        Given::Regular(BYTE, &[], 3, &[-127], &[-1]),
        NOT_OF_THE_TYPE,
    ),
    (Given::Regular(BYTE, &[2], 2, &[500, 0], &[0]), WRONG_LENGTH),
];

#[test]
fn lines_are_refused_in_order(rt: HostRuntime) -> Result<(), Fail> {
    assert!(rt; refuses(rt.alloc(), LINES)?);
    Ok(())
}

const GRID_POINTS: Refusals<'static> = &[
    (Given::Points(&[4096, 4096], &[0, 0], &[0, 0, 0, 0]), None),
    (Given::Points(&[4096, 4097], &[0], &[]), TOO_MANY),
    (Given::Points(&[5000, 0], &[0], &[]), NO_SHAPE),
    (Given::Points(&[], &[], &[]), NO_SHAPE),
    (Given::Points(&[1, 1, 1, 1], &[], &[]), NO_SHAPE),
    (Given::Points(&[2, 2], &[0, 0], &[0, 0, 0]), WRONG_LENGTH),
    (Given::Points(&[2], &[5000000000, 0], &[1]), WRONG_LENGTH),
    (Given::Points(&[1], &[2147483647], &[1]), None),
    (Given::Points(&[2], &[2147483647], &[1]), NOT_OF_THE_TYPE),
    (Given::Points(&[2], &[-2147483648], &[-1]), NOT_OF_THE_TYPE),
];

#[test]
fn points_of_grids_are_refused_in_order(rt: HostRuntime) -> Result<(), Fail> {
    assert!(rt; refuses(rt.alloc(), GRID_POINTS)?);
    Ok(())
}

const GRID_CELLS: Refusals<'static> = &[
    (Given::Cells(&[4097, 4097]), None),
    (Given::Cells(&[4097, 4098]), TOO_MANY),
    (Given::Cells(&[257, 257, 257]), None),
    (Given::Cells(&[257, 257, 258]), TOO_MANY),
    (
        Given::Cells(&[4294967295, 4294967295, 4294967295]),
        TOO_MANY,
    ),
    (Given::Cells(&[]), NO_SHAPE),
    (Given::Cells(&[3, 0]), NO_SHAPE),
];

#[test]
fn cells_of_grids_are_refused_in_order(rt: HostRuntime) -> Result<(), Fail> {
    assert!(rt; refuses(rt.alloc(), GRID_CELLS)?);
    Ok(())
}
