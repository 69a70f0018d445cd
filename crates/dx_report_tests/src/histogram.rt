//! What Histogram answers of numbers, and what it refuses.
use crate::answers::{are_texts, fail_name, has_name, is_number, is_plain};
use crate::made::{Sample, inputs_of};
use dx_arrays::{ArrayClass, ElemType};
use dx_base::Module;
use dx_fields::check_field;
use dx_objects::{Object, Outs, Part};
use dx_stats::run_histogram;
use std::alloc::Global;
use std::test::Fail;

// Whether the points are these borders, on a line.
fn are_positions(part: &Part, borders: &[i64]) -> bool {
    match part.object.as_array() {
        None => false,
        Some(array) => {
            has_name(part, "positions")
                && is_plain(array, &[1], borders)
                && part.object.attributes().is_empty()
        }
    }
}

// Whether the cells are those between so many borders.
fn are_connections(part: &Part, borders: u32) -> bool {
    match part.object.as_array() {
        None => false,
        Some(array) => {
            has_name(part, "connections")
                && matches!(array.class(), ArrayClass::GridConnections)
                && array.counts() == [borders].as_slice()
                && are_texts(
                    part.object.attributes(),
                    &[("element type", "lines"), ("ref", "positions")],
                )
        }
    }
}

// Whether the data are these counts of the cells.
fn are_counts(part: &Part, counts: &[i64]) -> bool {
    match part.object.as_array() {
        None => false,
        Some(array) => {
            has_name(part, "data")
                && is_plain(array, &[], counts)
                && are_texts(part.object.attributes(), &[("dep", "connections")])
        }
    }
}

// Whether an object is the field of these borders and counts, and a field without a fault.
fn is_histogram(field: &Object, borders: &[i64], counts: &[i64]) -> bool {
    let [positions, connections, data] = field.parts() else {
        return false;
    };
    let Ok(points) = u32::try_from(borders.len()) else {
        return false;
    };
    field.is_field()
        && field.attributes().is_empty()
        && check_field(field).is_ok()
        && are_positions(positions, borders)
        && are_connections(connections, points)
        && are_counts(data, counts)
}

fn has_histogram(results: &Outs, borders: &[i64], counts: &[i64]) -> bool {
    match results.value(0) {
        None => false,
        Some(field) => is_histogram(field, borders, counts),
    }
}

fn answers(
    alloc: Global,
    asked: [Sample; 4],
    borders: &[i64],
    counts: &[i64],
    median: Option<i64>,
) -> Result<bool, Fail> {
    let [data, bins, low, high] = asked;
    let inputs = inputs_of(alloc, &[data, bins, low, high, Sample::Null])?;
    if !Module::Histogram.takes(inputs.len()) {
        return Ok(false);
    }
    match run_histogram(alloc, &inputs) {
        Err(_) => Ok(false),
        Ok(results) => Ok(
            results.len() == 2
                && has_histogram(&results, borders, counts)
                && is_number(&results, 1, median),
        ),
    }
}

const NULL: Sample<'static> = Sample::Null;

const DATA: Sample<'static> = Sample::Numbers(ElemType::Int, &[1, 2]);

const FIVE: Sample<'static> = Sample::Numbers(ElemType::Int, &[1, 2, 2, 3, 9]);

const ZERO: Sample<'static> = Sample::Numbers(ElemType::Int, &[0]);

const ONE: Sample<'static> = Sample::Numbers(ElemType::Int, &[1]);

const TWO: Sample<'static> = Sample::Numbers(ElemType::Int, &[2]);

const THREE: Sample<'static> = Sample::Numbers(ElemType::Int, &[3]);

const FOUR: Sample<'static> = Sample::Numbers(ElemType::Int, &[4]);

const TEN: Sample<'static> = Sample::Numbers(ElemType::Byte, &[10]);

const GREATEST: Sample<'static> = Sample::Numbers(ElemType::Int, &[2147483647]);

const LAST: Sample<'static> = Sample::Numbers(ElemType::Int, &[2147483646]);

// Data, bins, min and max, and what comes of them: the borders, the counts and the median.
type Row<'a> = ([Sample<'a>; 4], &'a [i64], &'a [i64], Option<i64>);

const ROWS: [Row<'static>; 11] = [
    (
        [FIVE, THREE, NULL, NULL],
        &[1, 4, 7, 10],
        &[4, 0, 1],
        Some(2),
    ),
    ([FIVE, TWO, TWO, FOUR], &[2, 4, 5], &[3, 0], Some(2)),
    // Nothing counts.
    (
        [FIVE, TWO, FOUR, Sample::Line(1, 8, 1)],
        &[4, 7, 9],
        &[0, 0],
        None,
    ),
    (
        [
            Sample::Numbers(ElemType::Int, &[-7, -1, 5, 0, 3, 3]),
            FOUR,
            NULL,
            NULL,
        ],
        &[-7, -3, 0, 3, 6],
        &[1, 1, 1, 3],
        Some(0),
    ),
    (
        [Sample::Line(5000, -1, 1), ONE, NULL, NULL],
        &[-1, 4999],
        &[5000],
        Some(2498),
    ),
    // More bins than whole numbers.
    (
        [DATA, Sample::Numbers(ElemType::UByte, &[5]), NULL, NULL],
        &[1, 2, 2, 3, 3, 3],
        &[1, 0, 1, 0, 0],
        Some(1),
    ),
    (
        [Sample::Field("data", &[10, 20, 31]), TWO, NULL, NULL],
        &[10, 21, 32],
        &[2, 1],
        Some(20),
    ),
    (
        [
            Sample::Numbers(ElemType::UShort, &[65535, 0]),
            TWO,
            NULL,
            NULL,
        ],
        &[0, 32768, 65536],
        &[1, 1],
        Some(0),
    ),
    // A number that is no int doesn't count.
    (
        [
            Sample::Numbers(ElemType::UInt, &[4294967295, 5]),
            ONE,
            NULL,
            TEN,
        ],
        &[5, 11],
        &[1],
        Some(5),
    ),
    (
        [FIVE, ONE, Sample::Numbers(ElemType::Short, &[-3]), TEN],
        &[-3, 11],
        &[5],
        Some(2),
    ),
    // All ints that can have bins.
    (
        [
            Sample::Numbers(ElemType::Int, &[2147483646, -1, 0, -2147483648]),
            TWO,
            NULL,
            NULL,
        ],
        &[-2147483648, 0, 2147483647],
        &[2, 2],
        Some(-1),
    ),
];

// Asks for the histogram of each row. One that comes out in another way is the failure.
fn all_answer(alloc: Global, rows: &[Row]) -> Result<(), Fail> {
    for (asked, borders, counts, median) in rows {
        if !answers(alloc, *asked, borders, counts, *median)? {
            return Err(Fail::from("another histogram"));
        }
    }
    Ok(())
}

#[test]
fn numbers_are_counted_in_bins(rt: HostRuntime) -> Result<(), Fail> {
    all_answer(rt.alloc(), &ROWS)
}

#[test]
fn there_are_100_bins_where_none_are_asked_for(rt: HostRuntime) -> Result<(), Fail> {
    let mut borders = [11; 101];
    borders[0] = 10;
    let mut counts = [0; 100];
    counts[0] = 1;
    assert!(rt;
        answers(
            rt.alloc(),
            [TEN, NULL, NULL, NULL],
            &borders,
            &counts,
            Some(10)
        )?
    );
    Ok(())
}

fn refusal(alloc: Global, samples: [Sample; 5]) -> Result<&'static str, Fail> {
    let inputs = inputs_of(alloc, &samples)?;
    if !Module::Histogram.takes(inputs.len()) {
        return Ok("other inputs");
    }
    match run_histogram(alloc, &inputs) {
        Ok(_) => Ok("results"),
        Err(fail) => Ok(fail_name(fail)),
    }
}

const REFUSALS: [([Sample<'static>; 5], &str); 32] = [
    // The data, before all others.
    ([NULL, NULL, NULL, NULL, NULL], "BadArgument"),
    ([Sample::Text(b"1"), NULL, NULL, NULL, DATA], "BadArgument"),
    ([Sample::Group, ZERO, NULL, NULL, DATA], "BadArgument"),
    ([Sample::Composite, NULL, NULL, NULL, DATA], "BadArgument"),
    ([Sample::Series, NULL, NULL, NULL, DATA], "BadArgument"),
    (
        [Sample::Field("positions", &[1]), ZERO, NULL, NULL, NULL],
        "NoComponent",
    ),
    (
        [Sample::Field("positions", &[1]), NULL, NULL, NULL, DATA],
        "NoComponent",
    ),
    (
        [Sample::Field("data", &[]), NULL, NULL, NULL, DATA],
        "BadArgument",
    ),
    (
        [Sample::Numbers(ElemType::Int, &[]), NULL, NULL, NULL, DATA],
        "BadArgument",
    ),
    (
        [Sample::Vectors(&[1, 2]), NULL, NULL, NULL, DATA],
        "BadArgument",
    ),
    // The bins and their ends, before what has no use.
    ([DATA, ZERO, NULL, NULL, NULL], "BadArgument"),
    ([DATA, ZERO, NULL, NULL, DATA], "BadArgument"),
    (
        [
            DATA,
            Sample::Numbers(ElemType::Int, &[-1]),
            NULL,
            NULL,
            NULL,
        ],
        "BadArgument",
    ),
    (
        [
            DATA,
            Sample::Numbers(ElemType::Int, &[65537]),
            NULL,
            NULL,
            NULL,
        ],
        "BadArgument",
    ),
    (
        [
            DATA,
            Sample::Numbers(ElemType::Int, &[65536]),
            NULL,
            NULL,
            NULL,
        ],
        "results",
    ),
    ([DATA, ONE, NULL, NULL, NULL], "results"),
    ([DATA, Sample::Text(b"3"), NULL, NULL, NULL], "BadArgument"),
    (
        [DATA, Sample::Vectors(&[3, 3]), NULL, NULL, NULL],
        "BadArgument",
    ),
    ([DATA, DATA, NULL, NULL, NULL], "BadArgument"),
    ([DATA, NULL, Sample::Text(b"1"), NULL, DATA], "BadArgument"),
    ([DATA, NULL, DATA, NULL, DATA], "BadArgument"),
    ([DATA, NULL, NULL, Sample::Group, DATA], "BadArgument"),
    ([DATA, NULL, NULL, Sample::Text(b"1"), DATA], "BadArgument"),
    // What has no use, before the order of the ends and the borders.
    ([DATA, NULL, NULL, NULL, DATA], "Unsupported"),
    ([DATA, NULL, THREE, NULL, DATA], "Unsupported"),
    ([DATA, NULL, NULL, GREATEST, DATA], "Unsupported"),
    // The order of the ends, before the borders.
    ([DATA, NULL, THREE, NULL, NULL], "BadArgument"),
    ([DATA, NULL, GREATEST, LAST, NULL], "BadArgument"),
    ([DATA, NULL, NULL, GREATEST, NULL], "Overflow"),
    ([DATA, NULL, GREATEST, GREATEST, NULL], "Overflow"),
    ([DATA, NULL, NULL, LAST, NULL], "results"),
    (
        [
            Sample::Numbers(ElemType::UInt, &[4294967295]),
            NULL,
            NULL,
            NULL,
            NULL,
        ],
        "Overflow",
    ),
];

// Makes the call of each row. One that isn't refused by the code of this name is the failure.
fn all_are_refused(alloc: Global, rows: &[([Sample; 5], &str)]) -> Result<(), Fail> {
    for (samples, name) in rows {
        if refusal(alloc, *samples)? != *name {
            return Err(Fail::from(*name));
        }
    }
    Ok(())
}

#[test]
fn inputs_are_refused_in_their_order(rt: HostRuntime) -> Result<(), Fail> {
    all_are_refused(rt.alloc(), &REFUSALS)
}
