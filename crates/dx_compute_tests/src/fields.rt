//! Fields: each stands for its data, and the first of them gets the answer in its place.
use crate::calls::{Row, check};
use std::test::Fail;

const ROWS: &[Row<'static>] = &[
    // Other components, their order and all attributes stay.
    (
        "$0 * 10",
        &["island"],
        "f(positions=regular {10 8 6}@a:\"b\" data={70 70 70}@dep:\"positions\"@unit:\"m\" mark=byte {-128 127 0})@name:\"island\"",
    ),
    (
        "[$0, -$0]",
        &["island"],
        "f(positions=regular {10 8 6}@a:\"b\" data=2{7 -7 7 -7 7 -7}@dep:\"positions\"@unit:\"m\" mark=byte {-128 127 0})@name:\"island\"",
    ),
    (
        "$0 + $1",
        &["ints", "island"],
        "f(positions=regular {10 8 6}@a:\"b\" data={8 9 10}@dep:\"positions\"@unit:\"m\" mark=byte {-128 127 0})@name:\"island\"",
    ),
    ("$0 + 1", &["one"], "f(data={2}@unit:\"m\")@name:\"one\""),
    ("$0.3", &["cell data"], "f(data={3 5})"),
    ("$0", &["no items"], "f(data={})"),
    // The first by the number of the input, of those that occur.
    ("$0 + $1", &["three", "other three"], "f(data={11 22 33})"),
    ("$1 + $0", &["three", "other three"], "f(data={11 22 33})"),
    (
        "$1 - $0",
        &["other three", "three"],
        "f(data={-9 -18 -27} a={5})",
    ),
    ("$1", &["three", "other three"], "f(data={10 20 30} a={5})"),
    ("7", &["three"], "{7}"),
    ("$1", &["three", "ints"], "{1 2 3}"),
    // As many items as before.
    ("$0 + $1", &["three", "one"], "f(data={2 3 4})"),
    (
        "$0 + $1",
        &["one", "five"],
        "f(data={6}@unit:\"m\")@name:\"one\"",
    ),
    ("$0 + $1", &["one", "three"], "ItemMismatch"),
    ("$0 + $1", &["ints", "one"], "ItemMismatch"),
    ("$0 + $1", &["one", "nothing"], "ItemMismatch"),
    ("$0 + $1", &["three", "pair"], "ItemMismatch"),
    ("$0", &["no data"], "NoComponent"),
    ("$0", &["empty field"], "NoComponent"),
    ("0 && $0", &["no data"], "NoComponent"),
    ("$0", &["large data"], "Overflow"),
];

#[test]
fn data_of_fields(rt: HostRuntime) -> Result<(), Fail> {
    check(rt.alloc(), ROWS)
}
