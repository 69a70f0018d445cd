//! Inputs that keep their ints in 4 bytes each: they answer like any other of the same values.
use crate::calls::{Row, check};
use std::test::Fail;

const VALUES: &[Row<'static>] = &[
    ("$0", &["narrow 5"], "{5}"),
    ("$0 + 1", &["narrow 5"], "{6}"),
    ("$0", &["narrow nothing"], "{}"),
    ("1 / $0", &["narrow nothing"], "{}"),
    ("$0", &["narrow ints"], "{1 2 3}"),
    ("$0 + $1", &["narrow ints", "narrow tens"], "{11 22 33}"),
    ("$0 + $1", &["narrow ints", "tens"], "{11 22 33}"),
    ("$1 - $0", &["narrow ints", "tens"], "{9 18 27}"),
    ("$0 + $1", &["narrow ints", "ubytes"], "{1 202 258}"),
    ("$0 * $1", &["narrow ints", "downwards"], "{10 16 18}"),
    ("$0 + $1", &["narrow ints", "pair"], "ItemMismatch"),
    ("$0", &["narrow ends"], "{-2147483648 0 2147483647}"),
    ("$0 / 2", &["narrow ends"], "{-1073741824 0 1073741823}"),
    ("sign($0)", &["narrow ends"], "{-1 0 1}"),
];

// One item, which stands for every item.
const ONE_ITEM: &[Row<'static>] = &[
    ("$0 - $1", &["narrow ints", "narrow 5"], "{-4 -3 -2}"),
    ("$0 - $1", &["narrow 5", "narrow ints"], "{4 3 2}"),
    ("$0 - $1", &["5", "narrow ints"], "{4 3 2}"),
    ("$0 - $1", &["narrow ints", "5"], "{-4 -3 -2}"),
    ("$0 - $1", &["ints", "narrow 5"], "{-4 -3 -2}"),
    ("$0 + $1", &["narrow 5", "narrow nothing"], "{}"),
    (
        "$0 + $1",
        &["narrow vector", "narrow ints"],
        "2{11 21 12 22 13 23}",
    ),
    ("$0.1 + $1", &["narrow vector", "narrow ints"], "{21 22 23}"),
];

// The operators that look at one side for some items, and at the other for the rest.
const SIDES: &[Row<'static>] = &[
    ("$0 && $1", &["narrow gap", "narrow ints"], "{1 0 1}"),
    ("$0 && $0 - 2", &["narrow gap"], "{1 0 0}"),
    (
        "$0 == 0 || $1 > 2",
        &["narrow gap", "narrow ints"],
        "{0 1 1}",
    ),
    (
        "$0 ? $1 : $2",
        &["narrow gap", "narrow ints", "narrow tens"],
        "{1 20 3}",
    ),
    (
        "$0 ? $1 : $2",
        &["narrow gap", "tens", "narrow ints"],
        "{10 2 30}",
    ),
    ("$0 > 2 ? $0 : -$0", &["narrow ints"], "{-1 -2 3}"),
    ("$0 && 6 / $0 > 3", &["narrow gap"], "{1 0 0}"),
    ("$0 == 0 || 6 / $0 > 3", &["narrow gap"], "{1 1 0}"),
    ("$0 ? 6 / $0 : -1", &["narrow gap"], "{6 -1 3}"),
    (
        "$0 > 1 ? $1.1 : $0",
        &["narrow ints", "narrow vector"],
        "{1 20 20}",
    ),
    ("$0 == 2 && 1 / 0", &["narrow ints"], "DivisionByZero"),
];

const VECTORS: &[Row<'static>] = &[
    ("$0 * 2", &["narrow vectors"], "2{2 4 6 8}"),
    (
        "$0 + $1",
        &["narrow vectors", "narrow vector"],
        "2{11 22 13 24}",
    ),
    ("$0 - $1", &["narrow vectors", "narrow 5"], "2{-4 -3 -2 -1}"),
    ("$0 - $1", &["narrow vectors", "pair"], "2{-3 -2 -2 -1}"),
    ("$0.0", &["narrow vectors"], "{1 3}"),
    ("$0.1", &["narrow vectors"], "{2 4}"),
    ("$0.1", &["narrow vector"], "{20}"),
    ("$0.1 - $1", &["narrow vectors", "pair"], "{-2 -1}"),
    ("$1 - 4 ? $0.1 : $0.0", &["narrow vectors", "pair"], "{1 4}"),
    (
        "dot($0, $1)",
        &["narrow vector", "narrow vectors"],
        "{50 110}",
    ),
    ("[$0, $1]", &["narrow ints", "tens"], "2{1 10 2 20 3 30}"),
    ("[$0.1, $0.0]", &["narrow vectors"], "2{2 1 4 3}"),
    ("10 - $0", &["narrow matrix"], "2x2{9 8 7 6}"),
    ("$0.2", &["narrow vectors"], "ItemMismatch"),
    ("$0.0", &["narrow ints"], "ItemMismatch"),
];

const FAULTS: &[Row<'static>] = &[
    ("-$0", &["narrow ends"], "Overflow"),
    ("$0 + 1", &["narrow ends"], "Overflow"),
    ("6 / $0", &["narrow gap"], "DivisionByZero"),
    ("6 / $0 + abs($0)", &["narrow ends"], "Overflow"),
    ("6 / $0 + ($0 + 1)", &["narrow ends"], "DivisionByZero"),
    (
        "[1 / ($0.0 - 3), $0.1 * 1073741824]",
        &["narrow vectors"],
        "Overflow",
    ),
    (
        "[1 / ($0.0 - 3), $0.1 * 536870912]",
        &["narrow vectors"],
        "DivisionByZero",
    ),
];

const FIELDS_AND_GROUPS: &[Row<'static>] = &[
    (
        "$0 * 10",
        &["narrow three"],
        "f(data={10 20 30}@unit:\"m\")@name:\"narrow\"",
    ),
    (
        "$1 - $0",
        &["narrow ints", "other three"],
        "f(data={9 18 27} a={5})",
    ),
    ("$0 + 1", &["narrow lists"], "g(a={2 3 4} b=2{2 3 4 5})"),
];

#[test]
fn values(rt: HostRuntime) -> Result<(), Fail> {
    check(rt.alloc(), VALUES)?;
    check(rt.alloc(), ONE_ITEM)
}

#[test]
fn sides_and_vectors(rt: HostRuntime) -> Result<(), Fail> {
    check(rt.alloc(), SIDES)?;
    check(rt.alloc(), VECTORS)
}

#[test]
fn faults_and_objects(rt: HostRuntime) -> Result<(), Fail> {
    check(rt.alloc(), FAULTS)?;
    check(rt.alloc(), FIELDS_AND_GROUPS)
}
