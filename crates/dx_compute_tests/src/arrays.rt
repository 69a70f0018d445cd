//! Arrays as inputs: which stand for every item, how many items there are, types and classes, and the first error of the
//! first item.
use crate::calls::{Row, check};
use std::test::Fail;

const ITEMS: &[Row<'static>] = &[
    ("$0", &["ints"], "{1 2 3}"),
    ("$0 + $1", &["ints", "tens"], "{11 22 33}"),
    ("$0 - $1", &["ints", "5"], "{-4 -3 -2}"),
    ("$0 - $1", &["5", "ints"], "{4 3 2}"),
    ("$0 + $1", &["5", "1"], "{6}"),
    ("$0 + $1 * $2", &["1", "tens", "5"], "{51 101 151}"),
    ("$0 + $1", &["ints", "pair"], "ItemMismatch"),
    ("$0 + $1", &["nothing", "ints"], "ItemMismatch"),
    // No items, and so no fault.
    ("$0 + 1", &["nothing"], "{}"),
    ("$0 + $1", &["5", "nothing"], "{}"),
    ("$0 / 0", &["nothing"], "{}"),
    // Inputs that don't occur.
    ("1 + 1", &["ints", "vectors"], "{2}"),
    ("$1", &["NULL", "ints"], "{1 2 3}"),
    ("$1", &["text", "ints"], "{1 2 3}"),
    ("$0", &["5", "ints", "text"], "{5}"),
    ("$1 * 2", &["nothing", "pair", "ints"], "{8 10}"),
];

const TYPES: &[Row<'static>] = &[
    ("$0", &["bytes"], "{-128 127 0}"),
    ("-$0", &["bytes"], "{128 -127 0}"),
    ("$0 * 2", &["ubytes"], "{0 400 510}"),
    ("$0 + $1", &["shorts", "ushort"], "{32767 98302}"),
    ("$0 - 1", &["small uints"], "{4 2147483646}"),
    // A value of an input lies in the range of ints where it is looked at.
    ("$0", &["uints"], "Overflow"),
    ("$0 / 2", &["3000000000"], "Overflow"),
    ("0 && $0", &["3000000000"], "{0}"),
    ("1 ? 2 : $0", &["uints"], "{2 2}"),
    ("$0 + 1 / 0", &["3000000000"], "Overflow"),
    ("1 / 0 + $0", &["3000000000"], "DivisionByZero"),
    ("1 / ($0 - 5)", &["uints"], "DivisionByZero"),
];

const CLASSES: &[Row<'static>] = &[
    ("$0", &["sevens"], "{7 7 7}"),
    ("$0 + $1", &["sevens", "ints"], "{8 9 10}"),
    ("$0 + $1", &["constant", "ints"], "{8 9 10}"),
    ("$0", &["no sevens"], "{}"),
    (
        "$0 + $1",
        &["constant vectors", "ints"],
        "2{8 9 9 10 10 11}",
    ),
    ("$0 * 2", &["downwards"], "{20 16 12}"),
    ("$1 - $0", &["downwards", "ints"], "{-9 -6 -3}"),
    ("$0 + $1", &["regular", "ints"], "{11 12 13}"),
    ("$0 - 1", &["over the ints"], "Overflow"),
    (
        "1 / ($0 - 2147483647)",
        &["over the ints"],
        "DivisionByZero",
    ),
    // The last index varies fastest.
    ("$0", &["points"], "2{5 7 5 17 6 7 6 17}"),
    ("$0.1 / 10", &["points"], "{0 1 0 1}"),
    ("$0 + $1", &["point", "ints"], "2{6 8 7 9 8 10}"),
    ("$0", &["cells"], "4{0 1 2 3 2 3 4 5}"),
    ("$0.3 + $1", &["cell", "ints"], "{4 5 6}"),
];

const CHOICES: &[Row<'static>] = &[
    ("$0 ? $1 : $2", &["gap", "ints", "tens"], "{1 20 3}"),
    ("$0 && $1", &["gap", "ints"], "{1 0 1}"),
    ("$0 == 0 || $1 > 2", &["gap", "ints"], "{0 1 1}"),
    ("$0 && 6 / $0 > 3", &["gap"], "{1 0 0}"),
    ("$0 == 0 || 6 / $0 > 3", &["gap"], "{1 1 0}"),
    ("$0 ? 6 / $0 : -1", &["gap"], "{6 -1 3}"),
    ("$0 && 6 / ($1 - 1)", &["most second", "gap"], "{0 1 1}"),
    ("$0 || 6 / $1", &["most second", "gap"], "{1 1 1}"),
    ("$0 > 5 && 1 / 0", &["ints"], "{0 0 0}"),
    ("$0 == 2 && 1 / 0", &["ints"], "DivisionByZero"),
];

// Of the items with an error the first decides, by its first error.
const FIRST_FAULT: &[Row<'static>] = &[
    ("6 / $0", &["gap"], "DivisionByZero"),
    ("$0 + 1 + 6 / $1", &["most first", "gap"], "Overflow"),
    ("6 / $1 + ($0 + 1)", &["most first", "gap"], "Overflow"),
    ("$0 + 1 + 6 / $1", &["most second", "gap"], "Overflow"),
    (
        "6 / $1 + ($0 + 1)",
        &["most second", "gap"],
        "DivisionByZero",
    ),
    ("$0 + 1 + 6 / $1", &["most last", "gap"], "DivisionByZero"),
    ("6 / $1 + ($0 + 1)", &["most last", "gap"], "DivisionByZero"),
    ("[$0 + 1, 6 / $1]", &["most first", "gap"], "Overflow"),
    (
        "[6 / $1, $0 + 1]",
        &["most second", "gap"],
        "DivisionByZero",
    ),
    ("$0 ? 1 / 0 : 2147483647 + 1", &["gap"], "DivisionByZero"),
    ("$0 == 0 ? 1 / 0 : 2147483647 + $0", &["gap"], "Overflow"),
];

#[test]
fn items(rt: HostRuntime) -> Result<(), Fail> {
    check(rt.alloc(), ITEMS)
}

#[test]
fn types_and_classes(rt: HostRuntime) -> Result<(), Fail> {
    check(rt.alloc(), TYPES)?;
    check(rt.alloc(), CLASSES)
}

#[test]
fn choices_and_faults(rt: HostRuntime) -> Result<(), Fail> {
    check(rt.alloc(), CHOICES)?;
    check(rt.alloc(), FIRST_FAULT)
}
