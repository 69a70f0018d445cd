//! Vectors: their shapes, their parts, and the order of their values.
use crate::calls::{Row, check};
use std::test::Fail;

const VALUES: &[Row<'static>] = &[
    ("[1, 2]", &[], "2{1 2}"),
    ("[7]", &[], "1{7}"),
    ("[1, 2] + [3, 4]", &[], "2{4 6}"),
    ("[1, 2] - 5", &[], "2{-4 -3}"),
    ("5 - [1, 2]", &[], "2{4 3}"),
    ("[1, 5] * [2, 3]", &[], "2{2 15}"),
    ("[7, -7] / 2", &[], "2{3 -3}"),
    ("100 / [7, -7]", &[], "2{14 -14}"),
    ("[7, -7] % [2, 2]", &[], "2{1 -1}"),
    ("min([1, 5], [3, 2])", &[], "2{1 2}"),
    ("max([1, 5], 3)", &[], "2{3 5}"),
    ("-[1, -2]", &[], "2{-1 2}"),
    ("abs([-1, 2])", &[], "2{1 2}"),
    ("sign([-5, 0, 5])", &[], "3{-1 0 1}"),
    ("[1 < 2, 1 > 2]", &[], "2{1 0}"),
    ("1 ? [1, 2] : [3, 4]", &[], "2{1 2}"),
    ("0 ? [1, 2] : [3, 4]", &[], "2{3 4}"),
    ("[4, 5, 6].0", &[], "{4}"),
    ("[4, 5, 6].2", &[], "{6}"),
    ("([1, 2] + 10).1", &[], "{12}"),
    ("[[4, 5].1, 6]", &[], "2{5 6}"),
    ("dot([1, 2], [3, 4])", &[], "{11}"),
    ("dot([3], [-4])", &[], "{-12}"),
    ("dot([1, 2], [3, 4]) + [1, 2].1", &[], "{13}"),
];

const INPUTS: &[Row<'static>] = &[
    ("$0 * 2", &["vectors"], "2{2 4 6 8}"),
    ("$0 * $1", &["vectors", "pair"], "2{4 8 15 20}"),
    ("$1 - $0", &["vectors", "pair"], "2{3 2 2 1}"),
    ("$0 + $1", &["vectors", "vector"], "2{11 22 13 24}"),
    ("$0.1", &["vectors"], "{2 4}"),
    ("dot($0, $0)", &["vectors"], "{5 25}"),
    ("dot($0, $1)", &["vector", "vectors"], "{50 110}"),
    ("[$0, $1]", &["ints", "tens"], "2{1 10 2 20 3 30}"),
    ("[$1, $0]", &["ints", "5"], "2{5 1 5 2 5 3}"),
    ("$0 > 1 ? [$0, 0] : [0, $0]", &["ints"], "2{0 1 2 0 3 0}"),
    ("$0 + 1", &["no vectors"], "2{}"),
    ("[$0, $0]", &["nothing"], "2{}"),
    ("$0 * 2", &["byte vector"], "2{400 200}"),
    ("$0 + $0", &["matrix"], "2x2{2 4 6 8}"),
    ("10 - $0", &["matrix"], "2x2{9 8 7 6}"),
    (
        "$1 ? $0 : -$0",
        &["matrix", "gap"],
        "2x2{1 2 3 4 -1 -2 -3 -4 1 2 3 4}",
    ),
];

const MISFITS: &[Row<'static>] = &[
    ("[1, 2] + [1, 2, 3]", &[], "ItemMismatch"),
    ("[1] + [2, 3]", &[], "ItemMismatch"),
    ("min([1, 2], [1])", &[], "ItemMismatch"),
    ("[1, 2] == [1, 2]", &[], "ItemMismatch"),
    ("[1] < 1", &[], "ItemMismatch"),
    ("![1]", &[], "ItemMismatch"),
    ("[1] && 1", &[], "ItemMismatch"),
    ("1 || [1]", &[], "ItemMismatch"),
    ("[1] ? 1 : 2", &[], "ItemMismatch"),
    ("1 ? [1, 2] : 3", &[], "ItemMismatch"),
    ("1 ? [1, 2] : [1]", &[], "ItemMismatch"),
    ("[[1, 2], 3]", &[], "ItemMismatch"),
    ("[4, 5].2", &[], "ItemMismatch"),
    ("0.5", &[], "ItemMismatch"),
    ("[4, 5].0.0", &[], "ItemMismatch"),
    ("dot([1, 2], [1, 2, 3])", &[], "ItemMismatch"),
    ("dot([1, 2], 3)", &[], "ItemMismatch"),
    ("dot(1, 2)", &[], "ItemMismatch"),
    ("$0 + $1", &["vectors", "triple"], "ItemMismatch"),
    ("$0 + $1", &["vectors", "one part"], "ItemMismatch"),
    ("$0 + $1", &["matrix", "vector"], "ItemMismatch"),
    ("$0.0", &["matrix"], "ItemMismatch"),
    ("dot($0, $0)", &["matrix"], "ItemMismatch"),
    // Shapes before items.
    ("1 / 0 + [1].1", &[], "ItemMismatch"),
    ("[1 / 0, 1] + [1, 2, 3]", &[], "ItemMismatch"),
    ("1 ? 2 : [1, 2].5", &[], "ItemMismatch"),
];

// An operand is evaluated whole, its values in order, before the next one.
const FIRST_FAULT: &[Row<'static>] = &[
    ("[2147483647, 1] + [1, 1/0]", &[], "DivisionByZero"),
    ("[1/0, 1].1", &[], "DivisionByZero"),
    ("[1, 1/0].0", &[], "DivisionByZero"),
    ("[2147483647 + 1, 1 / 0]", &[], "Overflow"),
    ("[1 / 0, 2147483647 + 1]", &[], "DivisionByZero"),
    ("[2147483647, 1] * [2, 0]", &[], "Overflow"),
    ("[4, 2147483647] / [0, 1] + [1, 1]", &[], "DivisionByZero"),
    ("abs([-2147483647 - 1, 1 / 0])", &[], "DivisionByZero"),
    ("1 ? [1, 2] : [1 / 0, 1]", &[], "2{1 2}"),
    // The products of `dot` are added from the left.
    ("dot([65536, 1], [32768, -1])", &[], "Overflow"),
    ("dot([2147483647, 1, -5], [1, 1, 1])", &[], "Overflow"),
    ("dot([-5, 2147483647, 1], [1, 1, 1])", &[], "{2147483643}"),
    (
        "dot([1 / 0, 1], [2147483647 + 1, 1])",
        &[],
        "DivisionByZero",
    ),
    ("dot([2147483647, 1], [2, 1 / 0])", &[], "DivisionByZero"),
    // All values of an input are looked at.
    ("$0.1", &["uint vector"], "Overflow"),
];

// The first faulty item decides, whichever component of it has the fault; within an item operands come before operators.
const FIRST_ITEM: &[Row<'static>] = &[
    ("10 / ($0 - 3)", &["vectors"], "DivisionByZero"),
    ("10 / ($0 - $0 + 1)", &["vectors"], "2{10 10 10 10}"),
    ("$0 / ($1 - 5)", &["vectors", "pair"], "DivisionByZero"),
    ("$0 / ($1 - 6)", &["vectors", "pair"], "2{0 -1 -3 -4}"),
    (
        "[1 / ($0.0 - 3), $0.1 * 1073741824]",
        &["vectors"],
        "Overflow",
    ),
    (
        "[1 / ($0.0 - 3), $0.1 * 536870912]",
        &["vectors"],
        "DivisionByZero",
    ),
    (
        "[$0.1 * 536870912, 1 / ($0.0 - 3)]",
        &["vectors"],
        "Overflow",
    ),
    ("($0 * 1073741824) / ($0 - $0)", &["vectors"], "Overflow"),
    (
        "($0 * 536870911) / ($0 - 1)",
        &["vectors"],
        "DivisionByZero",
    ),
    (
        "$0 + [1 / ($1 - 5), 2]",
        &["vectors", "pair"],
        "DivisionByZero",
    ),
    (
        "$0 * (1 / ($1 - 5))",
        &["vectors", "pair"],
        "DivisionByZero",
    ),
    (
        "$1 - 4 ? $0 / 0 : $0",
        &["vectors", "pair"],
        "DivisionByZero",
    ),
    ("$1 - 6 ? $0 : $0 / 0", &["vectors", "pair"], "2{1 2 3 4}"),
    ("$0 * 2", &["uint vector"], "Overflow"),
    ("$0 + $1", &["vectors", "uint vector"], "Overflow"),
    ("$0 + $1", &["vector", "byte vector"], "2{210 120}"),
    (
        "$0 + $1",
        &["constant vectors", "vector"],
        "2{17 28 17 28 17 28}",
    ),
    ("-(-$0)", &["vectors"], "2{1 2 3 4}"),
    ("$0 * dot($0, $0)", &["vectors"], "2{5 10 75 100}"),
    ("[$0.1, $0.0] * $0", &["vectors"], "2{2 2 12 12}"),
];

#[test]
fn values(rt: HostRuntime) -> Result<(), Fail> {
    check(rt.alloc(), VALUES)?;
    check(rt.alloc(), INPUTS)
}

#[test]
fn shapes(rt: HostRuntime) -> Result<(), Fail> {
    check(rt.alloc(), MISFITS)
}

#[test]
fn first_faults(rt: HostRuntime) -> Result<(), Fail> {
    check(rt.alloc(), FIRST_FAULT)
}

#[test]
fn first_items(rt: HostRuntime) -> Result<(), Fail> {
    check(rt.alloc(), FIRST_ITEM)
}
