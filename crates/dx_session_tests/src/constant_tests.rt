//! Sessions whose names mean constants, and whose large constants are named again.
use crate::rows::{PLAIN, Row, all_hold};
use std::test::Fail;

const DIGITS: &str = "0123456789012345678901234567890123456789012345678901234567890123456789";

// Names that are assigned constants, or other names.
const NAMES: &[Row<'static>] = &[
    Row {
        what: "a name means what another one meant when it was assigned",
        session: &["x = 1; y = x; x = 2; z = y; Echo(x, y, z, w);"],
        printed: &["2 1 1 NULL"],
        ..PLAIN
    },
    Row {
        what: "the name of nothing is NULL, whatever it is assigned later",
        session: &["p = q; q = 3; r = q; Echo(p, q, r);"],
        printed: &["NULL 3 3"],
        ..PLAIN
    },
    Row {
        what: "a name of a call means the call",
        session: &["k = Compute(\"$0 + 1\", 4); j = k; Echo(j, k); k = 7; Echo(j, k);"],
        printed: &["5 5", "5 7"],
        ..PLAIN
    },
    Row {
        what: "a fault of the call is told, its constants are not the question",
        session: &["x = 1; Echo(x, 2, y=x);"],
        printed: &["error Echo:1: NoSuchParameter"],
        status: 1,
        ..PLAIN
    },
];

#[test]
fn names_of_constants(rt: HostRuntime) -> Result<(), Fail> {
    all_hold(rt.alloc(), NAMES)
}

// More large constants than have their objects kept, and twice.
const LARGE: &[Row<'static>] = &[
    Row {
        what: "six lists by turns",
        session: &[
            "macro top(l) { m, s, v, lo, hi = Statistics(l); Echo(lo, hi); } ",
            "macro all() { top({1 .. 70}); top({2 .. 70}); top({3 .. 70}); top({4 .. 70}); top({5 .. 70}); top({6 .. 70}); } ",
            "all(); all(); a = {1 .. 70}; top(a); Echo(a); a = {2 .. 70}; top(a); Echo(a);",
        ],
        printed: &[
            "1 70",
            "2 70",
            "3 70",
            "4 70",
            "5 70",
            "6 70",
            "1 70",
            "2 70",
            "3 70",
            "4 70",
            "5 70",
            "6 70",
            "1 70",
            "array plain int rank 0 items 70",
            "2 70",
            "array plain int rank 0 items 69",
        ],
        ..PLAIN
    },
    Row {
        what: "two long texts that differ at their ends, and a text",
        session: &[
            "a = \"",
            DIGITS,
            "\"; b = \"",
            DIGITS,
            "0\"; c = a; a = b; Echo(c); Echo(a); Echo(c); Echo(\"0\");",
        ],
        printed: &[
            DIGITS,
            "01234567890123456789012345678901234567890123456789012345678901234567890",
            DIGITS,
            "0",
        ],
        ..PLAIN
    },
    Row {
        what: "groups of texts",
        session: &["t = {\"x\" \"y\" \"z\"}; u = t; t = {\"x\"}; Echo(u, t); Echo([1 2], [3]);"],
        printed: &[
            "group 3 members group 1 members",
            "array plain int rank 1 shape 2 items 1 array plain int rank 1 shape 1 items 1",
        ],
        ..PLAIN
    },
];

#[test]
fn large_constants(rt: HostRuntime) -> Result<(), Fail> {
    all_hold(rt.alloc(), LARGE)
}
