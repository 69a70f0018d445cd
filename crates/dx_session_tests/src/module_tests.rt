//! Sessions that call the modules.
use crate::rows::{GRID, NUMBER, PLAIN, Row, all_hold};
use std::test::Fail;

// Slabs of a grid of four by three.
const SLABS: &[Row<'static>] = &[
    Row {
        what: "the points of one row",
        session: &["f = Import(\"d.dx\"); Print(Extract(Slab(f, \"y\", 2)), \"d\");"],
        files: &[("d.dx", GRID)],
        printed: &["array plain int rank 0 items 4", "3", "6", "9", "12"],
        ..PLAIN
    },
    Row {
        what: "a series of all slabs in one dimension",
        session: &["f = Import(\"d.dx\"); Print(Slab(f, 1));"],
        files: &[("d.dx", GRID)],
        printed: &["series 3 members"],
        ..PLAIN
    },
    Row {
        what: "the connections of a thick slab",
        session: &["f = Import(\"d.dx\"); Print(Extract(Slab(f, 0, 1, 1), \"connections\"));"],
        files: &[("d.dx", GRID)],
        printed: &["array gridconnections int rank 1 shape 4 items 2"],
        ..PLAIN
    },
    Row {
        what: "a slab beyond the grid",
        session: &["f = Import(\"d.dx\"); Print(Slab(f, 0, 3, 1));"],
        files: &[("d.dx", GRID)],
        printed: &["error Slab:1: BadArgument"],
        status: 1,
        ..PLAIN
    },
];

#[test]
fn slabs(rt: HostRuntime) -> Result<(), Fail> {
    all_hold(rt.alloc(), SLABS)
}

// Expressions, statistics, members and ways.
const NUMBERS: &[Row<'static>] = &[
    Row {
        what: "values and faults of expressions",
        session: &[
            "Print(Compute(\"2147483647 + 1\")); Print(Compute(\"-7 / 2\"), \"d\"); ",
            "Print(Compute(\"-7 % 2\"), \"d\"); Print(Compute(\"1 / 0\")); ",
            "Print(Compute(\"$0 + 1\", {})); Print(Compute(\"1 +\"));",
        ],
        printed: &[
            "error Compute:1: Overflow",
            NUMBER,
            "-3",
            NUMBER,
            "-1",
            "error Compute:1: DivisionByZero",
            "array plain int rank 0 items 0",
            "error Compute:1: BadExpression 3",
        ],
        status: 1,
        ..PLAIN
    },
    Row {
        what: "the first argument that fails decides",
        session: &["Print(Compute(\"$0 + $1\", Compute(\"1 / 0\"), Compute(\"1 +\")), \"d\");"],
        printed: &["error Compute:2: DivisionByZero"],
        status: 1,
        ..PLAIN
    },
    Row {
        what: "the statistics of two items, and of none",
        session: &[
            "Print(Statistics({-1 -2}), \"d\"); a, b, c = Statistics({-1 -2}); Echo(b, c); ",
            "Print(Statistics({}));",
        ],
        printed: &[NUMBER, "-2", "0 0", "error Statistics:1: BadArgument"],
        status: 1,
        ..PLAIN
    },
    Row {
        what: "members by name, their count, and an expression over a group",
        session: &[
            "g = CollectNamed(1, \"a\", 2, \"b\"); Print(Select(g, \"b\"), \"d\"); ",
            "Print(Inquire(g, \"member count\"), \"d\"); ",
            "Print(Compute(\"$0 * 10\", Collect(1)), \"rD\"); Print(Select(g, \"c\"));",
        ],
        printed: &[
            NUMBER,
            "2",
            NUMBER,
            "2",
            "group 1 members",
            "  member:",
            "    array plain int rank 0 items 1",
            "    10",
            "error Select:1: NoMember",
        ],
        status: 1,
        ..PLAIN
    },
    Row {
        what: "of two ways the one that is chosen",
        session: &["p, q = Route(2, 5); Print(p, \"d\"); Print(q, \"d\");"],
        printed: &[NUMBER, "5"],
        ..PLAIN
    },
    Row {
        what: "a choice that is no number",
        session: &["p, q = Route(\"a\", 5); Print(p, \"d\");"],
        printed: &["error p/Route:1: BadArgument"],
        status: 1,
        ..PLAIN
    },
    Row {
        what: "nothing is printed of a way that is off, and NULL chooses nothing",
        session: &[
            "p, q = Route(2, 1); Print(Compute(\"$0 + $1\", Compute(\"1 / 0\"), p), \"d\"); ",
            "Print(Switch(NULL, 1), \"d\");",
        ],
        printed: &["NULL"],
        ..PLAIN
    },
    Row {
        what: "a slab, a histogram, a marked component and a replaced one",
        session: &[
            "f = Import(\"d.dx\"); Print(Extract(Slab(f, 0, 1)), \"d\"); ",
            "h, m = Histogram({1 2 2 3 9}, 3); Print(Extract(h), \"d\"); Print(m, \"d\"); ",
            "u = Unmark(Compute(\"$0 + 1\", Mark(f, \"positions\")), \"positions\"); ",
            "Print(Extract(u, \"positions\")); Print(Statistics(Replace({5}, u)), \"d\"); ",
            "Print(Extract(Replace(NULL, f)));",
        ],
        files: &[("d.dx", GRID)],
        printed: &[
            "array plain int rank 0 items 3",
            "4",
            "5",
            "6",
            "array plain int rank 0 items 3",
            "4",
            "0",
            "1",
            NUMBER,
            "2",
            "array plain int rank 1 shape 2 items 12",
            NUMBER,
            "5",
            "error Extract:1: NoComponent",
        ],
        status: 1,
        ..PLAIN
    },
];

#[test]
fn numbers(rt: HostRuntime) -> Result<(), Fail> {
    all_hold(rt.alloc(), NUMBERS)
}
