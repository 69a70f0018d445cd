//! Sessions with links, global and local.
use crate::rows::{ITEM, NUMBER, PLAIN, Row, all_hold};
use std::test::Fail;

// Global links: what a Get sees, and what an execution leaves.
const GLOBAL: &[Row<'static>] = &[
    Row {
        what: "each execution sees what the one before it has set",
        words: &["--trace", "--memory", "0", "s.net"],
        session: &[
            "macro main() { x = GetGlobal(0, \"n\"); y = Compute(\"$0 + 1\", x); ",
            "SetGlobal(y, \"n\"); Print(y, \"d\"); } main(); main(); main();",
        ],
        printed: &[
            NUMBER,
            "1",
            "trace run main:1/Compute:1",
            NUMBER,
            "2",
            "trace run main:1/Compute:1",
            NUMBER,
            "3",
            "trace run main:1/Compute:1",
        ],
        ..PLAIN
    },
    Row {
        what: "an execution that ends in an error changes no link",
        session: &[
            "macro main() { SetGlobal(7, \"n\"); Print(Compute(\"1 / 0\"), \"d\"); } main(); ",
            "Print(GetGlobal(0, \"n\"), \"d\");",
        ],
        printed: &["error main:1/Compute:1: DivisionByZero", NUMBER, "0"],
        status: 1,
        ..PLAIN
    },
    Row {
        what: "the last of two Sets counts, and a Set of NULL takes the link away",
        words: &["--links", "s.net"],
        session: &[
            "macro m() { SetGlobal(1, \"n\"); SetGlobal(2, \"n\"); } m(); SetGlobal(NULL, \"n\"); ",
            "Print(GetGlobal(0, \"n\"), \"d\");",
        ],
        printed: &[
            "links 1",
            "link global \"n\"",
            ITEM,
            "2",
            "end",
            "links 0",
            NUMBER,
            "0",
            "links 0",
        ],
        ..PLAIN
    },
    Row {
        what: "a Set whose name is off, and one whose object is off: neither is made, but the name is answered",
        words: &["--links", "s.net"],
        session: &[
            "p, q = Route(2, \"n\"); macro m() { s = SetGlobal(1, p); t = SetGlobal(p, \"k\"); ",
            "Echo(t); Echo(s); Echo(\"end\"); } m();",
        ],
        printed: &["links 0", "k", "end", "links 0"],
        ..PLAIN
    },
];

#[test]
fn global_links(rt: HostRuntime) -> Result<(), Fail> {
    all_hold(rt.alloc(), GLOBAL)
}

// Local links: they are kept under the macros that lead to their calls.
const LOCAL: &[Row<'static>] = &[
    Row {
        what: "a local link that has no name of its own",
        session: &[
            "macro m() { a, l = GetLocal(0); b = Compute(\"$0 + 2\", a); SetLocal(b, l); ",
            "Print(b, \"d\"); } m(); m();",
        ],
        printed: &[NUMBER, "2", NUMBER, "4"],
        ..PLAIN
    },
    Row {
        what: "a local link is listed under its path, with the name that it was given",
        words: &["--links", "s.net"],
        session: &[
            "macro m() { a, l = GetLocal(0); b = Compute(\"$0 + 2\", a); SetLocal(b, l); ",
            "Print(b, \"d\"); } m(); m();",
        ],
        printed: &[
            NUMBER,
            "2",
            "links 1",
            "link local m:1 \"#m:1/GetLocal:1\"",
            ITEM,
            "2",
            "end",
            NUMBER,
            "4",
            "links 1",
            "link local m:1 \"#m:1/GetLocal:1\"",
            ITEM,
            "4",
            "end",
        ],
        ..PLAIN
    },
    Row {
        what: "the target of an assignment is no part of the path",
        session: &[
            "macro m() -> (r) { a = GetLocal(0, \"n\"); r = Compute(\"$0 + 1\", a); ",
            "SetLocal(r, \"n\"); } m(); y = m(); Echo(y);",
        ],
        printed: &["3"],
        ..PLAIN
    },
];

#[test]
fn local_links(rt: HostRuntime) -> Result<(), Fail> {
    all_hold(rt.alloc(), LOCAL)
}
