//! Sessions whose trace tells what is run, kept, found again and dropped.
use crate::rows::{NUMBER, PLAIN, Row, all_hold};
use std::test::Fail;

// A text.
const TEXT_T: &[u8] = b"object 1 class string \"t\"\n";

// What is kept of a result, and for how long.
const KEPT: &[Row<'static>] = &[
    Row {
        what: "a result that isn't to be kept is computed each time",
        words: &["--trace", "s.net"],
        session: &["x = Compute(\"1 + 1\") [cache: 0]; Print(x, \"d\"); Print(x, \"d\");"],
        printed: &[
            NUMBER,
            "2",
            "trace run x/Compute:1",
            NUMBER,
            "2",
            "trace run x/Compute:1",
        ],
        ..PLAIN
    },
    Row {
        what: "room for two: the result that was needed longest ago is dropped",
        words: &["--trace", "--memory", "136", "s.net"],
        session: &[
            "a = Compute(\"1\"); b = Compute(\"2\"); c = Compute(\"3\"); Print(a, \"d\"); ",
            "Print(b, \"d\"); Print(c, \"d\"); Print(a, \"d\");",
        ],
        printed: &[
            NUMBER,
            "1",
            "trace run a/Compute:1",
            "trace keep a/Compute:1 68",
            NUMBER,
            "2",
            "trace run b/Compute:1",
            "trace keep b/Compute:1 68",
            NUMBER,
            "3",
            "trace run c/Compute:1",
            "trace drop a/Compute:1",
            "trace keep c/Compute:1 68",
            NUMBER,
            "1",
            "trace run a/Compute:1",
            "trace drop b/Compute:1",
            "trace keep a/Compute:1 68",
        ],
        ..PLAIN
    },
    Row {
        what: "of two calls at one place the last result alone is kept",
        words: &["--trace", "s.net"],
        session: &[
            "x = Compute(\"1\") [cache: 2]; y = x; x = Compute(\"2\") [cache: 2]; Print(y, \"d\"); ",
            "Print(x, \"d\"); Print(y, \"d\");",
        ],
        printed: &[
            NUMBER,
            "1",
            "trace run x/Compute:1",
            "trace keep x/Compute:1 68",
            NUMBER,
            "2",
            "trace run x/Compute:1",
            "trace drop x/Compute:1",
            "trace keep x/Compute:1 68",
            NUMBER,
            "1",
            "trace run x/Compute:1",
            "trace drop x/Compute:1",
            "trace keep x/Compute:1 68",
        ],
        ..PLAIN
    },
    Row {
        what: "whether a result is kept is said by the first call of this meaning, though nothing needs that one",
        words: &["--trace", "s.net"],
        session: &[
            "macro m() { p, q = Route(2, 1); Print(Collect(Compute(\"1 + 1\") [cache: 0], p)); ",
            "Print(Compute(\"1 + 1\"), \"d\"); } m();",
        ],
        printed: &[NUMBER, "2", "trace run m:1/Compute:1"],
        ..PLAIN
    },
    Row {
        what: "the name of an Import is found before the Import is",
        words: &["s.net", "--trace"],
        session: &["x = Import(Select({\"a.dx\" \"b.dx\"}, 0)); Print(x); Print(x);"],
        files: &[("a.dx", TEXT_T)],
        printed: &[
            "text \"t\"",
            "trace run x/Select:1",
            "trace keep x/Select:1 68",
            "trace run x/Import:1",
            "trace keep x/Import:1 65",
            "text \"t\"",
            "trace hit x/Select:1",
            "trace hit x/Import:1",
        ],
        ..PLAIN
    },
    Row {
        what: "the name of an Import is computed each time where it isn't to be kept",
        words: &["--trace", "s.net"],
        session: &["x = Import(Select({\"a.dx\" \"b.dx\"}, 0) [cache: 0]); Print(x); Print(x);"],
        files: &[("a.dx", TEXT_T)],
        printed: &[
            "text \"t\"",
            "trace run x/Select:1",
            "trace run x/Import:1",
            "trace keep x/Import:1 65",
            "text \"t\"",
            "trace run x/Select:1",
            "trace hit x/Import:1",
        ],
        ..PLAIN
    },
];

#[test]
fn results_are_kept(rt: HostRuntime) -> Result<(), Fail> {
    all_hold(rt.alloc(), KEPT)
}

// What is never computed.
const NEEDED: &[Row<'static>] = &[
    Row {
        what: "what a Switch doesn't choose",
        words: &["--trace", "s.net"],
        session: &[
            "a = 10; bad = Compute(\"1 / 0\"); Print(Switch(0, a, a), \"d\"); ",
            "Print(Switch(1, a, bad), \"d\"); Print(Switch(2, a, bad), \"d\");",
        ],
        printed: &[
            "NULL",
            NUMBER,
            "10",
            "error bad/Compute:1: DivisionByZero",
            "trace run bad/Compute:1",
        ],
        status: 1,
        ..PLAIN
    },
    Row {
        what: "what stands beside a way that a Route leaves off",
        words: &["--trace", "s.net"],
        session: &["p, q = Route(2, 1); Print(Collect(Compute(\"1 / 0\"), p), \"d\");"],
        ..PLAIN
    },
];

#[test]
fn what_nothing_needs_is_not_run(rt: HostRuntime) -> Result<(), Fail> {
    all_hold(rt.alloc(), NEEDED)
}

// Workloads: no budget changes what is printed.
const WORKLOADS: &[Row<'static>] = &[
    Row {
        what: "a workload of two executions",
        words: &["--workload", "2"],
        printed: &[NUMBER, "213"],
        ..PLAIN
    },
    Row {
        what: "a workload of three",
        words: &["--workload", "3"],
        printed: &[NUMBER, "745"],
        ..PLAIN
    },
    Row {
        what: "room for nothing",
        words: &["--workload", "3", "--memory", "0"],
        printed: &[NUMBER, "745"],
        ..PLAIN
    },
    Row {
        what: "a byte less than a result needs",
        words: &["--workload", "3", "--memory", "67"],
        printed: &[NUMBER, "745"],
        ..PLAIN
    },
    Row {
        what: "room for a result",
        words: &["--workload", "3", "--memory", "68"],
        printed: &[NUMBER, "745"],
        ..PLAIN
    },
    Row {
        what: "a byte less than two results need",
        words: &["--workload", "3", "--memory", "135"],
        printed: &[NUMBER, "745"],
        ..PLAIN
    },
    Row {
        what: "room for two results",
        words: &["--workload", "3", "--memory", "136"],
        printed: &[NUMBER, "745"],
        ..PLAIN
    },
];

#[test]
fn workloads(rt: HostRuntime) -> Result<(), Fail> {
    all_hold(rt.alloc(), WORKLOADS)
}
