//! Sessions with macros: programs as the visual editor saves them, and the sites of calls.
use crate::rows::{GRID, NUMBER, PLAIN, Row, all_hold};
use std::test::Fail;

// A saved program without its last line, the call.
const PROGRAM: &str = "\
// MODULE main
macro main(
) -> (
) {
main_Import_1_out_1 =
    Import(
    main_Import_1_in_1, main_Import_1_in_2, main_Import_1_in_3,
    main_Import_1_in_4, main_Import_1_in_5, main_Import_1_in_6
    ) [instance: 1, cache: 1];
main_Compute_1_out_1 =
    Compute(
    main_Compute_1_in_1, main_Import_1_out_1
    ) [instance: 1, cache: 1];
main_Statistics_1_out_1, main_Statistics_1_out_2 =
    Statistics(
    main_Compute_1_out_1
    ) [instance: 1, cache: 1];
    Print(
    main_Statistics_1_out_1, main_Print_1_in_2
    ) [instance: 1, cache: 1];
}
main_Import_1_in_1 = \"d.dx\";
main_Import_1_in_2 = NULL;
main_Compute_1_in_1 = \"$0 * 2 + 1\";
main_Print_1_in_2 = \"d\";
Executive(\"product version 4 4 4\");
$sync

";

// A saved program over a grid of four by three.
const SAVED: &[Row<'static>] = &[
    Row {
        what: "a program that is called once",
        session: &[PROGRAM, "main();\n"],
        files: &[("d.dx", GRID)],
        printed: &[NUMBER, "14"],
        ..PLAIN
    },
    Row {
        what: "called twice, nothing being changed: the last result alone is looked for",
        words: &["--trace", "s.net"],
        session: &[PROGRAM, "main();\nmain();\n"],
        files: &[("d.dx", GRID)],
        printed: &[
            NUMBER,
            "14",
            "trace run main:1/Import:1",
            "trace keep main:1/Import:1 601",
            "trace run main:1/Compute:1",
            "trace keep main:1/Compute:1 601",
            "trace run main:1/Statistics:1",
            "trace keep main:1/Statistics:1 340",
            NUMBER,
            "14",
            "trace hit main:1/Statistics:1",
        ],
        ..PLAIN
    },
    Row {
        what: "with another expression for the second call: what was imported is found again",
        words: &["--trace", "s.net"],
        session: &[
            PROGRAM,
            "main();\nmain_Compute_1_in_1 = \"$0 * 3\";\nmain();\n",
        ],
        files: &[("d.dx", GRID)],
        printed: &[
            NUMBER,
            "14",
            "trace run main:1/Import:1",
            "trace keep main:1/Import:1 601",
            "trace run main:1/Compute:1",
            "trace keep main:1/Compute:1 601",
            "trace run main:1/Statistics:1",
            "trace keep main:1/Statistics:1 340",
            NUMBER,
            "19",
            "trace hit main:1/Import:1",
            "trace run main:1/Compute:1",
            "trace keep main:1/Compute:1 601",
            "trace run main:1/Statistics:1",
            "trace keep main:1/Statistics:1 340",
        ],
        ..PLAIN
    },
    Row {
        what: "called twice without a cache",
        words: &["--trace", "--memory", "0", "s.net"],
        session: &[PROGRAM, "main();\nmain();\n"],
        files: &[("d.dx", GRID)],
        printed: &[
            NUMBER,
            "14",
            "trace run main:1/Import:1",
            "trace run main:1/Compute:1",
            "trace run main:1/Statistics:1",
            NUMBER,
            "14",
            "trace run main:1/Import:1",
            "trace run main:1/Compute:1",
            "trace run main:1/Statistics:1",
        ],
        ..PLAIN
    },
];

#[test]
fn saved_programs(rt: HostRuntime) -> Result<(), Fail> {
    all_hold(rt.alloc(), SAVED)
}

// Macros, and which call of a macro an error and a line of the trace name.
const SITES: &[Row<'static>] = &[
    Row {
        what: "a value is that of the macro as it stands when it is needed",
        session: &[
            "macro m(a) -> (r) { r = Compute(\"$0 + 1\", a); } y = m(5); Print(y, \"d\"); ",
            "macro m(a) -> (r) { r = Compute(\"$0 * 2\", a); } Print(y, \"d\");",
        ],
        printed: &[NUMBER, "6", NUMBER, "10"],
        ..PLAIN
    },
    Row {
        what: "of two calls of one meaning the error names the one that is needed",
        session: &[
            "macro m() { p, q = Route(2, 1); Print(Compute(\"$0 + $1\", Compute(\"1 / 0\"), p)); ",
            "Print(Compute(\"1 / 0\")); } m();",
        ],
        printed: &["error m:1/Compute:3: DivisionByZero"],
        status: 1,
        ..PLAIN
    },
    Row {
        what: "of two calls of one meaning the trace names the first",
        words: &["s.net", "--trace"],
        session: &[
            "macro m() { p, q = Route(2, 1); Print(Compute(\"$0 + $1\", Compute(\"1 / 0\"), p)); ",
            "Print(Compute(\"1 / 0\")); } m();",
        ],
        printed: &[
            "error m:1/Compute:3: DivisionByZero",
            "trace run m:1/Compute:2",
        ],
        status: 1,
        ..PLAIN
    },
    Row {
        what: "the first of two calls of one meaning stands beside a way that is off",
        words: &["--trace", "s.net"],
        session: &[
            "macro m() { p, q = Route(2, 1); Print(Collect(Compute(\"1 / 0\"), p)); ",
            "Print(Compute(\"1 / 0\")); } m();",
        ],
        printed: &[
            "error m:1/Compute:2: DivisionByZero",
            "trace run m:1/Compute:1",
        ],
        status: 1,
        ..PLAIN
    },
    Row {
        what: "the name of an Import fails",
        session: &["macro m() { Print(Import(Compute(\"1 / 0\"))); } m();"],
        printed: &["error m:1/Compute:1: DivisionByZero"],
        status: 1,
        ..PLAIN
    },
    Row {
        what: "the name of an Import, computed before beside a way that is off",
        words: &["s.net", "--trace"],
        session: &[
            "macro m() { p, q = Route(2, 1); Print(Collect(Compute(\"1 / 0\"), p)); ",
            "Print(Import(Compute(\"1 / 0\"))); } m();",
        ],
        printed: &[
            "error m:1/Compute:2: DivisionByZero",
            "trace run m:1/Compute:1",
        ],
        status: 1,
        ..PLAIN
    },
    Row {
        what: "the name of an Import fails in front of a way that is off, and isn't needed behind it",
        words: &["s.net", "--trace"],
        session: &[
            "p, q = Route(2, 1); Print(Collect(Import(Compute(\"1 +\")), p)); ",
            "Print(Collect(p, Import(Compute(\"1 +\"))));",
        ],
        printed: &["error Compute:1: BadExpression 3", "trace run Compute:1"],
        status: 1,
        ..PLAIN
    },
    Row {
        what: "the name of an Import fails before other arguments are computed",
        session: &["Print(Collect(Compute(\"1 / 0\"), Import(Compute(\"1 +\"))));"],
        printed: &["error Compute:2: BadExpression 3"],
        status: 1,
        ..PLAIN
    },
];

#[test]
fn sites(rt: HostRuntime) -> Result<(), Fail> {
    all_hold(rt.alloc(), SITES)
}

// Assignments over definitions that had no fault so far.
const OVER_DEFINITIONS: &[Row<'static>] = &[
    Row {
        what: "a macro that is replaced is a fault of all that is assigned over its calls",
        session: &[
            "macro m(a) -> (r) { r = Compute(\"$0 + 1\", a); } x = m(5); y = Compute(\"$0\", x); ",
            "macro m(a) -> (r) { r = Foo(a); } z = Compute(\"$0\", y); ",
            "macro m(a) -> (r) { r = Compute(\"$0 * 2\", a); } z = Compute(\"$0\", y); Print(z, \"d\");",
        ],
        printed: &["error x/m:1/Foo:1: UnknownFunction", NUMBER, "10"],
        status: 1,
        ..PLAIN
    },
    Row {
        what: "the calls of the definitions count with those of the assignment",
        session: &[
            "macro a(x) -> (r) { r = Compute(\"$0\", Compute(\"$0\", Compute(\"$0\", Compute(\"$0\", x)))); } ",
            "macro b(x) -> (r) { r = a(a(a(a(a(a(a(a(x)))))))); } macro c(x) -> (r) { r = b(b(b(b(b(b(b(b(x)))))))); } ",
            "macro d(x) -> (r) { r = c(c(c(c(c(c(c(c(x)))))))); } macro e(x) -> (r) { r = d(d(d(d(x)))); } ",
            "x = e(e(e(1))); y = e(e(x)); y = e(e(e(y)));",
        ],
        printed: &["error y/e:2/d:4/c:1/b:8/a:5/Compute:1: Calls"],
        status: 1,
        ..PLAIN
    },
];

#[test]
fn over_definitions(rt: HostRuntime) -> Result<(), Fail> {
    all_hold(rt.alloc(), OVER_DEFINITIONS)
}
