//! Sessions that import and export.
use crate::rows::{GRID, NUMBER, PLAIN, Row, all_hold};
use std::test::Fail;

// A text, in a file without an end.
const TEXT_T: &[u8] = b"object 1 class string \"t\"";

// The text as it is written.
const TEXT_T_WRITTEN: &[u8] = b"\
object 1 class string \"t\"
end
";

// Numbers as they are written.
const ONE: &[u8] = b"\
object 1 class array type int rank 0 items 1 data follows
1
end
";

const TWO: &[u8] = b"\
object 1 class array type int rank 0 items 1 data follows
2
end
";

const THREE: &[u8] = b"\
object 1 class array type int rank 0 items 1 data follows
3
end
";

const FIVE: &[u8] = b"\
object 1 class array type int rank 0 items 1 data follows
5
end
";

const SEVEN: &[u8] = b"\
object 1 class array type int rank 0 items 1 data follows
7
end
";

// The shorts 1 and -1, the low byte first.
const SHORTS: &[u8] =
    b"object 1 class array type short rank 0 items 2 lsb binary data follows\n\x01\x00\xff\xff";

const REGULAR_IN_ONE_LINE: &[u8] =
    b"object 1 class regulararray type int rank 0 items 5 origin 10 delta -2\n";

// The regular array as it is written.
const REGULAR: &[u8] = b"\
object 1 class regulararray type int rank 0 items 5
origin 10
delta -2
end
";

// The grid as it is written.
const GRID_WRITTEN: &[u8] = b"\
object 1 class gridpositions counts 4 3
origin 0 0
delta 1 0
delta 0 1
object 2 class gridconnections counts 4 3
attribute \"element type\" string \"quads\"
attribute \"ref\" string \"positions\"
object 3 class array type int rank 0 items 12 data follows
1
2
3
4
5
6
7
8
9
10
11
12
attribute \"dep\" string \"positions\"
object 4 class field
component \"positions\" value 1
component \"connections\" value 2
component \"data\" value 3
end
";

// A series of two numbers, as it is written.
const SERIES: &[u8] = b"\
object 1 class array type int rank 0 items 1 data follows
1
object 2 class array type int rank 0 items 1 data follows
2
object 3 class series
member 0 position 0 value 1
member 1 position 5 value 2
end
";

// What is imported.
const IMPORTED: &[Row<'static>] = &[
    Row {
        what: "a field, and the object of a name",
        session: &["Print(Import(\"d.dx\")); Print(Import(\"d.dx\", \"3\"));"],
        files: &[("d.dx", GRID)],
        printed: &["field 3 components", "array plain int rank 0 items 12"],
        ..PLAIN
    },
    Row {
        what: "binary data",
        session: &["Print(Import(\"b.dx\"), \"d\");"],
        files: &[("b.dx", SHORTS)],
        printed: &["array plain short rank 0 items 2", "1", "-1"],
        ..PLAIN
    },
    Row {
        what: "as many items as an array may have",
        session: &["Print(Import(\"a.dx\"));"],
        files: &[(
            "a.dx",
            b"object 1 class constantarray type short rank 0 items 16777216 data follows\n7",
        )],
        printed: &["array constant short rank 0 items 16777216"],
        ..PLAIN
    },
];

#[test]
fn imports(rt: HostRuntime) -> Result<(), Fail> {
    all_hold(rt.alloc(), IMPORTED)
}

// What is exported, and seen by later executions.
const EXPORTED: &[Row<'static>] = &[
    Row {
        what: "nothing is exported of NULL, nor in another format",
        session: &["Export(NULL, \"o\"); Export(1, \"o\", \"hdf\"); Export(1, \"o\");"],
        printed: &["error Export:1: BadArgument", "error Export:1: Unsupported"],
        status: 1,
        puts: &[("o", ONE)],
        ..PLAIN
    },
    Row {
        what: "two files are exported, one behind the other",
        session: &["Echo(\"a\"); Export(7, \"o\"); Echo(Import(\"v.dx\")); Export(\"t\", \"p\");"],
        files: &[("v.dx", TEXT_T)],
        printed: &["a", "t"],
        puts: &[("o", SEVEN), ("p", TEXT_T_WRITTEN)],
        ..PLAIN
    },
    Row {
        what: "an Import sees what an earlier execution has exported, and is found again where it is the same",
        words: &["--trace", "s.net"],
        session: &[
            "Export(1, \"o\"); Print(Import(\"o\"), \"d\"); Export(2, \"o\"); ",
            "Print(Import(\"o\"), \"d\"); Export(2, \"o\"); Print(Import(\"o\"), \"d\");",
        ],
        printed: &[
            NUMBER,
            "1",
            "trace run Import:1",
            "trace keep Import:1 68",
            NUMBER,
            "2",
            "trace run Import:1",
            "trace keep Import:1 68",
            NUMBER,
            "2",
            "trace hit Import:1",
        ],
        puts: &[("o", ONE), ("o", TWO), ("o", TWO)],
        ..PLAIN
    },
    Row {
        what: "an Import doesn't see what its own execution exports",
        session: &["macro main() { Export(5, \"o\"); Print(Import(\"o\")); } main(); main();"],
        printed: &["error main:1/Import:1: NoFile", NUMBER],
        status: 1,
        puts: &[("o", FIVE), ("o", FIVE)],
        ..PLAIN
    },
    Row {
        what: "an Import under a name that is computed",
        session: &["g = {\"o\" \"p\"}; Export(3, \"p\"); Print(Import(Select(g, 1)), \"d\");"],
        printed: &[NUMBER, "3"],
        puts: &[("p", THREE)],
        ..PLAIN
    },
    Row {
        what: "an Import sees what an execution has exported that ended in an error",
        session: &[
            "macro m() { Export(1, \"o\"); Print(Compute(\"1 / 0\")); } m(); Print(Import(\"o\"));",
        ],
        printed: &["error m:1/Compute:1: DivisionByZero", NUMBER],
        status: 1,
        puts: &[("o", ONE)],
        ..PLAIN
    },
];

#[test]
fn exports(rt: HostRuntime) -> Result<(), Fail> {
    all_hold(rt.alloc(), EXPORTED)
}

// What is imported and exported again.
const WRITTEN: &[Row<'static>] = &[
    Row {
        what: "a regular array",
        session: &["Export(Import(\"r.dx\"), \"o.dx\");"],
        files: &[("r.dx", REGULAR_IN_ONE_LINE)],
        puts: &[("o.dx", REGULAR)],
        ..PLAIN
    },
    Row {
        what: "a regular array, as it was written",
        session: &["Export(Import(\"r.dx\"), \"o.dx\");"],
        files: &[("r.dx", REGULAR)],
        puts: &[("o.dx", REGULAR)],
        ..PLAIN
    },
    Row {
        what: "a field over a grid",
        session: &["Export(Import(\"d.dx\"), \"o.dx\");"],
        files: &[("d.dx", GRID)],
        puts: &[("o.dx", GRID_WRITTEN)],
        ..PLAIN
    },
    Row {
        what: "a field over a grid, as it was written",
        session: &["Export(Import(\"d.dx\"), \"o.dx\");"],
        files: &[("d.dx", GRID_WRITTEN)],
        puts: &[("o.dx", GRID_WRITTEN)],
        ..PLAIN
    },
    Row {
        what: "a series",
        session: &["Export(CollectSeries(1, 0, 2, 5), \"o.dx\");"],
        puts: &[("o.dx", SERIES)],
        ..PLAIN
    },
    Row {
        what: "a series, as it was written",
        session: &["Export(Import(\"a.dx\"), \"o.dx\");"],
        files: &[("a.dx", SERIES)],
        puts: &[("o.dx", SERIES)],
        ..PLAIN
    },
];

#[test]
fn what_is_written_is_read_again(rt: HostRuntime) -> Result<(), Fail> {
    all_hold(rt.alloc(), WRITTEN)
}
