//! Files that are read, and files that were put.
use crate::rows::{Row, all_are_so};
use std::test::Fail;

const IMPORTS: [Row; 4] = [
    // A file isn't read again while its result is kept.
    (
        1000,
        "",
        &[
            "Echo(Import(\"i\"));",
            "Echo(Import(\"i\"), Import(\"j\"));",
        ],
        "7
ok
read i
trace run Import:1
trace keep Import:1 68
1 runs, 0 links, 68 used
7 8
ok
read j
trace hit Import:1
trace run Import:2
trace keep Import:2 68
1 runs, 0 links, 136 used
",
    ),
    // It is where its result isn't, in each execution once.
    (
        0,
        "",
        &[
            "Echo(Import(\"i\"), Import(\"i\"));",
            "Echo(Import(\"i\"));",
        ],
        "7 7
ok
read i
trace run Import:1
1 runs, 0 links, 0 used
7
ok
read i
trace run Import:1
1 runs, 0 links, 0 used
",
    ),
    // That there is no file is looked up each time.
    (
        1000,
        "",
        &["Echo(Import(\"k\"));", "Echo(Import(\"k\"));"],
        "refused Import:1 NoFile
read k
trace run Import:1
1 runs, 0 links, 0 used
refused Import:1 NoFile
read k
trace run Import:1
1 runs, 0 links, 0 used
",
    ),
    // Nothing is read under a name that is no text.
    (
        1000,
        "",
        &["Echo(Import(7));"],
        "refused Import:1 BadArgument
trace run Import:1
1 runs, 0 links, 0 used
",
    ),
];

#[test]
fn files_that_are_read(rt: HostRuntime) -> Result<(), Fail> {
    all_are_so(rt.alloc(), &IMPORTS)
}

const EXPORTS: [Row; 3] = [
    // What was put is known, and no file is read; another content is another result.
    (
        1000,
        "",
        &[
            "Export(5, \"o\");",
            "Echo(Import(\"o\"));",
            "Export(6, \"o\");",
            "Echo(Import(\"o\"));",
            "Export(5, \"o\");",
            "Echo(Import(\"o\"));",
        ],
        "put o
object 1 class array type int rank 0 items 1 data follows
5
end
ok
0 runs, 0 links, 0 used
5
ok
trace run Import:1
trace keep Import:1 68
1 runs, 0 links, 68 used
put o
object 1 class array type int rank 0 items 1 data follows
6
end
ok
0 runs, 0 links, 68 used
6
ok
trace run Import:1
trace keep Import:1 68
1 runs, 0 links, 136 used
put o
object 1 class array type int rank 0 items 1 data follows
5
end
ok
0 runs, 0 links, 136 used
5
ok
trace hit Import:1
0 runs, 0 links, 136 used
",
    ),
    // An Import sees what earlier executions put over a file, and not what its own does.
    (
        1000,
        "macro m() { Export(5, \"i\"); Echo(Import(\"i\")); }",
        &["m();", "m();"],
        "7
put i
object 1 class array type int rank 0 items 1 data follows
5
end
ok
read i
trace run m:1/Import:1
trace keep m:1/Import:1 68
1 runs, 0 links, 68 used
5
put i
object 1 class array type int rank 0 items 1 data follows
5
end
ok
trace run m:1/Import:1
trace keep m:1/Import:1 68
1 runs, 0 links, 136 used
",
    ),
    // It sees also what an execution put that ended in an error.
    (
        1000,
        "macro m() { Export(5, \"o\"); Print(1, 5); }",
        &["m();", "Echo(Import(\"o\"));"],
        "put o
object 1 class array type int rank 0 items 1 data follows
5
end
refused m:1/Print:1 BadArgument
0 runs, 0 links, 0 used
5
ok
trace run Import:1
trace keep Import:1 68
1 runs, 0 links, 68 used
",
    ),
];

#[test]
fn files_that_were_put(rt: HostRuntime) -> Result<(), Fail> {
    all_are_so(rt.alloc(), &EXPORTS)
}
