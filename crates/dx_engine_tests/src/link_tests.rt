//! Links: they change behind an execution that goes well.
use crate::rows::{Row, all_are_so};
use std::test::Fail;

const LINKS: [Row; 5] = [
    // A Get sees what was linked before its execution.
    (
        1000,
        "macro m() { SetGlobal(7, \"n\"); Echo(GetGlobal(0, \"n\")); }",
        &["m();", "m();"],
        "0
ok
0 runs, 1 links, 0 used
7
ok
0 runs, 1 links, 0 used
",
    ),
    // An error leaves the links as they were, those that are set before it too; what is put is put.
    (
        1000,
        "macro m() { SetGlobal(5, \"n\"); SetGlobal(6, \"k\"); Export(1, \"o\"); Echo(Compute(\"1 / 0\")); Export(2, \"p\"); }",
        &[
            "SetGlobal(3, \"n\");",
            "m();",
            "Echo(GetGlobal(0, \"n\"), GetGlobal(0, \"k\"));",
        ],
        "ok
0 runs, 1 links, 0 used
put o
object 1 class array type int rank 0 items 1 data follows
1
end
refused m:1/Compute:1 DivisionByZero
trace run m:1/Compute:1
1 runs, 1 links, 0 used
3 0
ok
0 runs, 1 links, 0 used
",
    ),
    // The last Set of a name counts, and one of NULL takes the link away.
    (
        1000,
        "macro m() { SetGlobal(1, \"n\"); SetGlobal(2, \"n\"); } macro w() { SetGlobal(3, \"n\"); SetGlobal(NULL, \"n\"); }",
        &[
            "m();",
            "Echo(GetGlobal(0, \"n\"));",
            "w();",
            "Echo(GetGlobal(0, \"n\"));",
        ],
        "ok
0 runs, 1 links, 0 used
2
ok
0 runs, 1 links, 0 used
ok
0 runs, 0 links, 0 used
0
ok
0 runs, 0 links, 0 used
",
    ),
    // What a link holds isn't run again, though nothing is cached; it is once no link holds it.
    (
        0,
        "x = Compute(\"1 + 1\");",
        &[
            "SetGlobal(x, \"a\");",
            "SetGlobal(x, \"b\");",
            "SetGlobal(1, \"a\");",
            "Echo(x);",
            "SetGlobal(NULL, \"b\");",
            "Echo(x);",
        ],
        "ok
trace run x/Compute:1
1 runs, 1 links, 0 used
ok
0 runs, 2 links, 0 used
ok
0 runs, 2 links, 0 used
2
ok
0 runs, 2 links, 0 used
ok
0 runs, 1 links, 0 used
2
ok
trace run x/Compute:1
1 runs, 1 links, 0 used
",
    ),
    // Local links stand under the macros that lead to their calls. What one holds is found there under another path too.
    (
        1000,
        "macro m() { SetLocal(Compute(\"$0 + 1\", GetLocal(0, \"n\")), \"n\"); Echo(GetLocal(0, \"n\")); } macro w() { m(); }",
        &["m();", "w();", "m();"],
        "0
ok
trace run m:1/Compute:1
trace keep m:1/Compute:1 68
1 runs, 1 links, 68 used
0
ok
0 runs, 2 links, 68 used
1
ok
trace run m:1/Compute:1
trace keep m:1/Compute:1 68
1 runs, 2 links, 136 used
",
    ),
];

#[test]
fn links_change_behind_an_execution(rt: HostRuntime) -> Result<(), Fail> {
    all_are_so(rt.alloc(), &LINKS)
}
