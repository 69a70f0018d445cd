//! What is run, kept, found again and dropped, and that what is kept stays within the budget.
use crate::rows::{Row, all_are_so};
use std::test::Fail;

const TWO: &str = "x = Compute(\"1 + 1\"); y = Compute(\"2 + 2\"); z = Compute(\"3 + 3\");";

const TWICE: [Row; 3] = [
    // The second execution runs nothing, and tells its own events alone.
    (
        1000,
        TWO,
        &["Print(x, \"d\");", "Print(x, \"d\");"],
        "array plain int rank 0 items 1
2
ok
trace run x/Compute:1
trace keep x/Compute:1 68
1 runs, 0 links, 68 used
array plain int rank 0 items 1
2
ok
trace hit x/Compute:1
0 runs, 0 links, 68 used
",
    ),
    // Nothing happens where nothing is asked for, and nothing is told of the execution before.
    (
        1000,
        TWO,
        &["Echo(x);", "Echo(1);", "Echo(x);"],
        "2
ok
trace run x/Compute:1
trace keep x/Compute:1 68
1 runs, 0 links, 68 used
1
ok
0 runs, 0 links, 68 used
2
ok
trace hit x/Compute:1
0 runs, 0 links, 68 used
",
    ),
    // What isn't to be kept is run in each execution.
    (
        1000,
        "x = Compute(\"1 + 1\") [cache: 0];",
        &["Echo(x);", "Echo(x);"],
        "2
ok
trace run x/Compute:1
1 runs, 0 links, 0 used
2
ok
trace run x/Compute:1
1 runs, 0 links, 0 used
",
    ),
];

#[test]
fn an_execution_made_again(rt: HostRuntime) -> Result<(), Fail> {
    all_are_so(rt.alloc(), &TWICE)
}

const BUDGETS: [Row; 4] = [
    // Nothing is kept, but within an execution nothing runs twice.
    (
        0,
        TWO,
        &["Echo(x, x);", "Echo(x);"],
        "2 2
ok
trace run x/Compute:1
1 runs, 0 links, 0 used
2
ok
trace run x/Compute:1
1 runs, 0 links, 0 used
",
    ),
    // A byte less than a result needs.
    (
        67,
        TWO,
        &["Echo(x);", "Echo(x);"],
        "2
ok
trace run x/Compute:1
1 runs, 0 links, 0 used
2
ok
trace run x/Compute:1
1 runs, 0 links, 0 used
",
    ),
    // Room for one: another takes its place, within an execution too.
    (
        68,
        TWO,
        &["Echo(x);", "Echo(y, z);", "Echo(z);", "Echo(y);"],
        "2
ok
trace run x/Compute:1
trace keep x/Compute:1 68
1 runs, 0 links, 68 used
4 6
ok
trace run y/Compute:1
trace drop x/Compute:1
trace keep y/Compute:1 68
trace run z/Compute:1
trace drop y/Compute:1
trace keep z/Compute:1 68
2 runs, 0 links, 68 used
6
ok
trace hit z/Compute:1
0 runs, 0 links, 68 used
4
ok
trace run y/Compute:1
trace drop z/Compute:1
trace keep y/Compute:1 68
1 runs, 0 links, 68 used
",
    ),
    // Room for two: the one that was needed longest ago goes.
    (
        203,
        TWO,
        &["Echo(x);", "Echo(y);", "Echo(x);", "Echo(z);", "Echo(x);"],
        "2
ok
trace run x/Compute:1
trace keep x/Compute:1 68
1 runs, 0 links, 68 used
4
ok
trace run y/Compute:1
trace keep y/Compute:1 68
1 runs, 0 links, 136 used
2
ok
trace hit x/Compute:1
0 runs, 0 links, 136 used
6
ok
trace run z/Compute:1
trace drop y/Compute:1
trace keep z/Compute:1 68
1 runs, 0 links, 136 used
2
ok
trace hit x/Compute:1
0 runs, 0 links, 136 used
",
    ),
];

#[test]
fn results_within_a_budget(rt: HostRuntime) -> Result<(), Fail> {
    all_are_so(rt.alloc(), &BUDGETS)
}
