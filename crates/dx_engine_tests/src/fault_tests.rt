//! The error that an execution ends with.
use crate::rows::{Row, all_are_so};
use std::test::Fail;

const BAD: &str = "bad = Compute(\"1 / 0\"); worse = Compute(\"x\"); p, q = Route(2, 1);";

const ERRORS: [Row; 7] = [
    // What was printed before it stays, nothing behind it is performed, and a run that is refused isn't kept.
    (
        1000,
        "bad = Compute(\"1 / 0\"); macro m() { Echo(1); Echo(bad); Echo(2); }",
        &["m();", "m();"],
        "1
refused bad/Compute:1 DivisionByZero
trace run bad/Compute:1
1 runs, 0 links, 0 used
1
refused bad/Compute:1 DivisionByZero
trace run bad/Compute:1
1 runs, 0 links, 0 used
",
    ),
    // Of two arguments the first that is refused decides, and what comes behind it isn't run.
    (
        1000,
        BAD,
        &["Echo(worse, bad);", "Echo(bad, worse);"],
        "refused worse/Compute:1 BadExpression 0
trace run worse/Compute:1
1 runs, 0 links, 0 used
refused bad/Compute:1 DivisionByZero
trace run bad/Compute:1
1 runs, 0 links, 0 used
",
    ),
    // What is needed before it is run and kept.
    (
        1000,
        "x = Compute(\"1 - 1\"); y = Compute(\"1 / $0\", x);",
        &["Echo(y);", "Echo(y);"],
        "refused y/Compute:1 DivisionByZero
trace run x/Compute:1
trace keep x/Compute:1 68
trace run y/Compute:1
2 runs, 0 links, 68 used
refused y/Compute:1 DivisionByZero
trace hit x/Compute:1
trace run y/Compute:1
1 runs, 0 links, 68 used
",
    ),
    // What is off beside a call that would be refused: nothing is run.
    (
        1000,
        BAD,
        &["Echo(Collect(bad, p));", "Echo(p);"],
        "ok
0 runs, 0 links, 0 used
ok
0 runs, 0 links, 0 used
",
    ),
    // A run has the site of the call that formed its term first, and the error that of the call whose data counts.
    (
        1000,
        "bad = Compute(\"1 / 0\"); p, q = Route(2, 1); macro m() { Echo(Collect(bad, p)); Echo(Compute(\"1 / 0\")); }",
        &["m();"],
        "refused m:1/Compute:1 DivisionByZero
trace run bad/Compute:1
1 runs, 0 links, 0 used
",
    ),
    // A selector that doesn't fit, one that is refused, and an effect that refuses its values.
    (
        1000,
        BAD,
        &[
            "Echo(bad, Switch(\"a\", 1));",
            "Echo(Switch(bad, 1));",
            "Print(1, \"x\");",
        ],
        "refused Switch:1 BadArgument
0 runs, 0 links, 0 used
refused bad/Compute:1 DivisionByZero
trace run bad/Compute:1
1 runs, 0 links, 0 used
refused Print:1 Unsupported
0 runs, 0 links, 0 used
",
    ),
    // What isn't picked doesn't matter.
    (
        1000,
        BAD,
        &["Echo(Switch(1, 10, bad));"],
        "10
ok
0 runs, 0 links, 0 used
",
    ),
];

#[test]
fn the_first_error_ends_an_execution(rt: HostRuntime) -> Result<(), Fail> {
    all_are_so(rt.alloc(), &ERRORS)
}
