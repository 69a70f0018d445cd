//! The call that formed a term first, and the first that data meets.

use crate::rows::{Row, first_miss};
use crate::told::Tell;
use std::test::Fail;

const TWO: &str = "a = Compute(\"1\"); b = Compute(\"1\");";

const CALLS: [Row; 6] = [
    // Two calls have one term: the first formed it, and the first is met, since arguments come in order.
    (
        TWO,
        "Echo(Collect(a, b), Collect(b, a));",
        &[],
        "value 2 met 1 a/Compute:1 met 2 Collect:1, value 2 met 1 b/Compute:1 met 2 Collect:2 | \"1\" | Compute 0 by a/Compute:1 | Collect 1 1 by Collect:1",
    ),
    // A selector's call is formed, and data doesn't meet it.
    (
        TWO,
        "Echo(Switch(a, 7), Switch(a, b));",
        &[Tell::Number(1)],
        "need 1 of Switch:1; value 2, value 1 met 1 b/Compute:1 | \"1\" | Compute 0 by a/Compute:1 | 7",
    ),
    // Neither does it meet the name of an Import.
    (
        TWO,
        "Echo(Collect(Import(a), b));",
        &[Tell::Text("f")],
        "need 1 of Import:1; value 4 met 1 b/Compute:1 met 3 Import:1 met 4 Collect:1 | \"1\" | Compute 0 by a/Compute:1 | NULL | Import 1 2 2 2 2 2 by Import:1 | Collect 3 1 by Collect:1",
    ),
    // At no depth: here the name rests on a call that the second argument meets too.
    (
        "a = Compute(\"1\"); b = Compute(\"1\"); c = Collect(Collect(Import(Collect(a))));",
        "Echo(Collect(c, b));",
        &[Tell::Text("f")],
        "need 2 of c/Import:1; value 7 met 1 b/Compute:1 met 4 c/Import:1 met 5 c/Collect:2 met 6 c/Collect:1 met 7 Collect:1 | \"1\" | Compute 0 by a/Compute:1 | Collect 1 by c/Collect:3 | NULL | Import 2 3 3 3 3 3 by c/Import:1 | Collect 4 by c/Collect:2 | Collect 5 by c/Collect:1 | Collect 6 1 by Collect:1",
    ),
    // The other arguments of an Import are data.
    (
        TWO,
        "Echo(Import(a, b));",
        &[Tell::Text("f")],
        "need 1 of Import:1; value 3 met 1 b/Compute:1 met 3 Import:1 | \"1\" | Compute 0 by a/Compute:1 | NULL | Import 1 1 2 2 2 2 by Import:1",
    ),
    // A call is passed to the input that gave its value.
    (
        "a = Compute(\"1\"); b = Compute(\"1\"); p, q = Route(2, b);",
        "Echo(Switch(2, a, q));",
        &[Tell::Number(2)],
        "need 0 of Switch:1; value 2 met 2 b/Compute:1 | 2 | \"1\" | Compute 1 by b/Compute:1",
    ),
];

#[test]
fn calls_of_one_term(rt: HostRuntime) -> Result<(), Fail> {
    assert!(rt; first_miss(rt.alloc(), &CALLS)?.is_none());
    Ok(())
}
