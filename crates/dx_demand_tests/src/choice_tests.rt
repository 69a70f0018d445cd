//! Switch and Route, and control before data.

use crate::rows::{Row, first_miss};
use crate::told::Tell;
use std::test::Fail;

const BAD: &str = "bad = Compute(\"1 / 0\");";

// A Switch looks at the input that is chosen alone, so that what fails in another doesn't matter.
const SWITCHES: [Row; 9] = [
    (
        BAD,
        "Echo(Switch(1, 10, bad));",
        &[Tell::Number(1)],
        "need 0 of Switch:1; value 1 | 1 | 10",
    ),
    (
        BAD,
        "Echo(Switch(2, 10, bad));",
        &[Tell::Number(2)],
        "need 0 of Switch:1; value 2 met 2 bad/Compute:1 | 2 | \"1 / 0\" | Compute 1 by bad/Compute:1",
    ),
    // The number 0 is no input, and neither is one behind the last or below.
    (
        BAD,
        "Echo(Switch(0, 10, bad));",
        &[Tell::Number(0)],
        "need 0 of Switch:1; value 1 | 0 | NULL",
    ),
    (
        BAD,
        "Echo(Switch(3, 10, bad));",
        &[Tell::Number(3)],
        "need 0 of Switch:1; value 1 | 3 | NULL",
    ),
    (
        BAD,
        "Echo(Switch(-1, 10, bad));",
        &[Tell::Number(-1)],
        "need 0 of Switch:1; value 1 | -1 | NULL",
    ),
    (
        BAD,
        "Echo(Switch(NULL, 10, bad));",
        &[Tell::Null],
        "need 0 of Switch:1; value 0 | NULL",
    ),
    (
        BAD,
        "Echo(Switch(\"1\", 10, bad));",
        &[Tell::Text("1")],
        "need 0 of Switch:1; halt Switch:1 | \"1\"",
    ),
    // The value of the selector counts, and not what it is written as.
    (
        "x = Compute(\"1 + 1\");",
        "Echo(Switch(x, 10, 20));",
        &[Tell::Number(2)],
        "need 1 of Switch:1; value 2 | \"1 + 1\" | Compute 0 by x/Compute:1 | 20",
    ),
    // One chosen by another needs its selector behind that of the other.
    (
        "",
        "Echo(Switch(1, Switch(2, 5, 6)));",
        &[Tell::Number(1), Tell::Number(2)],
        "need 0 of Switch:1; need 1 of Switch:2; value 2 | 1 | 2 | 6",
    ),
];

#[test]
fn a_switch_looks_at_its_choice_alone(rt: HostRuntime) -> Result<(), Fail> {
    assert!(rt; first_miss(rt.alloc(), &SWITCHES)?.is_none());
    Ok(())
}

const ROUTED: &str = "a, b, c = Route(2, 5);";

const ROUTES: [Row; 6] = [
    // The other results of a Route are closed.
    (
        ROUTED,
        "Echo(a, b, c);",
        &[Tell::Number(2)],
        "need 0 of a/Route:1; off, value 1, off | 2 | 5",
    ),
    (
        "a, b, c = Route(0, 5);",
        "Echo(a, b, c);",
        &[Tell::Number(0)],
        "need 0 of a/Route:1; off, off, off | 0",
    ),
    (
        "a, b = Route(NULL, 5);",
        "Echo(a, b);",
        &[Tell::Null],
        "need 0 of a/Route:1; off, off | NULL",
    ),
    (
        "a, b = Route(\"1\", 5);",
        "Echo(a, b);",
        &[Tell::Text("1")],
        "need 0 of a/Route:1; halt a/Route:1, halt a/Route:1 | \"1\"",
    ),
    // What is off isn't NULL: a call of a module with such an argument is off itself, and a Switch that chooses it, too.
    (
        ROUTED,
        "Echo(Collect(a, NULL), Collect(NULL, NULL));",
        &[Tell::Number(2)],
        "need 0 of a/Route:1; off, value 2 met 2 Collect:2 | 2 | NULL | Collect 1 1 by Collect:2",
    ),
    (
        ROUTED,
        "Echo(Switch(1, c), Switch(a, 1));",
        &[Tell::Number(1), Tell::Number(2)],
        "need 0 of Switch:1; need 1 of a/Route:1; off, off | 1 | 2",
    ),
];

#[test]
fn one_result_of_a_route_is_open(rt: HostRuntime) -> Result<(), Fail> {
    assert!(rt; first_miss(rt.alloc(), &ROUTES)?.is_none());
    Ok(())
}

const ORDER: [Row; 6] = [
    // Nothing of the data is needed, whatever it would come to: that an argument is off is seen first.
    (
        "bad = Compute(\"1 / 0\"); p, q = Route(2, 1);",
        "Echo(Collect(bad, p));",
        &[Tell::Number(2)],
        "need 2 of p/Route:1; off | \"1 / 0\" | Compute 0 by bad/Compute:1 | 2",
    ),
    // Behind an argument that is off none is looked at.
    (
        "bad = Compute(\"1 / 0\"); p, q = Route(2, 1);",
        "Echo(Collect(p, bad, Switch(3, 4)));",
        &[Tell::Number(2)],
        "need 0 of p/Route:1; off | 2",
    ),
    // A selector that doesn't fit decides before one behind it that is off.
    (
        "p, q = Route(2, 1);",
        "Echo(Collect(Switch(\"x\", 1), p));",
        &[Tell::Text("x")],
        "need 0 of Switch:1; halt Switch:1 | \"x\"",
    ),
    // The name of an Import is control: its value is needed before an argument behind it is looked at.
    (
        "bad = Compute(\"1 / 0\"); p, q = Route(2, 1);",
        "Echo(Collect(Import(bad), p));",
        &[],
        "need 1 of Import:1;  | \"1 / 0\" | Compute 0 by bad/Compute:1",
    ),
    (
        "bad = Compute(\"1 / 0\"); p, q = Route(2, 1);",
        "Echo(Collect(p, Import(bad)));",
        &[Tell::Number(2)],
        "need 0 of p/Route:1; off | 2",
    ),
    // And one that is off before a selector behind it.
    (
        "p, q = Route(2, 1);",
        "Echo(Collect(p, Switch(\"x\", 1)));",
        &[Tell::Number(2)],
        "need 0 of p/Route:1; off | 2",
    ),
];

#[test]
fn control_comes_before_data(rt: HostRuntime) -> Result<(), Fail> {
    assert!(rt; first_miss(rt.alloc(), &ORDER)?.is_none());
    Ok(())
}
