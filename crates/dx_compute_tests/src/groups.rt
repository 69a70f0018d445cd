//! Groups and series: the result is the first of them, but at each place stands what is answered for their members at that place.
use crate::calls::{Row, check};
use std::test::Fail;

const MEMBERS: &[Row<'static>] = &[
    // Names, positions and attributes stay.
    ("$0 * 10", &["single"], "g(={10})"),
    ("$0 * 10", &["named"], "g(a={40 50} ={50})@name:\"g\""),
    ("$0 + 1", &["steps"], "s(2={6} -3={69})@name:\"s\""),
    (
        "$0",
        &["fields"],
        "g(a=f(positions=regular {10 8 6}@a:\"b\" data={7 7 7}@dep:\"positions\"@unit:\"m\" mark=byte {-128 127 0})@name:\"island\" b=f(data={5}))",
    ),
    (
        "$0 * 2",
        &["steps of fields"],
        "s(7=f(data={2}@unit:\"m\")@name:\"one\" 9=f(data={10}))",
    ),
    // Other inputs stand in each place.
    ("$0 + $1", &["named", "1"], "g(a={5 6} ={6})@name:\"g\""),
    ("$1 - $0", &["5", "named"], "g(a={-1 0} ={0})@name:\"g\""),
    (
        "$0 + $1",
        &["numbers", "one"],
        "g(x=f(data={2}@unit:\"m\")@name:\"one\" y=f(data={69}@unit:\"m\")@name:\"one\")",
    ),
    // The first by the number of the input, of those that occur.
    (
        "$0 + $1",
        &["named", "numbers"],
        "g(a={5 6} ={73})@name:\"g\"",
    ),
    (
        "$1 + $0",
        &["named", "numbers"],
        "g(a={5 6} ={73})@name:\"g\"",
    ),
    ("$0 + $1", &["numbers", "named"], "g(x={5 6} y={73})"),
    (
        "$0 + $1",
        &["steps", "numbers"],
        "s(2={6} -3={136})@name:\"s\"",
    ),
    ("$0 + $1", &["numbers", "steps"], "g(x={6} y={136})"),
    ("7", &["named"], "{7}"),
    ("$1", &["named", "5"], "{5}"),
    ("$0 + $1", &["named", "trio"], "ItemMismatch"),
    ("$0 + $1", &["trio", "steps"], "ItemMismatch"),
    ("$0 + $1", &["trio", "no members"], "ItemMismatch"),
];

// A group without members is its own answer, behind the checks of the inputs.
const EMPTY: &[Row<'static>] = &[
    ("$0 / 0", &["no members"], "g()@name:\"none\""),
    ("$0", &["no fields"], "c()"),
    ("$0", &["no steps"], "s()"),
    ("[1].1 + $0", &["no members"], "g()@name:\"none\""),
    ("$0 + $1", &["no members", "no data"], "g()@name:\"none\""),
    ("$0 + $1", &["no steps", "no fields"], "s()"),
    ("$0 + $1", &["no members", "text"], "BadArgument"),
];

// The first member that is refused decides.
const REFUSED: &[Row<'static>] = &[
    ("10 / $0", &["zero and text"], "DivisionByZero"),
    ("10 / $0", &["text and zero"], "BadArgument"),
    ("10 / $0", &["no data and zero"], "NoComponent"),
    ("$0 + $1", &["lists", "ints"], "ItemMismatch"),
    ("1 / ($0 - 4)", &["lists"], "DivisionByZero"),
    ("$0.1", &["vector and list"], "ItemMismatch"),
    ("$0 + $1", &["nested", "two and three"], "ItemMismatch"),
];

const NESTED: &[Row<'static>] = &[
    (
        "$0 + 1",
        &["nested"],
        "g(a=g(x={2} y={69}) b=s(2={6} -3={69})@name:\"s\")@name:\"outer\"",
    ),
    (
        "$0 + $1",
        &["nested", "numbers"],
        "g(a=g(x={2} y={69}) b=s(2={73} -3={136})@name:\"s\")@name:\"outer\"",
    ),
    (
        "$0 + $1",
        &["numbers", "nested"],
        "g(x=g(x={2} y={69}) y=s(2={73} -3={136})@name:\"s\")",
    ),
    ("$0 + 1", &["group and number"], "g(=g(x={2} y={69}) ={6})"),
    ("$0 + 1", &["group of none"], "g(=g()@name:\"none\" ={2})"),
];

// A composite group stays one where all its new members are fields.
const COMPOSITE: &[Row<'static>] = &[
    (
        "$0 + 1",
        &["parts"],
        "c(a=f(data={6}) =f(data={2}@unit:\"m\")@name:\"one\")@name:\"c\"",
    ),
    (
        "$0 + $1",
        &["parts", "numbers"],
        "c(a=f(data={6}) =f(data={69}@unit:\"m\")@name:\"one\")@name:\"c\"",
    ),
    (
        "$0 + $1",
        &["numbers", "parts"],
        "g(x=f(data={6}) y=f(data={69}@unit:\"m\")@name:\"one\")",
    ),
    (
        "$0 + $1",
        &["parts", "nested"],
        "g(a=g(x=f(data={6}) y=f(data={73})) =s(2=f(data={6}@unit:\"m\")@name:\"one\" -3=f(data={69}@unit:\"m\")@name:\"one\")@name:\"s\")@name:\"c\"",
    ),
    (
        "$0 + $1",
        &["parts", "group and number"],
        "g(a=g(x=f(data={6}) y=f(data={73})) =f(data={6}@unit:\"m\")@name:\"one\")@name:\"c\"",
    ),
    (
        "$0 * 2",
        &["steps of parts"],
        "s(1=c(a=f(data={10}) =f(data={2}@unit:\"m\")@name:\"one\")@name:\"c\" 2=c(a=f(data={10}) =f(data={2}@unit:\"m\")@name:\"one\")@name:\"c\")",
    ),
    ("$0", &["parts without data"], "NoComponent"),
    ("$0 + $1", &["parts", "no fields"], "ItemMismatch"),
];

#[test]
fn members(rt: HostRuntime) -> Result<(), Fail> {
    check(rt.alloc(), MEMBERS)?;
    check(rt.alloc(), EMPTY)
}

#[test]
fn refused_members(rt: HostRuntime) -> Result<(), Fail> {
    check(rt.alloc(), REFUSED)
}

#[test]
fn groups_in_groups(rt: HostRuntime) -> Result<(), Fail> {
    check(rt.alloc(), NESTED)
}

#[test]
fn composite_groups(rt: HostRuntime) -> Result<(), Fail> {
    check(rt.alloc(), COMPOSITE)
}
