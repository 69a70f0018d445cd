//! Answers beyond the limits over many items: these go by runs, of which those are left out in which no item can have a fault.
use crate::calls::{code, text};
use crate::limits::sevens;
use crate::stock::{alone, narrow, regular};
use dx_objects::{Array, ElemType, Object, Outs, Shape};
use std::alloc::Global;
use std::rc::Rc;
use std::test::Fail;

// As many items as there can be, the numbers from 0 on, and one item of five values.
const COUNTED: [(&str, [i64; 5], &str); 17] = [
    ("$0 * $1", [1, -128, 3, 4, 128], "TooLarge"),
    ("$0 * $1", [1, -128, 3, 4, 129], "Overflow"),
    ("$0 * $1", [1, -129, 3, 4, 128], "Overflow"),
    ("$0 / $1", [2, -3, 1, 4, -1], "TooLarge"),
    ("$0 / $1", [2, -3, 0, 4, -1], "DivisionByZero"),
    ("$0 % $1", [2, -3, 1, 4, -1], "TooLarge"),
    ("$0 % $1", [2, -3, 0, 4, -1], "DivisionByZero"),
    ("$1 / ($0 + 1)", [2, -3, 0, 4, -1], "TooLarge"),
    ("$1 / ($0 - 70000)", [2, -3, 0, 4, -1], "DivisionByZero"),
    ("$1 % ($0 - 16777215)", [2, -3, 0, 4, -1], "DivisionByZero"),
    ("2130706432 + $0 - $1", [0, 0, 0, 0, 0], "TooLarge"),
    ("2130706433 + $0 - $1", [0, 0, 0, 0, 0], "Overflow"),
    ("2130706432 + $0 - $1", [0, 0, 0, 0, -1], "Overflow"),
    ("dot([$0, 1], [63, 5]) + $1", [2, -3, 0, 4, -1], "TooLarge"),
    (
        "dot([$0, $0], [64, 65]) + $1",
        [2, -3, 0, 4, -1],
        "Overflow",
    ),
    (
        "min(abs(-$0), sign($0)) - max($1, $0)",
        [2, -3, 0, 4, -1],
        "TooLarge",
    ),
    (
        "$0 > 5 && !$0 ? $1 : [$1.0, $1.1, $0, 7, 8]",
        [2, -3, 0, 4, -1],
        "TooLarge",
    ),
];

// An expression over such items.
fn call(alloc: Global, expression: &str, numbers: Array, other: Rc<Object>) -> Result<Outs, Fail> {
    let mut given = Outs::new(alloc);
    given.push(text(alloc, expression)?)?;
    given.push(Some(alone(alloc, numbers)?))?;
    given.push(Some(other))?;
    Ok(given)
}

fn five(alloc: Global, values: &[i64; 5]) -> Result<Rc<Object>, Fail> {
    let shape = Shape::from_vec(Vec::from_slice(alloc, &[5])?);
    let item = Vec::from_slice(alloc, values)?;
    alone(alloc, Array::constant(ElemType::Int, shape, 1, item)?)
}

#[test]
fn faults_of_counted_items(rt: HostRuntime) -> Result<(), Fail> {
    let alloc = rt.alloc();
    for (expression, values, wanted) in &COUNTED {
        let numbers = regular(alloc, ElemType::Int, 16_777_216, 0, 1)?;
        let given = call(alloc, expression, numbers, five(alloc, values)?)?;
        assert!(rt; code(alloc, &given)? == *wanted);
    }
    Ok(())
}

// Two thousand numbers that are each one more, and at last another, beside one item of 65,536 sevens.
const STORED: [(&str, i32, &str); 5] = [
    ("$0 * $1", 306_783_378, "TooLarge"),
    ("$0 * $1", 306_783_379, "Overflow"),
    ("$1 / $0", 1, "TooLarge"),
    ("$1 / $0", 0, "DivisionByZero"),
    ("$1 / ($0 - 1900)", 0, "DivisionByZero"),
];

fn stored(alloc: Global, last: i32) -> Result<Array, Fail> {
    let mut values = Vec::new(alloc);
    for item in 1..2000u32 {
        values.push(item as i32)?;
    }
    values.push(last)?;
    narrow(alloc, &[], values)
}

#[test]
fn faults_of_stored_items(rt: HostRuntime) -> Result<(), Fail> {
    let alloc = rt.alloc();
    for (expression, last, wanted) in &STORED {
        let given = call(alloc, expression, stored(alloc, *last)?, sevens(alloc, 1)?)?;
        assert!(rt; code(alloc, &given)? == *wanted);
    }
    Ok(())
}
