//! Some thousands of items.
use crate::calls::{answer, text};
use crate::stock::{alone, narrow, regular};
use dx_base::push_number;
use dx_objects::{Array, ElemType, Outs, Shape};
use std::alloc::{AllocError, Global};
use std::test::Fail;

const ITEMS: u32 = 3000;

fn counted(alloc: Global) -> Result<Vec<i64>, AllocError> {
    let mut values = Vec::new(alloc);
    for item in 0..ITEMS {
        values.push(i64::from(item))?;
    }
    Ok(values)
}

fn plain(alloc: Global) -> Result<Array, Fail> {
    Ok(Array::plain(ElemType::Int, Shape::new(alloc), counted(alloc)?)?)
}

// The same numbers, in 4 bytes each.
fn narrow_numbers(alloc: Global) -> Result<Array, Fail> {
    let mut values = Vec::new(alloc);
    for item in 0..ITEMS {
        values.push(item as i32)?;
    }
    narrow(alloc, &[], values)
}

// Of each number the vector of it and of what is left of 5000, in 4 bytes each.
fn narrow_vectors(alloc: Global) -> Result<Array, Fail> {
    let mut values = Vec::new(alloc);
    for item in 0..ITEMS {
        values.push(item as i32)?;
        values.push(5000 - item as i32)?;
    }
    narrow(alloc, &[2], values)
}

// These numbers, the numbers from 0 on as a regular array, and the vectors.
fn given(alloc: Global, expression: &str, numbers: Array) -> Result<Outs, Fail> {
    let mut given = Outs::new(alloc);
    given.push(text(alloc, expression)?)?;
    given.push(Some(alone(alloc, numbers)?))?;
    let numbers = regular(alloc, ElemType::UInt, u64::from(ITEMS), 0, 1)?;
    given.push(Some(alone(alloc, numbers)?))?;
    given.push(Some(alone(alloc, narrow_vectors(alloc)?)?))?;
    Ok(given)
}

const VALUES: [&str; 10] = [
    "($0 * 31 + $1) % 1000",
    "$1 % 3 ? $0 : -$0",
    "$0 > 1022 && $1 < 2049",
    "$0 < 1024 || $1 % 2",
    "dot([$0, 2], [3, $1])",
    "[$0, $1 * 2].1",
    "$2.1 * 2",
    "$0 - $2.1",
    "$1 % 3 ? $2.1 : $0",
    "$0 % 2 && $2.1 > 3000",
];

// The value of an item of the expression of this number.
fn wanted(row: usize, item: u32) -> i64 {
    let i = i64::from(item);
    match row {
        0 => i * 32 % 1000,
        1 => { if i % 3 != 0 { i } else { -i } }
        2 => i64::from(i > 1022 && i < 2049),
        3 => i64::from(i < 1024 || i % 2 != 0),
        4 => 5 * i,
        5 => 2 * i,
        6 => 10_000 - 2 * i,
        7 => 2 * i - 5000,
        8 => { if i % 3 != 0 { 5000 - i } else { i } }
        _ => i64::from(i % 2 != 0 && i < 2000),
    }
}

fn list(alloc: Global, row: usize) -> Result<Vec<u8>, AllocError> {
    let mut text = Vec::from_slice(alloc, b"{")?;
    for item in 0..ITEMS {
        if item > 0 {
            text.push(b' ')?;
        }
        push_number(&mut text, wanted(row, item))?;
    }
    text.push(b'}')?;
    Ok(text)
}

#[test]
fn values(rt: HostRuntime) -> Result<(), Fail> {
    let alloc = rt.alloc();
    for row in 0..VALUES.len() {
        let found = answer(alloc, &given(alloc, VALUES[row], plain(alloc)?)?)?;
        assert!(rt; found.as_slice() == list(alloc, row)?.as_slice());
    }
    Ok(())
}

#[test]
fn values_of_narrow_numbers(rt: HostRuntime) -> Result<(), Fail> {
    let alloc = rt.alloc();
    for row in 0..VALUES.len() {
        let found = answer(alloc, &given(alloc, VALUES[row], narrow_numbers(alloc)?)?)?;
        assert!(rt; found.as_slice() == list(alloc, row)?.as_slice());
    }
    Ok(())
}

// The first fault of the first item that has one, among the first items and far behind them. `2147482147 + $0` leaves the
// range of ints at item 1501.
const FAULTS: [(&str, &str); 10] = [
    ("1 / ($0 - 2500)", "DivisionByZero"),
    ("1 / ($0 - 1024) + 1 / ($1 - 1023)", "DivisionByZero"),
    ("6 / ($1 - 1400) + (2147482147 + $0)", "DivisionByZero"),
    ("6 / ($1 - 1600) + (2147482147 + $0)", "Overflow"),
    ("2147482147 + $0 + 6 / ($1 - 1501)", "Overflow"),
    ("6 / ($1 - 1501) + (2147482147 + $0)", "DivisionByZero"),
    ("$0 < 2999 || 1 / ($1 - 2999)", "DivisionByZero"),
    ("[6 / ($1 - 1502), 2147482147 + $0]", "Overflow"),
    ("$0 < 2999 || 1 / ($2.1 - 2001)", "DivisionByZero"),
    ("6 / ($2.1 - 3498) + (2147482147 + $0)", "Overflow"),
];

#[test]
fn first_faults(rt: HostRuntime) -> Result<(), Fail> {
    let alloc = rt.alloc();
    for (expression, wanted) in FAULTS {
        let found = answer(alloc, &given(alloc, expression, plain(alloc)?)?)?;
        assert!(rt; found.as_slice() == wanted.as_bytes());
    }
    Ok(())
}

#[test]
fn first_faults_of_narrow_numbers(rt: HostRuntime) -> Result<(), Fail> {
    let alloc = rt.alloc();
    for (expression, wanted) in FAULTS {
        let found = answer(alloc, &given(alloc, expression, narrow_numbers(alloc)?)?)?;
        assert!(rt; found.as_slice() == wanted.as_bytes());
    }
    Ok(())
}
