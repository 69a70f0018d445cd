//! Values, faults and shapes of expressions, and the inputs that they use.
use dx_expr::{
    EvalFail, Inputs, ItemFault, Shape, is_single, parse_expr, shape_of, single_value, uses_input,
    values_of,
};
use std::alloc::Global;
use std::test::Fail;

/// Whether an input occurs in a text; none where it is no expression.
fn occurs(alloc: Global, text: &[u8], k: u8) -> Option<bool> {
    match parse_expr(alloc, text) {
        Ok(e) => Some(uses_input(&e, k)),
        Err(_) => None,
    }
}

/// Texts, an input, and whether it occurs.
const OCCURRENCES: [(&[u8], u8, bool); 10] = [
    (b"0", 0, false),
    (b"$0", 0, true),
    (b"$007", 7, true),
    (b"$1", 0, false),
    (b"-($0 + $1)", 1, true),
    (b"0 && $3", 3, true),
    (b"1 ? 2 : $20", 20, true),
    (b"$5 ? 1 : 2", 5, true),
    (b"[1, $4].0", 4, true),
    (b"max([1, $4], $2)", 3, false),
];

#[test]
fn inputs_that_occur(rt: HostRuntime) -> Result<(), Fail> {
    for (text, k, does) in &OCCURRENCES {
        assert!(rt; occurs(rt.alloc(), text, *k) == Some(*does));
    }
    Ok(())
}

/// Input 0 is a vector of two numbers, of which one is outside the int range; each other input is the number 7.
struct Two;

const LARGE: [u32; 1] = [2];

impl Inputs for Two {
    ghost use Rattle.dx_expr.specs.Examples.{two};

    ghost given = { λ _. two };

    ghost items = { λ _. 1 };

    fn extents(&self, k: u8) -> &[u32] {
        if k == 0 { &LARGE } else { &[] }
    }

    fn size(&self, k: u8) -> u64 {
        if k == 0 { 2 } else { 1 }
    }

    fn value(&self, k: u8, _item: u64, place: u64) -> i64 {
        if k != 0 {
            7
        } else if place == 0 {
            3_000_000_000
        } else {
            5
        }
    }
}

/// The first value of a text over these inputs; none where it is no expression or its shapes don't fit.
fn first_value(alloc: Global, text: &[u8]) -> Option<Result<i32, ItemFault>> {
    let Ok(e) = parse_expr(alloc, text) else {
        return None;
    };
    if shape_of(&e, &Two).is_none() {
        return None;
    }
    match values_of(alloc, &e, &Two, 0) {
        Ok(vs) => match vs.as_slice().first() {
            Some(v) => Some(Ok(*v)),
            None => None,
        },
        Err(EvalFail::Fault(fault)) => Some(Err(fault)),
        Err(EvalFail::Memory) => None,
    }
}

/// Texts and their values, which tell how operators bind and what they make of their operands.
const VALUES: [(&[u8], i32); 30] = [
    (b"10 - 4 - 3", 3),
    (b"100 / 5 / 2", 10),
    (b"2 + 3 * 4", 14),
    (b"(2 + 3) * 4", 20),
    (b"2 * 3 % 4", 2),
    (b"1 + 2 < 4", 1),
    (b"1 < 2 == 2 < 3", 1),
    (b"3 == 3 && 0", 0),
    (b"0 && 0 || 1", 1),
    (b"1 || 0 && 0", 1),
    (b"1 ? 2 : 0 ? 3 : 4", 2),
    (b"0 ? 1 ? 2 : 3 : 4", 4),
    (b"-2 * 3", -6),
    (b"- - 2", 2),
    (b"!0 + 1", 2),
    (b"-7 / 2", -3),
    (b"-7 % 2", -1),
    (b"7 % -2", 1),
    (b"(-2147483647 - 1) % -1", 0),
    (b"abs(-3) + sign(-9)", 2),
    (b"min(2, 3) * max(2, 3)", 6),
    (b"dot([1, 2], [3, 4])", 11),
    (b"[1, 2].1", 2),
    (b"([1, 2] * $1).1", 14),
    (b"(5 - [1, 2]).0", 4),
    (b"$007", 7),
    (b"0 && 1 / 0", 0),
    (b"1 || 1 / 0", 1),
    (b"1 ? 2 : 1 / 0", 2),
    (b"2147483647 > -2147483647", 1),
];

#[test]
fn operators_bind_and_give_values(rt: HostRuntime) -> Result<(), Fail> {
    for (text, value) in &VALUES {
        assert!(rt; first_value(rt.alloc(), text) == Some(Ok(*value)));
    }
    Ok(())
}

/// Texts of which an item has no value, each with its first fault.
const FAULTS: [(&[u8], ItemFault); 10] = [
    (b"1 / 0", ItemFault::DivisionByZero),
    (b"1 % 0", ItemFault::DivisionByZero),
    (b"2147483647 + 1", ItemFault::Overflow),
    (b"(-2147483647 - 1) / -1", ItemFault::Overflow),
    (b"abs(-2147483647 - 1)", ItemFault::Overflow),
    (b"[2147483647, 1] + [1, 1/0]", ItemFault::DivisionByZero),
    (b"[1/0, 1].1", ItemFault::DivisionByZero),
    (b"$0.1", ItemFault::Overflow),
    (b"1 && 1 / 0", ItemFault::DivisionByZero),
    (b"dot([65536, 1], [65536, 0])", ItemFault::Overflow),
];

#[test]
fn items_without_a_value(rt: HostRuntime) -> Result<(), Fail> {
    for (text, fault) in &FAULTS {
        assert!(rt; first_value(rt.alloc(), text) == Some(Err(*fault)));
    }
    Ok(())
}

/// Texts whose shapes don't fit.
const MISFITS: [&[u8]; 9] = [
    b"[1, 2] + [1, 2, 3]",
    b"[1, 2] == [1, 2]",
    b"![1]",
    b"[1, 2] ? 1 : 2",
    b"1 ? [1] : 2",
    b"[1].1",
    b"1 .0",
    b"dot([1], 1)",
    b"[[1]]",
];

#[test]
fn shapes_that_do_not_fit(rt: HostRuntime) -> Result<(), Fail> {
    for text in &MISFITS {
        let e = parse_expr(rt.alloc(), text)
            .ok()
            .ok_or("it is an expression")?;
        assert!(rt; shape_of(&e, &Two).is_none());
    }
    let e = parse_expr(rt.alloc(), b"[1, 2] + 3")
        .ok()
        .ok_or("it is an expression")?;
    assert!(rt; matches!(shape_of(&e, &Two), Some(Shape::Vector(2))));
    Ok(())
}

#[test]
fn a_single_value(rt: HostRuntime) -> Result<(), Fail> {
    let e = parse_expr(rt.alloc(), b"$1 * 6")
        .ok()
        .ok_or("it is an expression")?;
    let mut found = None;
    if let Some(a) = shape_of(&e, &Two) {
        if is_single(a) {
            found = single_value(rt.alloc(), &e, &Two, 0).ok();
        }
    }
    assert!(rt; found == Some(42));
    Ok(())
}
