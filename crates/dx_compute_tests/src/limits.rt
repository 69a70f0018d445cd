//! Answers beyond the limits of objects: TooLarge, behind all other codes.
use crate::calls::{answer, code, text};
use crate::stock::{alone, part, regular, value};
use dx_base::{Bytes, push_count};
use dx_objects::{Array, ElemType, Object, Outs, Part, Parts, Shape, Value};
use std::alloc::{AllocError, Global};
use std::rc::Rc;
use std::test::Fail;

fn group(alloc: Global, members: &[&Rc<Object>]) -> Result<Rc<Object>, Fail> {
    let mut parts = Parts::new(alloc);
    for member in members {
        parts.push(part(alloc, "", 0, (*member).clone()?)?)?;
    }
    Ok(Rc::new(alloc, Object::group(parts, Parts::new(alloc))?)?)
}

// The object of a name.
fn named(alloc: Global, name: &str) -> Result<Rc<Object>, Fail> {
    match value(alloc, name)? {
        Some(object) => Ok(object),
        None => Err(Fail::from("it is NULL")),
    }
}

// A number so many groups deep.
fn deep(alloc: Global, groups: u32) -> Result<Value, Fail> {
    let mut object = named(alloc, "1")?;
    for _ in 0..groups {
        object = group(alloc, &[&object])?;
    }
    Ok(Some(object))
}

// An object has at most 64 levels. Those of an array are one, and those of a field without attributes two.
const LEVELS: [(&str, u32, &str, &str); 5] = [
    ("$0 + $1", 63, "1", "g(=g(=g(=g)))"),
    ("$0 + $1", 62, "five", "g(=g(=g(=g)))"),
    ("$0 + $1", 63, "five", "TooLarge"),
    ("1 / 0 + $0 + $1", 63, "five", "DivisionByZero"),
    ("$0 + $1", 63, "no data", "NoComponent"),
];

fn inputs(alloc: Global, expression: Value, object: Value) -> Result<Outs, AllocError> {
    let mut given = Outs::new(alloc);
    given.push(expression)?;
    given.push(object)?;
    Ok(given)
}

fn deep_answer(alloc: Global, expression: &str, groups: u32, other: &str) -> Result<Vec<u8>, Fail> {
    let expression = text(alloc, expression)?;
    let mut given = inputs(alloc, expression, deep(alloc, groups)?)?;
    given.push(value(alloc, other)?)?;
    answer(alloc, &given)
}

#[test]
fn one_level_more(rt: HostRuntime) -> Result<(), Fail> {
    for (expression, groups, other, wanted) in &LEVELS {
        let found = deep_answer(rt.alloc(), expression, *groups, other)?;
        assert!(rt; found.as_slice() == wanted.as_bytes());
    }
    Ok(())
}

// The numbers from 0 on, so many.
fn numbers(alloc: Global, items: u64) -> Result<Rc<Object>, Fail> {
    alone(alloc, regular(alloc, ElemType::Int, items, 0, 1)?)
}

// A text of 1,048,448 bytes.
fn large_text(alloc: Global) -> Result<Rc<Object>, Fail> {
    let bytes = Bytes::copy_of(alloc, &vec![in alloc; b'x'; 1_048_448]?)?;
    Ok(Rc::new(alloc, Object::text(bytes, Parts::new(alloc))?)?)
}

fn numbered(alloc: Global, number: u64, object: Rc<Object>) -> Result<Part, AllocError> {
    let mut name = Vec::new(alloc);
    push_count(&mut name, number)?;
    Ok(Part {
        name: Some(Bytes::copy_of(alloc, &name)?),
        position: 0,
        object,
    })
}

// 256 attributes whose names have three bytes, each the same large text.
fn large_attributes(alloc: Global) -> Result<Parts, Fail> {
    let shared = large_text(alloc)?;
    let mut parts = Parts::new(alloc);
    for name in 100..356 {
        parts.push(numbered(alloc, name, shared.clone()?)?)?;
    }
    Ok(parts)
}

fn of_data(alloc: Global, data: Rc<Object>) -> Result<Parts, Fail> {
    let mut parts = Parts::new(alloc);
    parts.push(part(alloc, "data", 0, data)?)?;
    Ok(parts)
}

// A field whose stated size is 268,419,972 bytes and that of the numbers in its data, which is 15,484 bytes, or 3,871 ints,
// below the limit.
fn large_field(alloc: Global, items: u64) -> Result<Rc<Object>, Fail> {
    let parts = of_data(alloc, numbers(alloc, items)?)?;
    let object = Object::field(parts, large_attributes(alloc)?)?;
    Ok(Rc::new(alloc, object)?)
}

fn expression_of(alloc: Global, parts: u32, last: &str) -> Result<String, AllocError> {
    let mut expression = String::new(alloc);
    expression.push_str("[")?;
    for _ in 1..parts {
        expression.push_str("$0, ")?;
    }
    expression.push_str(last)?;
    expression.push_str("]")?;
    Ok(expression)
}

// `[$0, $0, ..]` of so many parts, the last of which may be another.
fn vector(alloc: Global, parts: u32, last: &str) -> Result<Value, Fail> {
    let expression = expression_of(alloc, parts, last)?;
    text(alloc, &expression)
}

// What Compute answers of such a vector over an object.
fn vector_code(
    alloc: Global,
    parts: u32,
    last: &str,
    object: &Rc<Object>,
) -> Result<&'static str, Fail> {
    let expression = vector(alloc, parts, last)?;
    let given = inputs(alloc, expression, Some(object.clone()?))?;
    code(alloc, &given)
}

// 49 items of 79 ints fit exactly.
const PARTS: &[(u32, &str, &str)] = &[
    (79, "$0", "an object"),
    (80, "$0", "TooLarge"),
    (80, "1 / ($0 - 48)", "DivisionByZero"),
    (80, "2147483600 + $0", "Overflow"),
    (80, "[$0, $0]", "ItemMismatch"),
];

#[test]
fn one_part_more(rt: HostRuntime) -> Result<(), Fail> {
    let field = large_field(rt.alloc(), 49)?;
    for (parts, last, wanted) in PARTS {
        assert!(rt; vector_code(rt.alloc(), *parts, last, &field)? == *wanted);
    }
    Ok(())
}

// A field needs as many items as before, before it is too large.
#[test]
fn other_items_before_too_large(rt: HostRuntime) -> Result<(), Fail> {
    let alloc = rt.alloc();
    let expression = vector(alloc, 80, "$1")?;
    let mut given = inputs(alloc, expression, Some(large_field(alloc, 1)?))?;
    given.push(Some(numbers(alloc, 49)?))?;
    assert!(rt; code(alloc, &given)? == "ItemMismatch");
    Ok(())
}

// Of members the first that is refused decides, by TooLarge like by another code.
#[test]
fn a_member_that_is_too_large(rt: HostRuntime) -> Result<(), Fail> {
    let alloc = rt.alloc();
    let (field, other) = (large_field(alloc, 49)?, named(alloc, "text")?);
    let field_first = group(alloc, &[&field, &other])?;
    assert!(rt; vector_code(alloc, 80, "$0", &field_first)? == "TooLarge");
    let text_first = group(alloc, &[&other, &field])?;
    assert!(rt; vector_code(alloc, 80, "$0", &text_first)? == "BadArgument");
    Ok(())
}

/// So many items of 65,536 sevens.
pub(crate) fn sevens(alloc: Global, items: u64) -> Result<Rc<Object>, Fail> {
    let shape = Shape::from_vec(Vec::from_slice(alloc, &[256, 256])?);
    let item = vec![in alloc; 7; 65_536]?;
    alone(alloc, Array::constant(ElemType::Int, shape, items, item)?)
}

// 1,024 items are 16 ints more than an object holds. The first of them has a fault.
#[test]
fn a_fault_before_too_many_values(rt: HostRuntime) -> Result<(), Fail> {
    let object = sevens(rt.alloc(), 1024)?;
    let given = inputs(rt.alloc(), text(rt.alloc(), "$0 / 0")?, Some(object))?;
    assert!(rt; code(rt.alloc(), &given)? == "DivisionByZero");
    Ok(())
}

// As many items as there can be of a number, beside one item of sevens: they are too many to be looked at one by one.
const NUMBERS: [(&str, i64, &str); 6] = [
    ("$0 + $1", 1, "TooLarge"),
    ("$1 - $0", -2_147_483_640, "TooLarge"),
    ("$1 - $0", -2_147_483_641, "Overflow"),
    ("-$1 * $0 / -2 % 5", 306_783_378, "TooLarge"),
    ("$1 * $0", 306_783_379, "Overflow"),
    ("$1 / ($0 - 5)", 5, "DivisionByZero"),
];

#[test]
fn as_many_items_as_there_can_be(rt: HostRuntime) -> Result<(), Fail> {
    let alloc = rt.alloc();
    for (expression, number, wanted) in &NUMBERS {
        let item = vec![in alloc; *number; 1]?;
        let numbers = Array::constant(ElemType::Int, Shape::new(alloc), 16_777_216, item)?;
        let expression = text(alloc, expression)?;
        let mut given = inputs(alloc, expression, Some(alone(alloc, numbers)?))?;
        given.push(Some(sevens(alloc, 1)?))?;
        assert!(rt; code(alloc, &given)? == *wanted);
    }
    Ok(())
}
