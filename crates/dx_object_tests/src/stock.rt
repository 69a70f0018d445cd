//! Simple objects, each named by a letter, and lists of parts of them.
use dx_base::Bytes;
use dx_objects::{Array, ElemType, Object, ObjectError, Part, Parts, Shape};
use std::alloc::{AllocError, Global};
use std::rc::Rc;
use std::test::Fail;

/// An array of these ints.
pub(crate) fn ints(alloc: Global, values: &[i64]) -> Result<Array, Fail> {
    let values = Vec::from_slice(alloc, values)?;
    Ok(Array::plain(ElemType::Int, Shape::new(alloc), values)?)
}

/// Twelve ints.
pub(crate) fn twelve(alloc: Global) -> Result<Array, Fail> {
    ints(alloc, &[1, 2, 3, 4, 5, 6, 7, 8, 9, 10, 11, 12])
}

fn shared(alloc: Global, array: Array) -> Result<Rc<Object>, Fail> {
    Ok(Rc::new(alloc, Object::array(array, Parts::new(alloc))?)?)
}

fn text(alloc: Global, bytes: &[u8]) -> Result<Rc<Object>, Fail> {
    let object = Object::text(Bytes::copy_of(alloc, bytes)?, Parts::new(alloc))?;
    Ok(Rc::new(alloc, object)?)
}

/// A field, a composite group or a series for its letter, and else a group.
pub(crate) fn made_of(id: u8, parts: Parts, attributes: Parts) -> Result<Object, ObjectError> {
    match id {
        b'f' => Object::field(parts, attributes),
        b'c' => Object::composite(parts, attributes),
        b's' => Object::series(parts, attributes),
        _ => Object::group(parts, attributes),
    }
}

fn empty(alloc: Global, id: u8) -> Result<Rc<Object>, Fail> {
    let object = made_of(id, Parts::new(alloc), Parts::new(alloc))?;
    Ok(Rc::new(alloc, object)?)
}

// A group of the same object so many times.
fn group_of(alloc: Global, times: usize, object: &Rc<Object>) -> Result<Rc<Object>, Fail> {
    let mut members = Parts::new(alloc);
    for _ in 0..times {
        members.push(Part {
            name: None,
            position: 0,
            object: object.clone()?,
        })?;
    }
    Ok(Rc::new(alloc, Object::group(members, Parts::new(alloc))?)?)
}

// So many groups around an object, each with so many times what is within.
fn nested(
    alloc: Global,
    depth: usize,
    times: usize,
    object: Rc<Object>,
) -> Result<Rc<Object>, Fail> {
    let mut outer = object;
    for _ in 0..depth {
        outer = group_of(alloc, times, &outer)?;
    }
    Ok(outer)
}

// One attribute.
fn attribute(alloc: Global, object: Rc<Object>) -> Result<Parts, Fail> {
    let mut attributes = Parts::new(alloc);
    attributes.push(part(alloc, b"x", 0, object)?)?;
    Ok(attributes)
}

// A field of 64 levels, which are those of its attribute.
fn deep_field(alloc: Global) -> Result<Rc<Object>, Fail> {
    let within = nested(alloc, 62, 1, text(alloc, b"")?)?;
    let field = Object::field(Parts::new(alloc), attribute(alloc, within)?)?;
    Ok(Rc::new(alloc, field)?)
}

fn leaf_of(alloc: Global, id: u8) -> Result<Rc<Object>, Fail> {
    if id == b'b' {
        text(alloc, &vec![in alloc; 0; 301_888]?)
    } else {
        text(alloc, b"")
    }
}

// Groups around a text: `l` and `d` have 63 and 64 levels, `m` is 1,048,576 objects, `w` as many in two levels, and `b`
// states 268,435,392 bytes.
fn groups(alloc: Global, id: u8) -> Result<Rc<Object>, Fail> {
    let leaf = leaf_of(alloc, id)?;
    match id {
        b'l' => nested(alloc, 62, 1, leaf),
        b'd' => nested(alloc, 63, 1, leaf),
        b'm' => nested(alloc, 1, 1, nested(alloc, 19, 2, leaf)?),
        b'w' => nested(alloc, 1, 1_048_575, leaf),
        _ => nested(alloc, 1, 889, leaf),
    }
}

/// The object of a letter: `a` is twelve ints, `n` one, `t` a text of one byte, `h` of five, `e` a field of 64 levels; `f`,
/// `g`, `c` and `s` have no parts.
pub(crate) fn object(alloc: Global, id: u8) -> Result<Rc<Object>, Fail> {
    match id {
        b'a' => shared(alloc, twelve(alloc)?),
        b'n' => shared(alloc, ints(alloc, &[5])?),
        b't' => text(alloc, b"t"),
        b'h' => text(alloc, b"hello"),
        b'e' => deep_field(alloc),
        b'l' | b'd' | b'm' | b'w' | b'b' => groups(alloc, id),
        _ => empty(alloc, id),
    }
}

fn name_of(alloc: Global, name: &[u8]) -> Result<Option<Bytes>, AllocError> {
    if name.is_empty() {
        return Ok(None);
    }
    Ok(Some(Bytes::copy_of(alloc, name)?))
}

/// A part, which has no name where the bytes are empty.
pub(crate) fn part(
    alloc: Global,
    name: &[u8],
    position: i32,
    object: Rc<Object>,
) -> Result<Part, Fail> {
    Ok(Part {
        name: name_of(alloc, name)?,
        position,
        object,
    })
}

/// Names of parts, each with the letter of its object.
pub(crate) type Words<'a> = &'a [(&'a [u8], u8)];

/// The parts of these words, at the positions -1, 0, 1 and so on.
pub(crate) fn parts(alloc: Global, words: Words<'_>) -> Result<Parts, Fail> {
    let mut parts = Parts::new(alloc);
    let mut position: i32 = -1;
    for (name, id) in words {
        parts.push(part(alloc, name, position, object(alloc, *id)?)?)?;
        position = position.saturating_add(1);
    }
    Ok(parts)
}
