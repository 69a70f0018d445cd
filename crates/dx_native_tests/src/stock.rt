//! Simple objects, each named by a letter, and lists of parts of them.
use dx_arrays::{Array, ElemType};
use dx_base::{Bytes, Items};
use dx_objects::{Object, Part, Parts};
use std::alloc::{AllocError, Global};
use std::rc::Rc;
use std::test::Fail;

fn plain(alloc: Global, elem: ElemType, extents: &[u32], values: &[i64]) -> Result<Array, Fail> {
    let shape = Items::from_vec(Vec::from_slice(alloc, extents)?);
    let values = Vec::from_slice(alloc, values)?;
    Ok(Array::plain(elem, shape, values)?)
}

fn constant(alloc: Global) -> Result<Array, Fail> {
    let shape = Items::from_vec(Vec::from_slice(alloc, &[2])?);
    let item = Vec::from_slice(alloc, &[7, -8])?;
    Ok(Array::constant(ElemType::Short, shape, 5, item)?)
}

fn regular(alloc: Global) -> Result<Array, Fail> {
    let origin = Vec::from_slice(alloc, &[-1])?;
    let delta = Vec::from_slice(alloc, &[2])?;
    let shape = Items::from_vec(Vec::new(alloc));
    Ok(Array::regular(ElemType::UInt, shape, 0, origin, delta)?)
}

fn positions(alloc: Global) -> Result<Array, Fail> {
    let counts = Vec::from_slice(alloc, &[4, 3])?;
    let origin = Vec::from_slice(alloc, &[0, 0])?;
    let deltas = Vec::from_slice(alloc, &[1, 0, 0, 1])?;
    Ok(Array::grid_positions(counts, origin, deltas)?)
}

fn cells(alloc: Global) -> Result<Array, Fail> {
    Ok(Array::grid_connections(Vec::from_slice(alloc, &[4, 3])?)?)
}

// `p` and `c` are the points and the cells of a grid of four by three, `d` is data, `k` a constant, `r` a line, `m`
// matrices, `n` and `s` one number.
fn array_of(alloc: Global, id: u8) -> Result<Array, Fail> {
    match id {
        b'p' => positions(alloc),
        b'c' => cells(alloc),
        b'd' => plain(alloc, ElemType::Int, &[], &[1, -2, 3]),
        b'k' => constant(alloc),
        b'r' => regular(alloc),
        b'm' => plain(alloc, ElemType::Byte, &[1, 2], &[1, 2, 3, 4]),
        b'n' => plain(alloc, ElemType::Int, &[], &[-5]),
        _ => plain(alloc, ElemType::Short, &[], &[6]),
    }
}

// The names and the texts of an array's attributes.
fn attributes_of(id: u8) -> &'static [(&'static [u8], &'static [u8])] {
    match id {
        b'c' => &[(b"element type", b"quads"), (b"ref", b"positions")],
        b'd' => &[(b"dep", b"positions")],
        _ => &[],
    }
}

fn text(alloc: Global, bytes: &[u8]) -> Result<Rc<Object>, Fail> {
    let text = Object::text(Bytes::copy_of(alloc, bytes)?, Parts::new(alloc))?;
    Ok(Rc::new(alloc, text)?)
}

fn name_of(alloc: Global, name: &[u8]) -> Result<Option<Bytes>, AllocError> {
    if name.is_empty() {
        return Ok(None);
    }
    Ok(Some(Bytes::copy_of(alloc, name)?))
}

// A part, which has no name where the bytes are empty.
fn part(alloc: Global, name: &[u8], position: i32, object: Rc<Object>) -> Result<Part, Fail> {
    Ok(Part {
        name: name_of(alloc, name)?,
        position,
        object,
    })
}

fn texts(alloc: Global, rows: &[(&[u8], &[u8])]) -> Result<Parts, Fail> {
    let mut parts = Parts::new(alloc);
    for (name, bytes) in rows {
        parts.push(part(alloc, name, 0, text(alloc, bytes)?)?)?;
    }
    Ok(parts)
}

fn array(alloc: Global, id: u8) -> Result<Rc<Object>, Fail> {
    let attributes = texts(alloc, attributes_of(id))?;
    let object = Object::array(array_of(alloc, id)?, attributes)?;
    Ok(Rc::new(alloc, object)?)
}

fn field(alloc: Global) -> Result<Rc<Object>, Fail> {
    let field = Object::field(Parts::new(alloc), Parts::new(alloc))?;
    Ok(Rc::new(alloc, field)?)
}

// The object of a letter: `t` is a text, `f` a field without components, `=` the object of the part before.
fn object(alloc: Global, id: u8, before: &[Part]) -> Result<Rc<Object>, Fail> {
    match (id, before) {
        (b'=', [.., part]) => Ok(part.object.clone()?),
        (b't', _) => text(alloc, b"a\\\n\xff"),
        (b'f', _) => field(alloc),
        _ => array(alloc, id),
    }
}

/// Names and positions of parts, each with the letter of its object.
pub(crate) type Words<'a> = &'a [(&'a [u8], i32, u8)];

/// The parts of these words.
pub(crate) fn parts(alloc: Global, words: Words<'_>) -> Result<Parts, Fail> {
    let mut parts = Parts::new(alloc);
    for (name, position, id) in words {
        let object = object(alloc, *id, parts.as_slice())?;
        parts.push(part(alloc, name, *position, object)?)?;
    }
    Ok(parts)
}
