//! Objects as lists: each by what it is, and by which of those before it are its parts and attributes.
use dx_arrays::{Array, ArrayError, ElemType, Shape};
use dx_base::Bytes;
use dx_objects::{Object, Part, Parts, Value};
use std::alloc::{AllocError, Global};
use std::rc::Rc;
use std::test::Fail;

/// The items of an array.
#[derive(Clone, Copy)]
pub(crate) enum Items<'a> {
    /// The type, the extents and the values.
    Plain(ElemType, &'a [u32], &'a [i64]),
    /// The extents, and so many items of type short that are all this one.
    Constant(&'a [u32], u64, &'a [i64]),
    /// So many ints, the first, and how far it is from each to the next.
    Line(u64, i64, i64),
    /// The counts of points, the origin, and the deltas one behind the other.
    Points(&'a [u32], &'a [i64], &'a [i64]),
    /// The counts of points.
    Cells(&'a [u32]),
}

/// What an object is, its parts and attributes aside.
#[derive(Clone, Copy)]
pub(crate) enum Body<'a> {
    Array(Items<'a>),
    Text(&'a [u8]),
    Field,
    Group,
    Composite,
    Series,
}

/// A part or an attribute: its name, which an empty one is none, its position, and the place of its object in the list.
pub(crate) type Listed<'a> = (&'a str, i32, usize);

/// An object with its parts and its attributes.
pub(crate) type Entry<'a> = (Body<'a>, &'a [Listed<'a>], &'a [Listed<'a>]);

type Made = Result<Array, ArrayError>;

fn plain(
    alloc: Global,
    elem: ElemType,
    extents: &[u32],
    values: &[i64],
) -> Result<Made, AllocError> {
    let shape = Shape::from_vec(Vec::from_slice(alloc, extents)?);
    Ok(Array::plain(elem, shape, Vec::from_slice(alloc, values)?))
}

fn constant(alloc: Global, extents: &[u32], items: u64, item: &[i64]) -> Result<Made, AllocError> {
    let shape = Shape::from_vec(Vec::from_slice(alloc, extents)?);
    let item = Vec::from_slice(alloc, item)?;
    Ok(Array::constant(ElemType::Short, shape, items, item))
}

fn line(alloc: Global, items: u64, origin: i64, delta: i64) -> Result<Made, AllocError> {
    let origin = Vec::from_slice(alloc, &[origin])?;
    let delta = Vec::from_slice(alloc, &[delta])?;
    Ok(Array::regular(ElemType::Int, Shape::new(alloc), items, origin, delta))
}

fn points(
    alloc: Global,
    counts: &[u32],
    origin: &[i64],
    deltas: &[i64],
) -> Result<Made, AllocError> {
    let counts = Vec::from_slice(alloc, counts)?;
    let origin = Vec::from_slice(alloc, origin)?;
    Ok(Array::grid_positions(counts, origin, Vec::from_slice(alloc, deltas)?))
}

fn made(alloc: Global, items: Items) -> Result<Made, AllocError> {
    match items {
        Items::Plain(elem, extents, values) => plain(alloc, elem, extents, values),
        Items::Constant(extents, items, item) => constant(alloc, extents, items, item),
        Items::Line(items, origin, delta) => line(alloc, items, origin, delta),
        Items::Points(counts, origin, deltas) => points(alloc, counts, origin, deltas),
        Items::Cells(counts) => Ok(Array::grid_connections(Vec::from_slice(alloc, counts)?)),
    }
}

fn array(alloc: Global, items: Items) -> Result<Array, Fail> {
    match made(alloc, items)? {
        Ok(array) => Ok(array),
        Err(_) => Err(Fail::from("no array is described")),
    }
}

fn object(alloc: Global, body: Body, parts: Parts, attributes: Parts) -> Result<Object, Fail> {
    let object = match body {
        Body::Array(items) => Object::array(array(alloc, items)?, attributes),
        Body::Text(text) => Object::text(Bytes::copy_of(alloc, text)?, attributes),
        Body::Field => Object::field(parts, attributes),
        Body::Group => Object::group(parts, attributes),
        Body::Composite => Object::composite(parts, attributes),
        Body::Series => Object::series(parts, attributes),
    };
    match object {
        Ok(object) => Ok(object),
        Err(_) => Err(Fail::from("no object is described")),
    }
}

fn name_of(alloc: Global, name: &str) -> Result<Option<Bytes>, AllocError> {
    if name.is_empty() {
        return Ok(None);
    }
    Ok(Some(Bytes::copy_of(alloc, name.as_bytes())?))
}

fn parts(alloc: Global, listed: &[Listed], before: &[Rc<Object>]) -> Result<Parts, Fail> {
    let mut parts = Parts::new(alloc);
    for (name, position, place) in listed {
        let Some(object) = before.get(*place) else {
            return Err(Fail::from("no such object in the list"));
        };
        parts.push(Part {
            name: name_of(alloc, name)?,
            position: *position,
            object: object.clone()?,
        })?;
    }
    Ok(parts)
}

/// The last object of a list, and NULL of an empty one.
pub(crate) fn last_of(alloc: Global, entries: &[Entry]) -> Result<Value, Fail> {
    let mut made: Vec<Rc<Object>> = Vec::new(alloc);
    for (body, listed, attributes) in entries {
        let of_it = parts(alloc, listed, made.as_slice())?;
        let attributes = parts(alloc, attributes, made.as_slice())?;
        made.push(Rc::new(alloc, object(alloc, *body, of_it, attributes)?)?)?;
    }
    Ok(made.pop())
}

/// An object without parts and attributes.
pub(crate) fn alone(alloc: Global, body: Body) -> Result<Value, Fail> {
    let none = Parts::new(alloc);
    let object = object(alloc, body, none, Parts::new(alloc))?;
    Ok(Some(Rc::new(alloc, object)?))
}

/// A field of one component, ints of this name.
pub(crate) fn field(alloc: Global, name: &str, values: &[i64]) -> Result<Value, Fail> {
    let ints = Body::Array(Items::Plain(ElemType::Int, &[], values));
    let Some(data) = alone(alloc, ints)? else {
        return Err(Fail::from("no array is described"));
    };
    let components = parts(alloc, &[(name, 0, 0)], &[data])?;
    let field = object(alloc, Body::Field, components, Parts::new(alloc))?;
    Ok(Some(Rc::new(alloc, field)?))
}

/// The same value, shared.
pub(crate) fn copied(value: &Value) -> Result<Value, AllocError> {
    match value {
        None => Ok(None),
        Some(object) => Ok(Some(object.clone()?)),
    }
}
