//! Objects with parts or attributes, each named by a capital letter.
use crate::stock::{Words, made_of, object, part, parts, twelve};
use dx_objects::{Array, Object, Parts};
use std::alloc::Global;
use std::rc::Rc;
use std::test::Fail;

fn points(alloc: Global) -> Result<Array, Fail> {
    let counts = Vec::from_slice(alloc, &[4, 3])?;
    let origin = Vec::from_slice(alloc, &[0, 0])?;
    let deltas = Vec::from_slice(alloc, &[1, 0, 0, 1])?;
    Ok(Array::grid_positions(counts, origin, deltas)?)
}

fn cells(alloc: Global) -> Result<Array, Fail> {
    Ok(Array::grid_connections(Vec::from_slice(alloc, &[4, 3])?)?)
}

// An array with attributes.
fn array(alloc: Global, array: Array, attributes: Words<'_>) -> Result<Rc<Object>, Fail> {
    let object = Object::array(array, parts(alloc, attributes)?)?;
    Ok(Rc::new(alloc, object)?)
}

// `P`, `Q` and `Y` are the points, the cells and the data of a grid of four by three points, and `D` has 64 levels.
fn attributed(alloc: Global, id: u8) -> Result<Rc<Object>, Fail> {
    match id {
        b'P' => array(alloc, points(alloc)?, &[]),
        b'Q' => array(
            alloc,
            cells(alloc)?,
            &[(b"element type", b'h'), (b"ref", b't')],
        ),
        b'Y' => array(alloc, twelve(alloc)?, &[(b"dep", b't')]),
        _ => array(alloc, twelve(alloc)?, &[(b"x", b'l')]),
    }
}

const COMPONENTS: Words<'static> = &[
    (b"positions", b'P'),
    (b"connections", b'Q'),
    (b"data", b'Y'),
];

// A field of data over a grid.
fn grid_field(alloc: Global) -> Result<Rc<Object>, Fail> {
    let mut components = Parts::new(alloc);
    for (name, id) in COMPONENTS {
        components.push(part(alloc, name, 0, attributed(alloc, *id)?)?)?;
    }
    let field = Object::field(components, Parts::new(alloc))?;
    Ok(Rc::new(alloc, field)?)
}

// `A` is a field, `R` and `W` are groups, `C` is a composite group and `S` a series.
fn words_of(id: u8) -> Words<'static> {
    match id {
        b'A' => &[(b"a", b'a')],
        b'W' => &[(b"b", b't'), (b"", b't'), (b"ab", b'n'), (b"a", b'h')],
        b'C' => &[(b"a", b'f'), (b"", b'f')],
        b'S' => &[(b"", b't'), (b"", b'f')],
        _ => &[(b"a", b't'), (b"", b'f')],
    }
}

// The letter of the maker.
fn maker_of(id: u8) -> u8 {
    match id {
        b'A' => b'f',
        b'C' => b'c',
        b'S' => b's',
        _ => b'g',
    }
}

fn whole(alloc: Global, id: u8) -> Result<Rc<Object>, Fail> {
    let members = parts(alloc, words_of(id))?;
    let object = made_of(maker_of(id), members, parts(alloc, &[(b"u", b't')])?)?;
    Ok(Rc::new(alloc, object)?)
}

/// The object of a letter, be it simple or a whole.
pub(crate) fn any(alloc: Global, id: u8) -> Result<Rc<Object>, Fail> {
    match id {
        b'A' | b'C' | b'R' | b'S' | b'W' => whole(alloc, id),
        b'F' => grid_field(alloc),
        b'P' | b'Q' | b'Y' | b'D' => attributed(alloc, id),
        _ => object(alloc, id),
    }
}
