//! The inputs of the rows, by their names.
use dx_base::Bytes;
use dx_objects::{Array, ElemType, Object, ObjectError, Part, Parts, Shape, Value};
use std::alloc::{AllocError, Global};
use std::rc::Rc;
use std::test::Fail;

// ---- arrays

// A name, a type, extents and values.
type Plain<'a> = (&'a str, ElemType, &'a [u32], &'a [i64]);

const PLAIN: &[Plain<'static>] = &[
    // Numbers.
    ("0", ElemType::Int, &[], &[0]),
    ("1", ElemType::Int, &[], &[1]),
    ("5", ElemType::Int, &[], &[5]),
    ("68", ElemType::Int, &[], &[68]),
    ("105", ElemType::UByte, &[], &[105]),
    ("3000000000", ElemType::UInt, &[], &[3_000_000_000]),
    // Lists of numbers.
    ("nothing", ElemType::Int, &[], &[]),
    ("ints", ElemType::Int, &[], &[1, 2, 3]),
    ("tens", ElemType::Int, &[], &[10, 20, 30]),
    ("pair", ElemType::Int, &[], &[4, 5]),
    ("gap", ElemType::Int, &[], &[1, 0, 2]),
    ("most first", ElemType::Int, &[], &[2_147_483_647, 0, 5]),
    ("most second", ElemType::Int, &[], &[0, 2_147_483_647, 5]),
    ("most last", ElemType::Int, &[], &[0, 5, 2_147_483_647]),
    // Other types.
    ("bytes", ElemType::Byte, &[], &[-128, 127, 0]),
    ("ubytes", ElemType::UByte, &[], &[0, 200, 255]),
    ("shorts", ElemType::Short, &[], &[-32_768, 32_767]),
    ("ushort", ElemType::UShort, &[], &[65_535]),
    ("small uints", ElemType::UInt, &[], &[5, 2_147_483_647]),
    ("uints", ElemType::UInt, &[], &[5, 3_000_000_000]),
    // Vectors and a matrix.
    ("vector", ElemType::Int, &[2], &[10, 20]),
    ("vectors", ElemType::Int, &[2], &[1, 2, 3, 4]),
    ("no vectors", ElemType::Int, &[2], &[]),
    ("triple", ElemType::Int, &[3], &[1, 2, 3]),
    ("one part", ElemType::Int, &[1], &[7]),
    ("matrix", ElemType::Int, &[2, 2], &[1, 2, 3, 4]),
    ("byte vector", ElemType::UByte, &[2], &[200, 100]),
    ("uint vector", ElemType::UInt, &[2], &[3_000_000_000, 5]),
];

// A name, extents, and ints that the array keeps in 4 bytes each.
type Narrow<'a> = (&'a str, &'a [u32], &'a [i32]);

const NARROW: &[Narrow<'static>] = &[
    ("narrow 5", &[], &[5]),
    ("narrow nothing", &[], &[]),
    ("narrow ints", &[], &[1, 2, 3]),
    ("narrow tens", &[], &[10, 20, 30]),
    ("narrow gap", &[], &[1, 0, 2]),
    ("narrow ends", &[], &[-2_147_483_648, 0, 2_147_483_647]),
    ("narrow vector", &[2], &[10, 20]),
    ("narrow vectors", &[2], &[1, 2, 3, 4]),
    ("narrow matrix", &[2, 2], &[1, 2, 3, 4]),
];

fn plain(alloc: Global, row: &Plain<'_>) -> Result<Array, Fail> {
    let (_, elem, extents, values) = row;
    let shape = Shape::from_vec(Vec::from_slice(alloc, extents)?);
    Ok(Array::plain(*elem, shape, Vec::from_slice(alloc, values)?)?)
}

/// An array that keeps these ints in 4 bytes each.
pub(crate) fn narrow(alloc: Global, extents: &[u32], values: Vec<i32>) -> Result<Array, Fail> {
    let shape = Shape::from_vec(Vec::from_slice(alloc, extents)?);
    Ok(Array::ints(shape, values)?)
}

fn constant(alloc: Global, extents: &[u32], items: u64, value: &[i64]) -> Result<Array, Fail> {
    let shape = Shape::from_vec(Vec::from_slice(alloc, extents)?);
    let value = Vec::from_slice(alloc, value)?;
    Ok(Array::constant(ElemType::Int, shape, items, value)?)
}

/// So many numbers, from the origin on.
pub(crate) fn regular(
    alloc: Global,
    elem: ElemType,
    items: u64,
    origin: i64,
    delta: i64,
) -> Result<Array, Fail> {
    let origin = Vec::from_slice(alloc, &[origin])?;
    let delta = Vec::from_slice(alloc, &[delta])?;
    Ok(Array::regular(elem, Shape::new(alloc), items, origin, delta)?)
}

fn pair(alloc: Global, one: &[i64], other: &[i64]) -> Result<(Vec<i64>, Vec<i64>), AllocError> {
    let one = Vec::from_slice(alloc, one)?;
    Ok((one, Vec::from_slice(alloc, other)?))
}

// The points of a grid of two dimensions, from (5, 7) on, with the deltas (1, 0) and (0, 10).
fn points(alloc: Global, counts: [u32; 2]) -> Result<Array, Fail> {
    let counts = Vec::from_slice(alloc, &counts)?;
    let (origin, deltas) = pair(alloc, &[5, 7], &[1, 0, 0, 10])?;
    Ok(Array::grid_positions(counts, origin, deltas)?)
}

fn cells(alloc: Global, counts: [u32; 2]) -> Result<Array, Fail> {
    let counts = Vec::from_slice(alloc, &counts)?;
    Ok(Array::grid_connections(counts)?)
}

// Arrays that are no lists of values.
fn rule(alloc: Global, name: &str) -> Result<Array, Fail> {
    match name {
        "sevens" => constant(alloc, &[], 3, &[7]),
        "constant" => constant(alloc, &[], 1, &[7]),
        "no sevens" => constant(alloc, &[], 0, &[7]),
        "constant vectors" => constant(alloc, &[2], 3, &[7, 8]),
        "downwards" => regular(alloc, ElemType::Int, 3, 10, -2),
        "regular" => regular(alloc, ElemType::Short, 1, 10, -2),
        "over the ints" => regular(alloc, ElemType::UInt, 3, 2_147_483_646, 1),
        "points" => points(alloc, [2, 2]),
        "point" => points(alloc, [1, 1]),
        "cells" => cells(alloc, [3, 2]),
        "cell" => cells(alloc, [2, 2]),
        _ => Err(Fail::from("a row names no input")),
    }
}

fn narrow_or_rule(alloc: Global, name: &str) -> Result<Array, Fail> {
    for (own, extents, values) in NARROW {
        if *own == name {
            return narrow(alloc, extents, Vec::from_slice(alloc, values)?);
        }
    }
    rule(alloc, name)
}

fn array(alloc: Global, name: &str) -> Result<Array, Fail> {
    for row in PLAIN {
        if row.0 == name {
            return plain(alloc, row);
        }
    }
    narrow_or_rule(alloc, name)
}

// ---- parts

fn name_of(alloc: Global, name: &str) -> Result<Option<Bytes>, AllocError> {
    if name.is_empty() {
        return Ok(None);
    }
    Ok(Some(Bytes::copy_of(alloc, name.as_bytes())?))
}

/// A part at a position, which has no name where the text is empty.
pub(crate) fn part(
    alloc: Global,
    name: &str,
    position: i32,
    object: Rc<Object>,
) -> Result<Part, Fail> {
    Ok(Part {
        name: name_of(alloc, name)?,
        position,
        object,
    })
}

/// An array without attributes.
pub(crate) fn alone(alloc: Global, array: Array) -> Result<Rc<Object>, Fail> {
    Ok(Rc::new(alloc, Object::array(array, Parts::new(alloc))?)?)
}

// Names and texts.
type Attributes<'a> = &'a [(&'a str, &'a str)];

fn text(alloc: Global, text: &str) -> Result<Rc<Object>, Fail> {
    let bytes = Bytes::copy_of(alloc, text.as_bytes())?;
    Ok(Rc::new(alloc, Object::text(bytes, Parts::new(alloc))?)?)
}

fn attributes(alloc: Global, rows: Attributes<'_>) -> Result<Parts, Fail> {
    let mut parts = Parts::new(alloc);
    for (name, bytes) in rows {
        parts.push(part(alloc, name, 0, text(alloc, bytes)?)?)?;
    }
    Ok(parts)
}

// An array or a text, with attributes.
fn leaf(alloc: Global, name: &str, rows: Attributes<'_>) -> Result<Rc<Object>, Fail> {
    let attributes = attributes(alloc, rows)?;
    let object = if name == "text" {
        Object::text(Bytes::copy_of(alloc, b"text")?, attributes)
    } else {
        Object::array(array(alloc, name)?, attributes)
    };
    Ok(Rc::new(alloc, object?)?)
}

// ---- fields

// A name, the array and its attributes.
type Component<'a> = (&'a str, &'a str, Attributes<'a>);

// A name, the components and the attributes.
type Field<'a> = (&'a str, &'a [Component<'a>], Attributes<'a>);

const FIELDS: &[Field<'static>] = &[
    ("empty field", &[], &[]),
    ("no data", &[("positions", "ints", &[])], &[]),
    ("five", &[("data", "5", &[])], &[]),
    (
        "one",
        &[("data", "1", &[("unit", "m")])],
        &[("name", "one")],
    ),
    ("three", &[("data", "ints", &[])], &[]),
    (
        "other three",
        &[("data", "tens", &[]), ("a", "5", &[])],
        &[],
    ),
    ("no items", &[("data", "nothing", &[])], &[]),
    ("cell data", &[("data", "cells", &[])], &[]),
    (
        "narrow three",
        &[("data", "narrow ints", &[("unit", "m")])],
        &[("name", "narrow")],
    ),
    ("large data", &[("data", "3000000000", &[])], &[]),
    (
        "island",
        &[
            ("positions", "downwards", &[("a", "b")]),
            ("data", "sevens", &[("dep", "positions"), ("unit", "m")]),
            ("mark", "bytes", &[]),
        ],
        &[("name", "island")],
    ),
];

fn components(alloc: Global, rows: &[Component<'_>]) -> Result<Parts, Fail> {
    let mut parts = Parts::new(alloc);
    for (name, array, attributes) in rows {
        parts.push(part(alloc, name, 0, leaf(alloc, array, attributes)?)?)?;
    }
    Ok(parts)
}

// A field, or an array or a text.
fn small(alloc: Global, name: &str) -> Result<Rc<Object>, Fail> {
    for (own, rows, attached) in FIELDS {
        if *own == name {
            let object = Object::field(components(alloc, rows)?, attributes(alloc, attached)?)?;
            return Ok(Rc::new(alloc, object)?);
        }
    }
    leaf(alloc, name, &[])
}

// ---- groups and series

#[derive(Clone, Copy)]
enum Grouping {
    Plain,
    Composite,
    Series,
}

// A name, which is empty where there is none, a position, and the name of the object.
type Member<'a> = (&'a str, i32, &'a str);

// A name, what it is, the members and the attributes.
type Group<'a> = (&'a str, Grouping, &'a [Member<'a>], Attributes<'a>);

const GROUPS: &[Group<'static>] = &[
    ("no members", Grouping::Plain, &[], &[("name", "none")]),
    ("no fields", Grouping::Composite, &[], &[]),
    ("no steps", Grouping::Series, &[], &[]),
    ("single", Grouping::Plain, &[("", 0, "1")], &[]),
    (
        "named",
        Grouping::Plain,
        &[("a", 0, "pair"), ("", 0, "5")],
        &[("name", "g")],
    ),
    (
        "numbers",
        Grouping::Plain,
        &[("x", 0, "1"), ("y", 0, "68")],
        &[],
    ),
    (
        "trio",
        Grouping::Plain,
        &[("", 0, "1"), ("", 0, "5"), ("", 0, "0")],
        &[],
    ),
    (
        "steps",
        Grouping::Series,
        &[("", 2, "5"), ("", -3, "68")],
        &[("name", "s")],
    ),
    (
        "fields",
        Grouping::Plain,
        &[("a", 0, "island"), ("b", 0, "five")],
        &[],
    ),
    (
        "steps of fields",
        Grouping::Series,
        &[("", 7, "one"), ("", 9, "five")],
        &[],
    ),
    (
        "parts",
        Grouping::Composite,
        &[("a", 0, "five"), ("", 0, "one")],
        &[("name", "c")],
    ),
    (
        "parts without data",
        Grouping::Composite,
        &[("a", 0, "five"), ("b", 0, "no data")],
        &[],
    ),
    (
        "zero and text",
        Grouping::Plain,
        &[("", 0, "0"), ("", 0, "text")],
        &[],
    ),
    (
        "text and zero",
        Grouping::Plain,
        &[("", 0, "text"), ("", 0, "0")],
        &[],
    ),
    (
        "no data and zero",
        Grouping::Plain,
        &[("", 0, "no data"), ("", 0, "0")],
        &[],
    ),
    (
        "lists",
        Grouping::Plain,
        &[("", 0, "ints"), ("", 0, "pair")],
        &[],
    ),
    (
        "narrow lists",
        Grouping::Plain,
        &[("a", 0, "narrow ints"), ("b", 0, "narrow vectors")],
        &[],
    ),
    (
        "vector and list",
        Grouping::Plain,
        &[("", 0, "vectors"), ("", 0, "pair")],
        &[],
    ),
];

const NESTED: &[Group<'static>] = &[
    (
        "nested",
        Grouping::Plain,
        &[("a", 0, "numbers"), ("b", 0, "steps")],
        &[("name", "outer")],
    ),
    (
        "group and number",
        Grouping::Plain,
        &[("", 0, "numbers"), ("", 0, "5")],
        &[],
    ),
    (
        "two and three",
        Grouping::Plain,
        &[("", 0, "numbers"), ("", 0, "trio")],
        &[],
    ),
    (
        "steps of parts",
        Grouping::Series,
        &[("", 1, "parts"), ("", 2, "parts")],
        &[],
    ),
    (
        "group of none",
        Grouping::Plain,
        &[("", 0, "no members"), ("", 0, "1")],
        &[],
    ),
];

fn grouping_of(grouping: Grouping, parts: Parts, attributes: Parts) -> Result<Object, ObjectError> {
    match grouping {
        Grouping::Plain => Object::group(parts, attributes),
        Grouping::Composite => Object::composite(parts, attributes),
        Grouping::Series => Object::series(parts, attributes),
    }
}

fn grouped(
    alloc: Global,
    grouping: Grouping,
    parts: Parts,
    rows: Attributes<'_>,
) -> Result<Rc<Object>, Fail> {
    let object = grouping_of(grouping, parts, attributes(alloc, rows)?)?;
    Ok(Rc::new(alloc, object)?)
}

fn members(alloc: Global, rows: &[Member<'_>]) -> Result<Parts, Fail> {
    let mut parts = Parts::new(alloc);
    for (name, position, object) in rows {
        parts.push(part(alloc, name, *position, small(alloc, object)?)?)?;
    }
    Ok(parts)
}

// A group or series of those, or one of those.
fn large(alloc: Global, name: &str) -> Result<Rc<Object>, Fail> {
    for (own, grouping, rows, attached) in GROUPS {
        if *own == name {
            return grouped(alloc, *grouping, members(alloc, rows)?, attached);
        }
    }
    small(alloc, name)
}

fn large_members(alloc: Global, rows: &[Member<'_>]) -> Result<Parts, Fail> {
    let mut parts = Parts::new(alloc);
    for (name, position, object) in rows {
        parts.push(part(alloc, name, *position, large(alloc, object)?)?)?;
    }
    Ok(parts)
}

/// The value of a name; `NULL` is none.
pub(crate) fn value(alloc: Global, name: &str) -> Result<Value, Fail> {
    if name == "NULL" {
        return Ok(None);
    }
    for (own, grouping, rows, attached) in NESTED {
        if *own == name {
            let parts = large_members(alloc, rows)?;
            return Ok(Some(grouped(alloc, *grouping, parts, attached)?));
        }
    }
    Ok(Some(large(alloc, name)?))
}
