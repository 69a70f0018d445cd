//! The objects of the rows, each named by a letter.
use crate::limits::{deep, many, wide};
use dx_base::Bytes;
use dx_objects::{Array, ElemType, Object, Part, Parts, Shape, Value};
use std::alloc::Global;
use std::rc::Rc;
use std::test::Fail;

// An array of this type and shape.
fn array(
    alloc: Global,
    elem: ElemType,
    extents: &[u32],
    values: &[i64],
    attributes: Parts,
) -> Result<Rc<Object>, Fail> {
    let shape = Shape::from_vec(Vec::from_slice(alloc, extents)?);
    let array = Array::plain(elem, shape, Vec::from_slice(alloc, values)?)?;
    Ok(Rc::new(alloc, Object::array(array, attributes)?)?)
}

fn number(alloc: Global, elem: ElemType, n: i64) -> Result<Rc<Object>, Fail> {
    array(alloc, elem, &[], &[n], Parts::new(alloc))
}

fn text(alloc: Global, bytes: &[u8]) -> Result<Rc<Object>, Fail> {
    let object = Object::text(Bytes::copy_of(alloc, bytes)?, Parts::new(alloc))?;
    Ok(Rc::new(alloc, object)?)
}

// A part at a position, which has no name where the bytes are empty.
fn part(alloc: Global, name: &[u8], position: i32, object: Rc<Object>) -> Result<Part, Fail> {
    let name = if name.is_empty() {
        None
    } else {
        Some(Bytes::copy_of(alloc, name)?)
    };
    Ok(Part {
        name,
        position,
        object,
    })
}

// One attribute.
fn attribute(alloc: Global, value: Rc<Object>) -> Result<Parts, Fail> {
    let mut parts = Parts::new(alloc);
    parts.push(part(alloc, b"unit", 0, value)?)?;
    Ok(parts)
}

// One attribute, which is a text.
fn unit(alloc: Global) -> Result<Parts, Fail> {
    attribute(alloc, text(alloc, b"m")?)
}

// The number 0 with an attribute.
fn described(alloc: Global, value: Rc<Object>) -> Result<Rc<Object>, Fail> {
    array(alloc, ElemType::UByte, &[], &[0], attribute(alloc, value)?)
}

// The number 1 as a constant, and as a regular array.
fn constant(alloc: Global) -> Result<Rc<Object>, Fail> {
    let one = vec![in alloc; 1]?;
    let array = Array::constant(ElemType::Short, Shape::new(alloc), 1, one)?;
    Ok(Rc::new(alloc, Object::array(array, Parts::new(alloc))?)?)
}

fn regular(alloc: Global) -> Result<Rc<Object>, Fail> {
    let origin = vec![in alloc; 1]?;
    let delta = vec![in alloc; 5]?;
    let array = Array::regular(ElemType::UByte, Shape::new(alloc), 1, origin, delta)?;
    Ok(Rc::new(alloc, Object::array(array, Parts::new(alloc))?)?)
}

// Digits are numbers, and so are `m`, the bounds `x` and `y` of the int range, `u` and `q` above it, and `k` and `r` of other
// classes; `v` is a vector, `l` a list, and `t` an array without items; `B` a number with an attribute, and `L` and `h` with
// very large ones; others are texts.
fn leaf(alloc: Global, id: u8) -> Result<Rc<Object>, Fail> {
    match id {
        b'0'..=b'9' => number(alloc, ElemType::UByte, i64::from(id - b'0')),
        b'm' => number(alloc, ElemType::Short, -1),
        b'u' => number(alloc, ElemType::UInt, 3_000_000_000),
        b'q' => number(alloc, ElemType::UInt, 2_147_483_648),
        b'x' => number(alloc, ElemType::Int, 2_147_483_647),
        b'y' => number(alloc, ElemType::Int, -2_147_483_648),
        b'k' => constant(alloc),
        b'r' => regular(alloc),
        b't' => array(alloc, ElemType::Int, &[], &[], Parts::new(alloc)),
        b'v' => array(alloc, ElemType::Int, &[1], &[1], Parts::new(alloc)),
        b'l' => array(alloc, ElemType::Int, &[], &[7, 8], Parts::new(alloc)),
        b'B' => array(alloc, ElemType::Int, &[], &[9], unit(alloc)?),
        b'L' => described(alloc, many(alloc)?),
        b'h' => described(alloc, wide(alloc)?),
        b'd' => text(alloc, b"data"),
        b's' => text(alloc, b"saved data"),
        b'w' => text(alloc, b"other data"),
        b'e' => text(alloc, b""),
        b'z' => text(alloc, b"0"),
        _ => text(alloc, &[id]),
    }
}

type Row<'a> = (&'a [u8], i32, u8);

fn leaves(alloc: Global, rows: &[Row<'_>]) -> Result<Parts, Fail> {
    let mut parts = Parts::new(alloc);
    for (name, position, id) in rows {
        parts.push(part(alloc, name, *position, leaf(alloc, *id)?)?)?;
    }
    Ok(parts)
}

fn field(alloc: Global, rows: &[Row<'_>], attributes: Parts) -> Result<Rc<Object>, Fail> {
    let object = Object::field(leaves(alloc, rows)?, attributes)?;
    Ok(Rc::new(alloc, object)?)
}

// `F` and `H` have data, `J` has none, `K` is marked, `D` too but without data, and `E` is empty. The data of `M` is of very
// many objects, and `A` is as large as an object can be.
fn small(alloc: Global, id: u8) -> Result<Rc<Object>, Fail> {
    match id {
        b'F' => field(
            alloc,
            &[(b"data", 0, b'1'), (b"a", 0, b'2')],
            Parts::new(alloc),
        ),
        b'H' => {
            let attributes = unit(alloc)?;
            field(alloc, &[(b"a", 0, b'3'), (b"data", 0, b'B')], attributes)
        }
        b'J' => field(
            alloc,
            &[(b"a", 0, b'2'), (b"b", 0, b'3')],
            Parts::new(alloc),
        ),
        b'K' => {
            let rows: [Row<'_>; 3] = [
                (b"data", 0, b'2'),
                (b"a", 0, b'2'),
                (b"saved data", 0, b'1'),
            ];
            field(alloc, &rows, Parts::new(alloc))
        }
        b'D' => field(
            alloc,
            &[(b"saved data", 0, b'1'), (b"a", 0, b'2')],
            Parts::new(alloc),
        ),
        b'E' => field(alloc, &[], Parts::new(alloc)),
        b'M' => field(alloc, &[(b"data", 0, b'L')], Parts::new(alloc)),
        b'A' => field(alloc, &[(b"data", 0, b'h')], Parts::new(alloc)),
        _ => leaf(alloc, id),
    }
}

fn members(alloc: Global, rows: &[Row<'_>]) -> Result<Parts, Fail> {
    let mut parts = Parts::new(alloc);
    for (name, position, id) in rows {
        parts.push(part(alloc, name, *position, small(alloc, *id)?)?)?;
    }
    Ok(parts)
}

fn group(alloc: Global, rows: &[Row<'_>], attributes: Parts) -> Result<Rc<Object>, Fail> {
    let object = Object::group(members(alloc, rows)?, attributes)?;
    Ok(Rc::new(alloc, object)?)
}

fn series(alloc: Global, rows: &[Row<'_>], attributes: Parts) -> Result<Rc<Object>, Fail> {
    let object = Object::series(members(alloc, rows)?, attributes)?;
    Ok(Rc::new(alloc, object)?)
}

fn composite(alloc: Global, rows: &[Row<'_>], attributes: Parts) -> Result<Rc<Object>, Fail> {
    let object = Object::composite(members(alloc, rows)?, attributes)?;
    Ok(Rc::new(alloc, object)?)
}

// `R` and `N` are groups of numbers, `G`, `X` and `Y` groups of fields, and `Q` one of nothing; `S`, `Z` and `W` are series, `C`,
// `O` and `P` composite groups. `I` has as many levels as an object can have.
fn large(alloc: Global, id: u8) -> Result<Rc<Object>, Fail> {
    match id {
        b'R' => group(alloc, &[(b"", 0, b'4'), (b"", 0, b'5')], Parts::new(alloc)),
        b'N' => group(alloc, &[(b"a", 0, b'4'), (b"", 0, b'B')], Parts::new(alloc)),
        b'G' => group(alloc, &[(b"a", 0, b'F'), (b"", 0, b'H')], unit(alloc)?),
        b'X' => group(alloc, &[(b"", 0, b'J'), (b"", 0, b'4')], Parts::new(alloc)),
        b'Y' => group(alloc, &[(b"", 0, b'4'), (b"", 0, b'J')], Parts::new(alloc)),
        b'Q' => group(alloc, &[], Parts::new(alloc)),
        b'S' => series(alloc, &[(b"", 2, b'4'), (b"", -3, b'5')], Parts::new(alloc)),
        b'Z' => series(alloc, &[(b"", 2, b'F'), (b"", -3, b'H')], Parts::new(alloc)),
        b'W' => series(alloc, &[(b"", 7, b'F')], unit(alloc)?),
        b'C' => composite(
            alloc,
            &[(b"a", 0, b'F'), (b"b", 0, b'H')],
            Parts::new(alloc),
        ),
        b'O' => composite(alloc, &[], Parts::new(alloc)),
        b'P' => composite(alloc, &[(b"", 0, b'H')], unit(alloc)?),
        b'I' => deep(alloc),
        _ => small(alloc, id),
    }
}

// A group with a group in it.
fn nested(alloc: Global, ids: &[u8]) -> Result<Rc<Object>, Fail> {
    let mut parts = Parts::new(alloc);
    for id in ids {
        parts.push(part(alloc, &[], 0, large(alloc, *id)?)?)?;
    }
    Ok(Rc::new(alloc, Object::group(parts, Parts::new(alloc))?)?)
}

/// The value of a letter; `n` is NULL.
pub(crate) fn value(alloc: Global, id: u8) -> Result<Value, Fail> {
    match id {
        b'n' => Ok(None),
        b'T' => Ok(Some(nested(alloc, b"FC")?)),
        b'U' => Ok(Some(nested(alloc, b"XY")?)),
        b'V' => Ok(Some(nested(alloc, b"YX")?)),
        b'i' => Ok(Some(nested(alloc, b"X4")?)),
        b'j' => Ok(Some(nested(alloc, b"4X")?)),
        b'o' => Ok(Some(nested(alloc, b"OF")?)),
        _ => Ok(Some(large(alloc, id)?)),
    }
}
