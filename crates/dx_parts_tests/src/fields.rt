//! The first fault of a field, and which fields are regular grids.
use dx_base::{Bytes, push_count};
use dx_fields::{FieldFault, check_field, grid_of};
use dx_objects::{Array, ElemType, Object, Part, Parts, Shape};
use std::alloc::{AllocError, Global};
use std::rc::Rc;
use std::test::Fail;

pub(crate) fn part(alloc: Global, name: &[u8], object: Object) -> Result<Part, Fail> {
    Ok(Part {
        name: Some(Bytes::copy_of(alloc, name)?),
        position: 0,
        object: Rc::new(alloc, object)?,
    })
}

// An attribute that is a text, where the bytes aren't empty; `#` stands for a number.
pub(crate) fn push_attribute(
    alloc: Global,
    attributes: &mut Parts,
    name: &[u8],
    value: &[u8],
) -> Result<(), Fail> {
    if value.is_empty() {
        return Ok(());
    }
    let object = if value == b"#".as_slice() {
        Object::array(ints(alloc, &[1])?, Parts::new(alloc))?
    } else {
        Object::text(Bytes::copy_of(alloc, value)?, Parts::new(alloc))?
    };
    attributes.push(part(alloc, name, object)?)?;
    Ok(())
}

fn ints(alloc: Global, values: &[i64]) -> Result<Array, Fail> {
    let values = Vec::from_slice(alloc, values)?;
    Ok(Array::plain(ElemType::Int, Shape::new(alloc), values)?)
}

// Its name, its values, and what its attributes `dep` and `ref` say.
type Component<'a> = (&'a [u8], &'a [i64], &'a [u8], &'a [u8]);

fn component(alloc: Global, row: &Component<'_>) -> Result<Part, Fail> {
    let (name, values, dep, reference) = row;
    let mut attributes = Parts::new(alloc);
    push_attribute(alloc, &mut attributes, b"dep", dep)?;
    push_attribute(alloc, &mut attributes, b"ref", reference)?;
    part(
        alloc,
        name,
        Object::array(ints(alloc, values)?, attributes)?,
    )
}

fn field(alloc: Global, rows: &[Component<'_>]) -> Result<Object, Fail> {
    let mut parts = Parts::new(alloc);
    for row in rows {
        parts.push(component(alloc, row)?)?;
    }
    field_of(alloc, parts)
}

pub(crate) fn field_of(alloc: Global, parts: Parts) -> Result<Object, Fail> {
    Ok(Object::field(parts, Parts::new(alloc))?)
}

/// What is wrong with the field: `missing`, `2 on 1` or `value 3`.
pub(crate) fn fault(alloc: Global, object: &Object) -> Result<Vec<u8>, AllocError> {
    let mut text = Vec::new(alloc);
    match check_field(object) {
        Ok(()) => {}
        Err(FieldFault::DepMissing) => text.extend_from_slice(b"missing")?,
        Err(FieldFault::CountMismatch(own, other)) => {
            push_count(&mut text, own)?;
            text.extend_from_slice(b" on ")?;
            push_count(&mut text, other)?;
        }
        Err(FieldFault::RefOutOfRange(i)) => {
            text.extend_from_slice(b"value ")?;
            push_count(&mut text, i)?;
        }
    }
    Ok(text)
}

const FAULTS: &[(&[Component<'static>], &[u8])] = &[
    (&[], b""),
    (
        &[(b"a", &[1, 2], b"", b""), (b"b", &[3, 4], b"a", b"")],
        b"",
    ),
    (
        &[(b"a", &[3, 4], b"b", b""), (b"b", &[1, 2], b"", b"")],
        b"",
    ),
    (&[(b"a", &[1, 2], b"c", b"")], b"missing"),
    (&[(b"a", &[1, 2], b"#", b"")], b"missing"),
    (&[(b"a", &[0], b"", b"c")], b"missing"),
    (&[(b"a", &[0], b"", b"#")], b"missing"),
    (
        &[(b"a", &[1], b"", b""), (b"b", &[3, 4], b"a", b"")],
        b"2 on 1",
    ),
    (&[(b"a", &[], b"", b""), (b"b", &[3], b"a", b"")], b"1 on 0"),
    (
        &[(b"a", &[1, 2], b"", b""), (b"b", &[0, 1, 2], b"", b"a")],
        b"value 2",
    ),
    (
        &[(b"a", &[1, 2], b"", b""), (b"b", &[-1], b"", b"a")],
        b"value 0",
    ),
    (&[(b"a", &[1, 0], b"", b"a")], b""),
    (
        &[(b"a", &[1, 2], b"", b""), (b"b", &[5], b"c", b"a")],
        b"missing",
    ),
    (
        &[(b"a", &[1, 2], b"", b""), (b"b", &[5], b"a", b"c")],
        b"1 on 2",
    ),
    (
        &[(b"a", &[9], b"", b"b"), (b"b", &[1], b"c", b"")],
        b"value 0",
    ),
    (
        &[(b"a", &[1, 2], b"", b""), (b"b", &[5], b"a", b"a")],
        b"1 on 2",
    ),
    (
        &[(b"a", &[1], b"b", b""), (b"b", &[1, 2], b"c", b"")],
        b"1 on 2",
    ),
    (
        &[(b"a", &[1], b"c", b""), (b"b", &[1, 2], b"a", b"")],
        b"missing",
    ),
    (
        &[(b"a", &[0, 1], b"", b"b"), (b"b", &[7], b"a", b"")],
        b"value 1",
    ),
    (&[(b"a", &[0, 7, 9], b"", b"a")], b"value 1"),
    (&[(b"a", &[0, 1, 2], b"a", b"a")], b""),
    (
        &[(b"a", &[], b"", b""), (b"b", &[0], b"", b"a")],
        b"value 0",
    ),
    (&[(b"a", &[], b"b", b"a"), (b"b", &[], b"", b"")], b""),
    (&[(b"a", &[2147483647], b"", b"a")], b"value 0"),
];

#[test]
fn first_faults(rt: HostRuntime) -> Result<(), Fail> {
    let alloc = rt.alloc();
    for (rows, wanted) in FAULTS {
        let object = field(alloc, rows)?;
        if fault(alloc, &object)?.as_slice() != *wanted {
            return Err(Fail::from(*wanted));
        }
    }
    Ok(())
}

fn positions(alloc: Global, counts: &[u32]) -> Result<Object, Fail> {
    let zeros: &[i64] = &[0, 0, 0, 0, 0, 0, 0, 0, 0];
    let (origin, deltas) = match counts.len() {
        1 => (&zeros[..1], &zeros[..1]),
        2 => (&zeros[..2], &zeros[..4]),
        _ => (&zeros[..3], &zeros[..9]),
    };
    let origin = Vec::from_slice(alloc, origin)?;
    let deltas = Vec::from_slice(alloc, deltas)?;
    let array = Array::grid_positions(Vec::from_slice(alloc, counts)?, origin, deltas)?;
    Ok(Object::array(array, Parts::new(alloc))?)
}

// A field of points with these counts, and of cells with those, where there are any.
fn grid(alloc: Global, points: &[u32], cells: &[u32]) -> Result<Object, Fail> {
    let mut parts = Parts::new(alloc);
    parts.push(part(alloc, b"positions", positions(alloc, points)?)?)?;
    if !cells.is_empty() {
        let array = Array::grid_connections(Vec::from_slice(alloc, cells)?)?;
        let cells = Object::array(array, Parts::new(alloc))?;
        parts.push(part(alloc, b"connections", cells)?)?;
    }
    Ok(Object::field(parts, Parts::new(alloc))?)
}

/// Whether it is a grid of these counts, or none where there are no counts.
pub(crate) fn has_counts(object: &Object, wanted: &[u32]) -> bool {
    let Some(grid) = grid_of(object) else {
        return wanted.is_empty();
    };
    if grid.dimensions() as usize != wanted.len() {
        return false;
    }
    for d in 0..grid.dimensions() {
        if grid.count(d) != wanted[d as usize] {
            return false;
        }
    }
    true
}

const GRIDS: &[(&[u32], &[u32], &[u32])] = &[
    (&[1, 4, 1], &[4], &[1, 4, 1]),
    (&[1, 4, 2], &[4, 2], &[1, 4, 2]),
    (&[1, 1, 1], &[], &[1, 1, 1]),
    (&[4, 1], &[4], &[4, 1]),
    (&[1], &[1], &[]),
    (&[1, 1, 1], &[1, 1, 1], &[]),
    (&[4, 1], &[], &[]),
    (&[4, 3], &[4], &[]),
    (&[4], &[4, 1], &[]),
    (&[4], &[5], &[]),
    (&[5], &[5], &[5]),
    (&[4, 3], &[4, 3], &[4, 3]),
    (&[4, 3, 2], &[4, 3, 2], &[4, 3, 2]),
    (&[4, 1, 3], &[4, 3], &[4, 1, 3]),
    (&[1, 1], &[], &[1, 1]),
    (&[1], &[], &[1]),
    (&[4, 3], &[], &[]),
    (&[4, 3], &[3, 4], &[]),
    (&[4, 1], &[4, 1], &[]),
    (&[1, 1], &[2], &[]),
    (&[4, 3, 2], &[4, 3], &[]),
];

#[test]
fn regular_grids(rt: HostRuntime) -> Result<(), Fail> {
    let alloc = rt.alloc();
    for (points, cells, wanted) in GRIDS {
        let object = grid(alloc, points, cells)?;
        assert!(rt; has_counts(&object, wanted));
    }
    Ok(())
}
