//! Fields whose components are arrays of every class: their first fault, and whether they are regular grids.
use crate::fields::{fault, field_of, has_counts, push_attribute};
use dx_objects::{Array, ElemType, Object, Part, Parts, Shape};
use std::alloc::Global;
use std::test::Fail;

fn plain(alloc: Global, extents: &[u32], values: &[i64]) -> Result<Array, Fail> {
    let shape = Shape::from_vec(Vec::from_slice(alloc, extents)?);
    let values = Vec::from_slice(alloc, values)?;
    Ok(Array::plain(ElemType::Int, shape, values)?)
}

fn constant(alloc: Global) -> Result<Array, Fail> {
    let value = vec![in alloc; 5]?;
    Ok(Array::constant(ElemType::Int, Shape::new(alloc), 3, value)?)
}

fn regular(alloc: Global) -> Result<Array, Fail> {
    let origin = vec![in alloc; 2]?;
    let delta = vec![in alloc; -1]?;
    Ok(Array::regular(ElemType::Int, Shape::new(alloc), 4, origin, delta)?)
}

fn points(alloc: Global) -> Result<Array, Fail> {
    let counts = vec![in alloc; 2, 3]?;
    let origin = vec![in alloc; 0; 2]?;
    let deltas = vec![in alloc; 1, 0, 0, 1]?;
    Ok(Array::grid_positions(counts, origin, deltas)?)
}

// `v` has the items (0, 1) and (2, 3), `c` three times 5, `l` the items 2, 1, 0 and -1; `p` is the points of a grid of 2 by 3,
// (0, 0) to (1, 2), and `k` its cells, (0, 1, 3, 4) and (1, 2, 4, 5); a digit is so many zeros.
fn array(alloc: Global, id: u8) -> Result<Array, Fail> {
    let zeros: &[i64] = &[0, 0, 0, 0, 0, 0, 0, 0, 0];
    match id {
        b'v' => plain(alloc, &[2], &[0, 1, 2, 3]),
        b'c' => constant(alloc),
        b'l' => regular(alloc),
        b'p' => points(alloc),
        b'k' => Ok(Array::grid_connections(vec![in alloc; 2, 3]?)?),
        b'1'..=b'9' => plain(alloc, &[], &zeros[..(id - b'0') as usize]),
        _ => plain(alloc, &[], &[]),
    }
}

// Its name, its array, and what its attributes `dep` and `ref` say.
type Component<'a> = (&'a [u8], u8, &'a [u8], &'a [u8]);

fn component(alloc: Global, row: &Component<'_>) -> Result<Part, Fail> {
    let (name, id, dep, reference) = row;
    let mut attributes = Parts::new(alloc);
    push_attribute(alloc, &mut attributes, b"dep", dep)?;
    push_attribute(alloc, &mut attributes, b"ref", reference)?;
    let object = Object::array(array(alloc, *id)?, attributes)?;
    crate::fields::part(alloc, name, object)
}

fn field(alloc: Global, rows: &[Component<'_>]) -> Result<Object, Fail> {
    let mut parts = Parts::new(alloc);
    for row in rows {
        parts.push(component(alloc, row)?)?;
    }
    field_of(alloc, parts)
}

const FAULTS: &[(&[Component<'static>], &[u8])] = &[
    (&[(b"a", b'v', b"b", b""), (b"b", b'2', b"", b"")], b""),
    (
        &[(b"a", b'v', b"b", b""), (b"b", b'4', b"", b"")],
        b"2 on 4",
    ),
    (&[(b"a", b'v', b"", b"b"), (b"b", b'4', b"", b"")], b""),
    (
        &[(b"a", b'v', b"", b"b"), (b"b", b'3', b"", b"")],
        b"value 3",
    ),
    (
        &[(b"a", b'v', b"", b"b"), (b"b", b'1', b"", b"")],
        b"value 1",
    ),
    (&[(b"a", b'c', b"b", b""), (b"b", b'3', b"", b"")], b""),
    (
        &[(b"a", b'c', b"b", b""), (b"b", b'1', b"", b"")],
        b"3 on 1",
    ),
    (&[(b"a", b'c', b"", b"b"), (b"b", b'6', b"", b"")], b""),
    (
        &[(b"a", b'c', b"", b"b"), (b"b", b'5', b"", b"")],
        b"value 0",
    ),
    (
        &[(b"a", b'l', b"", b"b"), (b"b", b'3', b"", b"")],
        b"value 3",
    ),
    (
        &[(b"a", b'l', b"", b"b"), (b"b", b'2', b"", b"")],
        b"value 0",
    ),
    (&[(b"a", b'k', b"", b"b"), (b"b", b'p', b"", b"")], b""),
    (&[(b"a", b'k', b"", b"b"), (b"b", b'6', b"", b"")], b""),
    (
        &[(b"a", b'k', b"", b"b"), (b"b", b'5', b"", b"")],
        b"value 7",
    ),
    (
        &[(b"a", b'k', b"", b"b"), (b"b", b'4', b"", b"")],
        b"value 3",
    ),
    (
        &[(b"a", b'k', b"", b"b"), (b"b", b'0', b"", b"")],
        b"value 0",
    ),
    (
        &[(b"a", b'k', b"b", b""), (b"b", b'p', b"", b"")],
        b"2 on 6",
    ),
    (&[(b"a", b'p', b"b", b""), (b"b", b'6', b"", b"")], b""),
    (&[(b"a", b'p', b"", b"b"), (b"b", b'3', b"", b"")], b""),
    (
        &[(b"a", b'p', b"", b"b"), (b"b", b'2', b"", b"")],
        b"value 5",
    ),
];

#[test]
fn first_faults_of_all_classes(rt: HostRuntime) -> Result<(), Fail> {
    let alloc = rt.alloc();
    for (rows, wanted) in FAULTS {
        let object = field(alloc, rows)?;
        assert!(rt; fault(alloc, &object)?.as_slice() == *wanted);
    }
    Ok(())
}

const POINTS: &[u8] = b"positions";

const CELLS: &[u8] = b"connections";

// What makes a grid is the class of these two components alone.
const GRIDS: &[(&[Component<'static>], &[u32])] = &[
    (
        &[(POINTS, b'p', b"", b""), (CELLS, b'k', b"", b"")],
        &[2, 3],
    ),
    (
        &[(CELLS, b'k', b"", b"a"), (POINTS, b'p', b"a", b"")],
        &[2, 3],
    ),
    (
        &[
            (POINTS, b'p', b"", b""),
            (CELLS, b'k', b"", b""),
            (b"a", b'1', b"", b""),
        ],
        &[2, 3],
    ),
    (&[(POINTS, b'p', b"", b""), (CELLS, b'c', b"", b"")], &[]),
    (&[(POINTS, b'p', b"", b""), (CELLS, b'p', b"", b"")], &[]),
    (&[(POINTS, b'k', b"", b""), (CELLS, b'k', b"", b"")], &[]),
    (&[(POINTS, b'v', b"", b""), (CELLS, b'k', b"", b"")], &[]),
    (&[(POINTS, b'v', b"", b"")], &[]),
    (&[(POINTS, b'p', b"", b"")], &[]),
    (&[(CELLS, b'k', b"", b"")], &[]),
    (&[(b"a", b'p', b"", b""), (CELLS, b'k', b"", b"")], &[]),
    (&[], &[]),
];

#[test]
fn grids_by_class(rt: HostRuntime) -> Result<(), Fail> {
    let alloc = rt.alloc();
    for (rows, wanted) in GRIDS {
        let object = field(alloc, rows)?;
        assert!(rt; has_counts(&object, wanted));
    }
    Ok(())
}
