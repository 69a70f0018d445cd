//! Lists of values.
use crate::wholes::any;
use dx_objects::{Object, Outs, Value};
use std::alloc::{AllocError, Global};
use std::rc::Rc;
use std::test::Fail;

fn value(alloc: Global, id: u8) -> Result<Value, Fail> {
    match id {
        b'0' => Ok(None),
        _ => Ok(Some(any(alloc, id)?)),
    }
}

/// The values of these letters, of which `0` is NULL.
pub(crate) fn outs(alloc: Global, ids: &[u8]) -> Result<Outs, Fail> {
    let mut outs = Outs::new(alloc);
    for id in ids {
        outs.push(value(alloc, *id)?)?;
    }
    Ok(outs)
}

fn size_of(object: Option<&Rc<Object>>) -> u64 {
    match object {
        Some(object) => object.size(),
        None => 0,
    }
}

// The sizes of the objects at the first four places, 0 for NULL and behind the end.
fn sizes(outs: &Outs) -> [u64; 4] {
    [
        size_of(outs.value(0)),
        size_of(outs.value(1)),
        size_of(outs.value(2)),
        size_of(outs.value(3)),
    ]
}

fn share(one: &Value, other: &Value) -> bool {
    match (one, other) {
        (None, None) => true,
        (Some(a), Some(b)) => Rc::ptr_eq(a, b),
        _ => false,
    }
}

// Whether both have the same objects, and NULL in the same places.
fn share_all(one: &Outs, other: &Outs) -> bool {
    let mut rest = other.as_slice().iter();
    for value in one.as_slice() {
        match rest.next() {
            Some(same) if share(value, same) => {}
            _ => return false,
        }
    }
    rest.next().is_none()
}

// The values, the stated size of the list, and the sizes at its first four places.
const ROWS: &[(&[u8], u64, [u64; 4])] = &[
    (b"", 0, [0, 0, 0, 0]),
    (b"0", 64, [0, 0, 0, 0]),
    (b"0n", 132, [0, 68, 0, 0]),
    (b"00t", 193, [0, 0, 65, 0]),
    (b"tn0R", 457, [65, 68, 0, 260]),
    (b"0000n", 324, [0, 0, 0, 0]),
    (
        b"bbb",
        805_306_176,
        [268_435_392, 268_435_392, 268_435_392, 0],
    ),
];

#[test]
fn lists_of_values_count_64_for_null(rt: HostRuntime) -> Result<(), Fail> {
    let alloc = rt.alloc();
    for (ids, size, wanted) in ROWS {
        let list = outs(alloc, ids)?;
        assert!(rt; list.len() == ids.len() && list.is_empty() == ids.is_empty());
        assert!(rt; list.size() == *size && sizes(&list) == *wanted);
        assert!(rt; list.value(ids.len()).is_none() && list.value(usize::MAX).is_none());
    }
    Ok(())
}

// Whether a copy of a list has its objects, and this size and these sizes.
fn copies(alloc: Global, list: &Outs, size: u64, wanted: &[u64; 4]) -> Result<bool, AllocError> {
    let copy = list.copy(alloc)?;
    Ok(share_all(list, &copy) && copy.size() == size && sizes(&copy) == *wanted)
}

#[test]
fn a_copy_shares_the_objects(rt: HostRuntime) -> Result<(), Fail> {
    let alloc = rt.alloc();
    for (ids, size, wanted) in ROWS {
        assert!(rt; copies(alloc, &outs(alloc, ids)?, *size, wanted)?);
    }
    Ok(())
}

#[test]
fn a_value_is_got_by_its_place(rt: HostRuntime) -> Result<(), Fail> {
    let list = outs(rt.alloc(), b"0t")?;
    if list.len() == 2 {
        assert!(rt; list.get(0).is_none() && size_of(list.get(1).as_ref()) == 65);
    }
    assert!(rt; list.len() == 2);
    Ok(())
}
