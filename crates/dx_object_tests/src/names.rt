//! Many names: parts are made and looked through in the order of their names.
use crate::stock::{object, part};
use dx_objects::{Object, ObjectError, Parts};
use std::alloc::Global;
use std::rc::Rc;
use std::test::Fail;

// The number's three bytes, the lowest first, so that names don't stand in their order.
fn name_of(n: u32) -> [u8; 3] {
    let [low, middle, high, _] = n.to_le_bytes();
    [low, middle, high]
}

// So many parts, each with a name of its own, that share one object.
fn many(alloc: Global, count: u32, object: &Rc<Object>) -> Result<Parts, Fail> {
    let mut parts = Parts::new(alloc);
    for n in 0..count {
        parts.push(part(alloc, &name_of(n), 0, object.clone()?)?)?;
    }
    Ok(parts)
}

// How many names below a number find a member of a group of so many, or -1 where another name finds one.
fn found(alloc: Global, count: u32, below: u32) -> Result<i64, Fail> {
    let members = many(alloc, count, &object(alloc, b'f')?)?;
    let group = Object::composite(members, Parts::new(alloc))?;
    let mut found: i64 = 0;
    for n in 0..below {
        if group.member(&name_of(n)).is_some() {
            if n >= count {
                return Ok(-1);
            }
            found = found.saturating_add(1);
        }
    }
    Ok(found)
}

#[test]
fn many_members_are_looked_through(rt: HostRuntime) -> Result<(), Fail> {
    assert!(rt; found(rt.alloc(), 300_000, 300_010)? == 300_000);
    Ok(())
}

// So many parts and one more under the name of this one.
fn with_one_more(alloc: Global, count: u32, repeated: u32) -> Result<Parts, Fail> {
    let object = object(alloc, b'f')?;
    let mut parts = many(alloc, count, &object)?;
    parts.push(part(alloc, &name_of(repeated), 0, object)?)?;
    Ok(parts)
}

// Why no group is made of so many members and one more under the name of this one; or, where they are attributes, no
// series.
fn refusal(
    alloc: Global,
    count: u32,
    repeated: u32,
    are_members: bool,
) -> Result<Option<ObjectError>, Fail> {
    let parts = with_one_more(alloc, count, repeated)?;
    let none = Parts::new(alloc);
    Ok(if are_members {
        Object::composite(parts, none).err()
    } else {
        Object::series(none, parts).err()
    })
}

// How many names there are, which one stands twice, and why nothing is made.
const TWICE: &[(u32, u32, Option<ObjectError>)] = &[
    (1, 0, Some(ObjectError::BadNames)),
    (19, 7, Some(ObjectError::BadNames)),
    (20, 0, Some(ObjectError::BadNames)),
    (21, 20, Some(ObjectError::BadNames)),
    (33, 16, Some(ObjectError::BadNames)),
    (2000, 0, Some(ObjectError::BadNames)),
    (2000, 777, Some(ObjectError::BadNames)),
    (2000, 1999, Some(ObjectError::BadNames)),
    (2000, 2000, None),
    (70_000, 65_536, Some(ObjectError::BadNames)),
];

#[test]
fn a_name_that_stands_twice_among_many_is_refused(rt: HostRuntime) -> Result<(), Fail> {
    let alloc = rt.alloc();
    for (count, repeated, wanted) in TWICE {
        assert!(rt; refusal(alloc, *count, *repeated, true)? == *wanted);
        assert!(rt; refusal(alloc, *count, *repeated, false)? == *wanted);
    }
    Ok(())
}
