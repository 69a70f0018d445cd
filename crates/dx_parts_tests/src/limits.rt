//! Objects near the limits of objects, each small in memory since its parts are shared.
use dx_base::Bytes;
use dx_objects::{Object, Part, Parts};
use std::alloc::Global;
use std::rc::Rc;
use std::test::Fail;

fn text(alloc: Global, len: usize) -> Result<Rc<Object>, Fail> {
    let bytes = Bytes::copy_of(alloc, &vec![in alloc; b'x'; len]?)?;
    Ok(Rc::new(alloc, Object::text(bytes, Parts::new(alloc))?)?)
}

// A group of so many members that are one object, and of another one.
fn group(
    alloc: Global,
    number: u32,
    object: &Rc<Object>,
    last: Rc<Object>,
) -> Result<Rc<Object>, Fail> {
    let mut parts = Parts::new(alloc);
    for _ in 0..number {
        parts.push(Part {
            name: None,
            position: 0,
            object: object.clone()?,
        })?;
    }
    parts.push(Part {
        name: None,
        position: 0,
        object: last,
    })?;
    Ok(Rc::new(alloc, Object::group(parts, Parts::new(alloc))?)?)
}

/// A group with a count of 1,010,101; an object has 1,048,576 at most.
pub(crate) fn many(alloc: Global) -> Result<Rc<Object>, Fail> {
    let mut object = text(alloc, 0)?;
    for _ in 0..3 {
        object = group(alloc, 99, &object, object.clone()?)?;
    }
    Ok(object)
}

/// An object of 64 levels, which are the most.
pub(crate) fn deep(alloc: Global) -> Result<Rc<Object>, Fail> {
    let mut object = text(alloc, 0)?;
    for _ in 1..64 {
        object = group(alloc, 0, &object, object.clone()?)?;
    }
    Ok(object)
}

/// A group with a stated size of 268,435,319. As the attribute `unit` of a byte that is the one component `data` of a field it
/// makes the field as large as an object can be, which is 268,435,456.
pub(crate) fn wide(alloc: Global) -> Result<Rc<Object>, Fail> {
    let kibibyte = text(alloc, 960)?;
    let quarter = group(alloc, 255, &kibibyte, text(alloc, 896)?)?;
    let last = group(alloc, 254, &kibibyte, text(alloc, 1719)?)?;
    group(alloc, 1023, &quarter, last)
}
