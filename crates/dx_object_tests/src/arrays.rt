//! Arrays at the limits of items and of values, and as objects.
use dx_objects::{Array, ArrayError, ElemType, Object, ObjectError, Parts, Shape};
use std::alloc::Global;
use std::test::Fail;

// The plain ints of this shape, all 0.
fn zeros(alloc: Global, extents: &[u32], values: usize) -> Result<Result<Array, ArrayError>, Fail> {
    let shape = Shape::from_vec(Vec::from_slice(alloc, extents)?);
    let values = vec![in alloc; 0; values]?;
    Ok(Array::plain(ElemType::Int, shape, values))
}

// Why so many values are no array, or no object; and else the stated size.
type Outcome = (Option<ArrayError>, Option<ObjectError>, u64);

fn outcome_of(alloc: Global, extents: &[u32], values: usize) -> Result<Outcome, Fail> {
    Ok(match zeros(alloc, extents, values)? {
        Err(refusal) => (Some(refusal), None, 0),
        Ok(array) => match Object::array(array, Parts::new(alloc)) {
            Err(refusal) => (None, Some(refusal), 0),
            Ok(object) => (None, None, object.size()),
        },
    })
}

const ROWS: &[(&[u32], usize, Outcome)] = &[
    (&[], 16_777_216, (None, None, 67_108_928)),
    (&[], 16_777_217, (Some(ArrayError::TooManyItems), None, 0)),
    (&[8], 67_108_848, (None, None, 268_435_456)),
    (&[8], 67_108_856, (None, Some(ObjectError::TooLarge), 0)),
];

#[test]
fn plain_ints_at_the_limits(rt: HostRuntime) -> Result<(), Fail> {
    for (extents, values, (no_array, no_object, size)) in ROWS {
        let outcome = outcome_of(rt.alloc(), extents, *values)?;
        assert!(rt; outcome.0 == *no_array && outcome.1 == *no_object && outcome.2 == *size);
    }
    Ok(())
}
