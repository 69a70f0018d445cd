//! Values that are handed to modules.
use crate::described::{Body, Items, alone, field};
use dx_arrays::ElemType;
use dx_objects::{Outs, Value};
use std::alloc::Global;
use std::test::Fail;

/// An input of a call.
#[derive(Clone, Copy)]
pub(crate) enum Sample<'a> {
    Null,
    Text(&'a [u8]),
    Numbers(ElemType, &'a [i64]),
    Vectors(&'a [i64]),
    Line(u64, i64, i64),
    /// A field whose component of this name has these numbers.
    Field(&'a str, &'a [i64]),
    Group,
    Composite,
    Series,
}

pub(crate) fn value(alloc: Global, sample: Sample) -> Result<Value, Fail> {
    let body = match sample {
        Sample::Null => return Ok(None),
        Sample::Field(name, values) => return field(alloc, name, values),
        Sample::Text(text) => Body::Text(text),
        Sample::Numbers(elem, values) => Body::Array(Items::Plain(elem, &[], values)),
        Sample::Vectors(values) => Body::Array(Items::Plain(ElemType::Int, &[2], values)),
        Sample::Line(items, origin, delta) => Body::Array(Items::Line(items, origin, delta)),
        Sample::Group => Body::Group,
        Sample::Composite => Body::Composite,
        Sample::Series => Body::Series,
    };
    alone(alloc, body)
}

pub(crate) fn inputs_of(alloc: Global, samples: &[Sample]) -> Result<Outs, Fail> {
    let mut inputs = Outs::new(alloc);
    for sample in samples {
        inputs.push(value(alloc, *sample)?)?;
    }
    Ok(inputs)
}
