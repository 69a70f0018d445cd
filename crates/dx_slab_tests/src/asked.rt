//! What Slab answers, as a text.
use dx_base::Bytes;
use dx_native_read::read_object;
use dx_native_write::write_object;
use dx_objects::{Array, Code, ElemType, Object, Outs, Parts, RunFail, Shape, Value, number};
use dx_slab::run_slab;
use std::alloc::Global;
use std::rc::Rc;
use std::test::Fail;

// An input of the call.
#[derive(Clone, Copy)]
pub(crate) enum Given<'a> {
    Null,
    Text(&'a str),
    Number(i64),
    /// A number as a constant of type unsigned int.
    Constant(i64),
    /// A vector of this value.
    Vector(i64),
}

fn constant(alloc: Global, n: i64) -> Result<Array, Fail> {
    let value = vec![in alloc; n]?;
    Ok(Array::constant(ElemType::UInt, Shape::new(alloc), 1, value)?)
}

fn vector(alloc: Global, n: i64) -> Result<Array, Fail> {
    let shape = Shape::from_vec(vec![in alloc; 1]?);
    Ok(Array::plain(ElemType::Int, shape, vec![in alloc; n]?)?)
}

fn shared(alloc: Global, array: Array) -> Result<Value, Fail> {
    let object = Object::array(array, Parts::new(alloc))?;
    Ok(Some(Rc::new(alloc, object)?))
}

fn value(alloc: Global, given: Given) -> Result<Value, Fail> {
    match given {
        Given::Null => Ok(None),
        Given::Number(n) => Ok(number(alloc, n)?),
        Given::Constant(n) => shared(alloc, constant(alloc, n)?),
        Given::Vector(n) => shared(alloc, vector(alloc, n)?),
        Given::Text(text) => {
            let bytes = Bytes::copy_of(alloc, text.as_bytes())?;
            let object = Object::text(bytes, Parts::new(alloc))?;
            Ok(Some(Rc::new(alloc, object)?))
        }
    }
}

// The object of a native text, and NULL of none.
fn read(alloc: Global, text: &str) -> Result<Value, Fail> {
    if text.is_empty() {
        return Ok(None);
    }
    match read_object(alloc, text.as_bytes(), None) {
        Ok(object) => Ok(Some(Rc::new(alloc, object)?)),
        Err(_) => Err(Fail::from("not read")),
    }
}

fn code_name(code: Code) -> &'static str {
    match code {
        Code::BadArgument => "BadArgument",
        Code::BadField => "BadField",
        Code::NotRegular => "NotRegular",
        Code::TooLarge => "TooLarge",
        _ => "another code",
    }
}

// Whether the one result has this canonical text.
fn is_object(alloc: Global, results: &Outs, text: &str) -> Result<bool, Fail> {
    let Some(object) = results.value(0) else {
        return Ok(false);
    };
    let written = write_object(alloc, object)?;
    Ok(results.len() == 1 && written.bytes() == text.as_bytes())
}

/// The slabs of the object of a native text.
pub(crate) fn slabs(
    alloc: Global,
    object: &str,
    given: [Given; 3],
) -> Result<Result<Outs, RunFail>, Fail> {
    let mut inputs = Outs::new(alloc);
    inputs.push(read(alloc, object)?)?;
    let [dimension, position, thickness] = given;
    inputs.push(value(alloc, dimension)?)?;
    inputs.push(value(alloc, position)?)?;
    inputs.push(value(alloc, thickness)?)?;
    if inputs.len() != 4 {
        return Err(Fail::from("not four inputs"));
    }
    Ok(run_slab(alloc, &inputs))
}

// Whether the slabs have this canonical text, or are refused with the code of this name.
fn answers(alloc: Global, object: &str, given: [Given; 3], wanted: &str) -> Result<bool, Fail> {
    match slabs(alloc, object, given)? {
        Ok(results) => is_object(alloc, &results, wanted),
        Err(RunFail::Code(code)) => Ok(code_name(code) == wanted),
        Err(RunFail::Memory) => Ok(false),
    }
}

/// Fails with what the first row wants that doesn't give it.
pub(crate) fn all_give(alloc: Global, rows: &[(&str, [Given<'_>; 3], &str)]) -> Result<(), Fail> {
    for (field, given, wanted) in rows {
        if !answers(alloc, field, *given, wanted)? {
            return Err(Fail::from(*wanted));
        }
    }
    Ok(())
}
