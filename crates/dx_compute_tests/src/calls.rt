//! The call of a row, and what it answers.
use crate::shown::push_object;
use crate::stock::value;
use dx_base::{Bytes, Code, Module, push_count};
use dx_compute::run_compute;
use dx_objects::{Object, Outs, Parts, RunFail, Value};
use std::alloc::{AllocError, Global};
use std::rc::Rc;
use std::test::Fail;

/// An expression, the names of its inputs, and the answer: an object, or a code.
pub(crate) type Row<'a> = (&'a str, &'a [&'a str], &'a str);

/// A text as a value.
pub(crate) fn text(alloc: Global, text: &str) -> Result<Value, Fail> {
    let bytes = Bytes::copy_of(alloc, text.as_bytes())?;
    let object = Object::text(bytes, Parts::new(alloc))?;
    Ok(Some(Rc::new(alloc, object)?))
}

fn word(code: Code) -> &'static str {
    match code {
        Code::BadArgument => "BadArgument",
        Code::Overflow => "Overflow",
        Code::DivisionByZero => "DivisionByZero",
        Code::ItemMismatch => "ItemMismatch",
        Code::BadExpression(_) => "BadExpression",
        Code::NoComponent => "NoComponent",
        Code::TooLarge => "TooLarge",
        _ => "another code",
    }
}

fn push_code(out: &mut Vec<u8>, code: Code) -> Result<(), AllocError> {
    out.extend_from_slice(word(code).as_bytes())?;
    if let Code::BadExpression(at) = code {
        out.push(b' ')?;
        push_count(out, at)?;
    }
    Ok(())
}

// The object that is the one result.
fn push_result(out: &mut Vec<u8>, results: &Outs) -> Result<(), AllocError> {
    if results.len() != 1 {
        out.extend_from_slice(b"no single result")?;
        return Ok(());
    }
    match results.value(0) {
        Some(object) => push_object(out, object),
        None => out.extend_from_slice(b"NULL"),
    }
}

/// What Compute answers for an expression and its inputs: the object, or the code.
pub(crate) fn answer(alloc: Global, inputs: &Outs) -> Result<Vec<u8>, Fail> {
    let mut found = Vec::new(alloc);
    if !Module::Compute.takes(inputs.len()) {
        return Ok(found);
    }
    match run_compute(alloc, inputs) {
        Ok(results) => push_result(&mut found, &results)?,
        Err(RunFail::Code(code)) => push_code(&mut found, code)?,
        Err(RunFail::Memory) => found.extend_from_slice(b"memory")?,
    }
    Ok(found)
}

/// The name of the code by which Compute refuses these inputs, or that it gives an object.
pub(crate) fn code(alloc: Global, inputs: &Outs) -> Result<&'static str, Fail> {
    if !Module::Compute.takes(inputs.len()) {
        return Ok("other inputs");
    }
    match run_compute(alloc, inputs) {
        Ok(_) => Ok("an object"),
        Err(RunFail::Code(code)) => Ok(word(code)),
        Err(RunFail::Memory) => Ok("memory"),
    }
}

/// Behind the expression the values of these names.
pub(crate) fn inputs(alloc: Global, expression: Value, names: &[&str]) -> Result<Outs, Fail> {
    let mut inputs = Outs::new(alloc);
    inputs.push(expression)?;
    for name in names {
        inputs.push(value(alloc, name)?)?;
    }
    Ok(inputs)
}

/// Fails at the first row whose answer is another, and names its expression.
pub(crate) fn check(alloc: Global, rows: &[Row<'_>]) -> Result<(), Fail> {
    for (expression, names, wanted) in rows {
        let inputs = inputs(alloc, text(alloc, expression)?, names)?;
        if answer(alloc, &inputs)?.as_slice() != wanted.as_bytes() {
            return Err(Fail::from(*expression));
        }
    }
    Ok(())
}
