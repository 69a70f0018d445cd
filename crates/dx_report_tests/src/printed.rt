//! What Print writes of a value.
use crate::described::{Body, alone, copied};
use dx_base::{Bytes, Code};
use dx_objects::{Outs, Value};
use dx_print::{RunFail, print_text};
use std::alloc::Global;
use std::test::Fail;

fn text_of(alloc: Global, text: Option<&str>) -> Result<Value, Fail> {
    match text {
        None => Ok(None),
        Some(text) => alone(alloc, Body::Text(text.as_bytes())),
    }
}

fn is_refusal(fail: RunFail, name: &str) -> bool {
    match fail {
        RunFail::Code(Code::NoComponent) => name == "NoComponent",
        RunFail::Code(Code::Unsupported) => name == "Unsupported",
        _ => false,
    }
}

/// What Print prints of a value with these options and this component, or why it prints nothing.
pub(crate) fn printed(
    alloc: Global,
    object: &Value,
    options: Option<&str>,
    component: Option<&str>,
) -> Result<Result<Bytes, RunFail>, Fail> {
    let mut inputs = Outs::new(alloc);
    inputs.push(copied(object)?)?;
    inputs.push(text_of(alloc, options)?)?;
    inputs.push(text_of(alloc, component)?)?;
    if inputs.len() != 3 {
        return Err(Fail::from("other inputs"));
    }
    Ok(print_text(alloc, &inputs))
}

/// Whether Print prints this of a value with these options and this component, or refuses it by the code of this name.
pub(crate) fn prints(
    alloc: Global,
    object: &Value,
    options: Option<&str>,
    component: Option<&str>,
    wanted: &str,
) -> Result<bool, Fail> {
    match printed(alloc, object, options, component)? {
        Ok(text) => Ok(text.bytes() == wanted.as_bytes()),
        Err(fail) => Ok(is_refusal(fail, wanted)),
    }
}
