//! Export: an object, a name that isn't empty, and a format.
ghost use Rattle.std.specs.Prelude.{◌≡◌, length, Some, None, Ok, Err, MatchResult};
ghost use Rattle.std.specs.Option.{option_copied};
ghost use Rattle.dx_objects.specs.Values.{value_of};
ghost use Rattle.dx_performing.specs.Acts as spec;
ghost use Rattle.dx_acts.specs.Answers.{DoesSo};

use crate::act::Act;
use dx_base::{Bytes, Code};
use dx_objects::{Object, Outs, RunFail, Value};
use std::alloc::Global;
use std::rc::Rc;

/// The text that a value is.
pub(crate) fn text_in(value: &Value) -> Option<&[u8]>
    ensures { option_copied result ≡ spec.text_in (value_of value.now) }
{
    match value {
        None => None,
        Some(object) => object.as_text(),
    }
}

fn object_in(value: &Value) -> Result<&Rc<Object>, Code>
    ensures { MatchResult result (λ o. spec.object_in (value_of value.now) ≡ Ok o.now.value) (λ code. spec.object_in (value_of value.now) ≡ Err code) }
{
    match value {
        None => Err(Code::BadArgument),
        Some(object) => Ok(object),
    }
}

fn name_in(value: &Value) -> Result<&[u8], Code>
    ensures { MatchResult result (λ name. spec.name_in (spec.text_in (value_of value.now)) ≡ Ok name.now) (λ code. spec.name_in (spec.text_in (value_of value.now)) ≡ Err code) }
{
    match text_in(value) {
        None => Err(Code::BadArgument),
        Some(name) => {
            if name.is_empty() {
                Err(Code::BadArgument)
            } else {
                Ok(name)
            }
        }
    }
}

// The code of a format that isn't taken.
fn format_code(value: &Value) -> Option<Code>
    ensures { result ≡ spec.format_code (value_of value.now) }
{
    match value {
        None => None,
        Some(object) => match object.as_text() {
            None => Some(Code::BadArgument),
            Some(text) => {
                if text == b"dx".as_slice() {
                    None
                } else {
                    Some(Code::Unsupported)
                }
            }
        },
    }
}

/// The object that is put under a name. Its text is made where it is put.
pub(crate) fn export_of(alloc: Global, values: &Outs) -> Result<Act, RunFail>
    requires { length values.now ≡ 3 }
    ensures { DoesSo (spec.export_of values.now) result }
{
    let [object, name, format] = values.as_slice() else {
        unreachable!()
    };
    let object = object_in(object).map_err(RunFail::Code)?;
    let name = name_in(name).map_err(RunFail::Code)?;
    match format_code(format) {
        Some(code) => Err(RunFail::Code(code)),
        None => Ok(Act::Puts(Bytes::copy_of(alloc, name)?, object.clone()?)),
    }
}
