//! What Print prints.
ghost use Rattle.std.specs.Prelude.{◌≡◌, ◌++◌, length, OnOk, MatchResult, Ok, Err};
ghost use Rattle.dx_objects.specs.Values.{value_of};
ghost use Rattle.dx_print.specs.Printed as spec;
ghost use Rattle.dx_print.specs.Printed.{print_of};
ghost use Rattle.dx_print.specs.Results.{Prints, LacksRoomForText, shown};

use crate::detail::{Detail, detail_of};
use crate::item_lines::push_line;
use crate::parts::push_object;
use dx_base::{Bytes, Code};
use dx_objects::{Object, Outs, RunFail, Value};
use std::alloc::{AllocError, Global};

/// How many bytes of a text get room at first.
const ROOM: usize = 512;

/// What Print prints of its three inputs: object, options, component. The options are NULL, which is taken as `o`, or
/// a text of letters in any order and number: the header of the object is printed, with `D` also the items of an array, with
/// `d` of more than 50 the first 25, a line `...` and the last 25, and with `r` also its parts and attributes, to any
/// depth. The component is NULL or a text; where the object isn't NULL, its component or member of this name is printed in its
/// place. Each line ends with a newline.
///
/// BadArgument where the options are of another kind; then Unsupported where they have another letter; then BadArgument
/// where the component is of another kind; then NoComponent where an object has none of the name (User's Reference,
/// Print). A code comes also where there is no memory.
pub fn print_text(alloc: Global, inputs: &Outs) -> Result<Bytes, RunFail>
    requires { length inputs.now ≡ 3 }
    ensures prints { Prints (print_of inputs.now) result }
    ensures code_without_memory { LacksRoomForText (print_of inputs.now) result }
{
    let [object, options, component] = inputs.as_slice() else {
        unreachable!()
    };
    let detail = detail_of(options).map_err(RunFail::Code)?;
    let object = chosen(object, component).map_err(RunFail::Code)?;
    let mut text = Vec::with_capacity(alloc, ROOM)?;
    push_text(&mut text, object, detail)?;
    Ok(Bytes::from_vec(text))
}

// The object that is printed: the whole, or its component or member of the name that is asked for.
fn chosen<'a>(object: &'a Value, component: &Value) -> Result<Option<&'a Object>, Code>
    ensures { MatchResult result (λ v. spec.chosen (value_of object.now) (value_of component.now) ≡ Ok (shown v)) (λ code. spec.chosen (value_of object.now) (value_of component.now) ≡ Err code) }
{
    let Some(component) = component else {
        return Ok(object_in(object));
    };
    match component.as_text() {
        None => Err(Code::BadArgument),
        Some(name) => part_in(name, object),
    }
}

fn object_in(value: &Value) -> Option<&Object>
    ensures { shown result ≡ value_of value.now }
{
    match value {
        None => None,
        Some(object) => Some(object),
    }
}

// The component or the member of this name, and NULL of NULL.
fn part_in<'a>(name: &[u8], value: &'a Value) -> Result<Option<&'a Object>, Code>
    ensures { MatchResult result (λ v. spec.part_in name.now (value_of value.now) ≡ Ok (shown v)) (λ code. spec.part_in name.now (value_of value.now) ≡ Err code) }
{
    let Some(object) = value else {
        return Ok(None);
    };
    if let Some(part) = object.component(name) {
        return Ok(Some(part));
    }
    match object.member(name) {
        None => Err(Code::NoComponent),
        Some(part) => Ok(Some(part)),
    }
}

// The text of the object, or the line of NULL.
fn push_text(out: &mut Vec<u8>, object: Option<&Object>, detail: Detail) -> Result<(), AllocError>
    ensures { OnOk result (out.new.items ≡ out.old.items ++ spec.value_text detail (shown object.entry)) }
{
    match object {
        None => push_line(out, 0, b"NULL"),
        Some(object) => push_whole(out, object, detail),
    }
}

fn push_whole(out: &mut Vec<u8>, object: &Object, detail: Detail) -> Result<(), AllocError>
    ensures { OnOk result (out.new.items ≡ out.old.items ++ spec.text_at detail 0 object.now) }
{
    // Asked so that the proof knows that the indents stay small.
    let _levels = object.levels();
    push_object(out, object, detail, 0)
}
