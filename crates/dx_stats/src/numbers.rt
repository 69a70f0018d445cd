//! The array of numbers that an input stands for.
ghost use Rattle.std.specs.Prelude.{◌≡◌, ◌<◌, [], IfOk, MatchResult, Ok, Err};
ghost use Rattle.dx_base.specs.Array.{items};
ghost use Rattle.dx_objects.specs.Values.{value_at};
ghost use Rattle.dx_stats.specs.Numbers as spec;

use dx_arrays::Array;
use dx_base::Code;
use dx_objects::{Object, Outs};

/// The array of numbers that the first input stands for: an array of rank 0 with an item, or such a component `data` of
/// a field. A field without that component is NoComponent, and anything else BadArgument.
pub(crate) fn numbers_in(inputs: &Outs) -> Result<&Array, Code>
    ensures answer { MatchResult result (λ a. spec.numbers_in (value_at inputs.now 0) ≡ Ok a.now) (λ code. spec.numbers_in (value_at inputs.now 0) ≡ Err code) }
    ensures single { IfOk result (λ a. a.now.extents ≡ []) }
    ensures some { IfOk result (λ a. 0 < items a.now) }
{
    let Some(object) = inputs.value(0) else {
        return Err(Code::BadArgument);
    };
    let array = array_in(object)?;
    if has_numbers(array) {
        Ok(array)
    } else {
        Err(Code::BadArgument)
    }
}

fn array_in(object: &Object) -> Result<&Array, Code>
    ensures { MatchResult result (λ a. spec.in_object object.now ≡ Ok a.now) (λ code. spec.in_object object.now ≡ Err code) }
{
    if let Some(array) = object.as_array() {
        return Ok(array);
    }
    if !object.is_field() {
        return Err(Code::BadArgument);
    }
    match object.component(b"data") {
        None => Err(Code::NoComponent),
        Some(data) => match data.as_array() {
            None => Err(Code::NoComponent),
            Some(array) => Ok(array),
        },
    }
}

fn has_numbers(array: &Array) -> bool
    ensures { result ≡ spec.has_numbers array.now }
{
    array.extents().len() == 0 && 0 < array.items()
}
