//! The values of attributes that stand in the attribute's own line.
ghost use Rattle.std.specs.Prelude.{◌≡◌, is_some, MatchOption, Some, None};
ghost use Rattle.dx_native_text.specs.Inline.{inline_of, as_text, as_number, int_of as spec_int_of};
ghost use Rattle.dx_native_write.specs.Inlines.{text_in, number_in, int_in};
ghost use Rattle.dx_objects.specs.Kinds.{array_of};

use dx_arrays::{Array, ElemType, Values};
use dx_objects::Object;

/// The bytes of a text without attributes.
#[tactic(auto, using(crate::proofs::InlineLaws::inline_texts))]
pub(crate) fn inline_text(object: &Object) -> Option<&[u8]>
    ensures { MatchOption result (text_in (inline_of object.now) ≡ None) (λ text. inline_of object.now ≡ Some (as_text text.now)) }
{
    match object.attributes() {
        [] => object.as_text(),
        _ => None,
    }
}

/// The value of a plain number of type int without attributes.
#[tactic(auto, using(crate::proofs::InlineLaws::inline_numbers))]
pub(crate) fn inline_number(object: &Object) -> Option<i64>
    ensures { MatchOption result (number_in (inline_of object.now) ≡ None) (λ number. inline_of object.now ≡ Some (as_number number)) }
{
    match object.attributes() {
        [] => own_number(object),
        _ => None,
    }
}

// The same, whatever attributes there are.
fn own_number(object: &Object) -> Option<i64>
    ensures { result ≡ int_in (array_of object.now) }
{
    match object.as_array() {
        Some(array) => int_of(array),
        None => None,
    }
}

// The one value of a plain array of type int and rank 0.
fn int_of(array: &Array) -> Option<i64>
    ensures { result ≡ spec_int_of array.now.elem array.now.extents array.now.class }
{
    if array.elem() != ElemType::Int || !array.extents().is_empty() {
        return None;
    }
    match array.plain_values() {
        Some(Values::Ints([value])) => Some(i64::from(*value)),
        Some(Values::Wide([value])) => Some(*value),
        _ => None,
    }
}

/// Whether the value of an attribute stands in the attribute's own line.
#[tactic(auto, using(crate::proofs::InlineLaws::inline_tests))]
pub(crate) fn is_inline(object: &Object) -> bool
    ensures { result ≡ is_some (inline_of object.now) }
{
    inline_text(object).is_some() || inline_number(object).is_some()
}
