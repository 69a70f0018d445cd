//! What inputs need to be.
ghost use Rattle.std.specs.Prelude.{◌≡◌, Some, None, true, MatchOption, IfSome};
ghost use Rattle.dx_base.specs.ObjectLimits.{is_field, IsLawful};
ghost use Rattle.dx_objects.specs.Values.{value_at};
ghost use Rattle.dx_select.specs.Inputs as spec;
ghost use Rattle.dx_select.specs.Shown.{shown};

use dx_objects::{Object, Outs};
use std::rc::Rc;

pub(crate) const DATA: &[u8] = b"data";

/// The name under which the data of a marked field is kept.
pub(crate) const SAVED: &[u8] = b"saved data";

/// Input number i.
pub(crate) fn input(inputs: &Outs, i: usize) -> Option<&Rc<Object>>
    ensures { shown result ≡ value_at inputs.now i }
{
    inputs.value(i)
}

/// The name that an input is, if it is a text.
pub(crate) fn text_in(input: Option<&Rc<Object>>) -> Option<&[u8]>
    ensures { MatchOption result (spec.text_in (shown input.entry) ≡ None) (λ name. spec.text_in (shown input.entry) ≡ Some name.now) }
{
    match input {
        None => None,
        Some(object) => object.as_text(),
    }
}

/// The same, where NULL stands for `data`.
pub(crate) fn name_or_data(input: Option<&Rc<Object>>) -> Option<&[u8]>
    ensures { MatchOption result (spec.name_or_data (shown input.entry) ≡ None) (λ name. spec.name_or_data (shown input.entry) ≡ Some name.now) }
{
    match input {
        None => Some(DATA),
        Some(object) => object.as_text(),
    }
}

/// The input, if it is a field.
pub(crate) fn field_in(input: Option<&Rc<Object>>) -> Option<&Rc<Object>>
    ensures field { shown result ≡ spec.field_in (shown input.entry) }
    ensures kind { IfSome result (λ o. is_field o.now.value ≡ true) }
    ensures lawful { IfSome result (λ o. IsLawful o.now.value) }
{
    match input {
        Some(object) if object.is_field() => {
            // Asked so that the proof knows that the field can be made.
            let _size = object.size();
            Some(object)
        }
        _ => None,
    }
}
