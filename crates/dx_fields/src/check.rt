//! What is wrong with a field.
ghost use Rattle.std.specs.Prelude.{◌≡◌, None, Some, MatchResult};
ghost use Rattle.dx_fields.specs.Faults.{field_fault, first_fault};
ghost use Rattle.dx_objects.specs.Shown.{parts_of};

use crate::component::component_fault;
use dx_objects::{Kind, Object, Part};
use thiserror::Error;

/// What a component of a field refers to wrongly.
#[derive(Clone, Copy, Debug, PartialEq, Eq, Error)]
pub enum FieldFault {
    /// Its attribute `dep` or `ref` is no text, or names no component.
    #[error("an attribute names no component")]
    DepMissing,
    /// It has this number of items, and the component that it depends on that one.
    #[error("{0} items depend on {1}")]
    CountMismatch(u64, u64),
    /// The first of its values that names no item of the component that it refers to has this number, counted item by
    /// item from 0.
    #[error("value number {0} names no item")]
    RefOutOfRange(u64),
}

/// The first fault of a field: its components are taken in order, and of each the attribute `dep` before `ref`. It
/// takes no memory. An object that is no field has no fault.
pub fn check_field(object: &Object) -> Result<(), FieldFault>
    ensures { MatchResult result (λ _. field_fault object.now ≡ None) (λ fault. field_fault object.now ≡ Some fault) }
{
    if object.kind() != Kind::Field {
        return Ok(());
    }
    match first_fault(object.parts(), object) {
        None => Ok(()),
        Some(fault) => Err(fault),
    }
}

fn first_fault(components: &[Part], field: &Object) -> Option<FieldFault>
    ensures { result ≡ first_fault (parts_of components.now) field.now }
{
    for part in components {
        if let Some(fault) = component_fault(&part.object, field) {
            return Some(fault);
        }
    }
    None
}
