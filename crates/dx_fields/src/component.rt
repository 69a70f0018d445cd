//! What is wrong with one component of a field.
ghost use Rattle.std.specs.Prelude.{◌≡◌, ◌<◌, ◌≤◌, None, Some, MatchOption};
ghost use Rattle.dx_base.specs.Object.{attributes};
ghost use Rattle.dx_base.specs.ObjectNames.{find};
ghost use Rattle.dx_fields.specs.Faults as spec;
ghost use Rattle.dx_fields.specs.References as references;
ghost use Rattle.dx_fields.specs.References.{dep_name, ref_name, target};
ghost use Rattle.dx_objects.specs.Kinds.{text_of};

use crate::check::FieldFault;
use crate::stray::first_stray;
use dx_objects::{Array, Object};
use std::rc::Rc;

pub(crate) fn component_fault(component: &Object, field: &Object) -> Option<FieldFault>
    ensures { result ≡ spec.component_fault component.now field.now }
{
    let array = component.as_array()?;
    match dep_fault(component, array, field) {
        None => ref_fault(component, array, field),
        Some(fault) => Some(fault),
    }
}

// Whether what it depends on has as many items.
fn dep_fault(component: &Object, array: &Array, field: &Object) -> Option<FieldFault>
    ensures { result ≡ spec.dep_fault array.now (target (find dep_name (attributes component.now)) field.now) }
{
    let value = component.attribute(b"dep")?;
    let Some(other) = named(value, field) else {
        return Some(FieldFault::DepMissing);
    };
    let (own, items) = (array.items(), item_count(other));
    if own == items {
        None
    } else {
        Some(FieldFault::CountMismatch(own, items))
    }
}

// Whether its values name items of what it refers to.
fn ref_fault(component: &Object, array: &Array, field: &Object) -> Option<FieldFault>
    ensures { result ≡ spec.ref_fault array.now (target (find ref_name (attributes component.now)) field.now) }
{
    let value = component.attribute(b"ref")?;
    let Some(other) = named(value, field) else {
        return Some(FieldFault::DepMissing);
    };
    let stray = first_stray(array, item_count(other))?;
    Some(FieldFault::RefOutOfRange(stray))
}

// The component that this value of an attribute names.
fn named<'a>(value: &Object, field: &'a Object) -> Option<&'a Rc<Object>>
    ensures { MatchOption result (references.named (text_of value.now) field.now ≡ None) (λ o. references.named (text_of value.now) field.now ≡ Some o.now.value) }
{
    match value.as_text() {
        None => None,
        Some(name) => field.component(name),
    }
}

fn item_count(component: &Object) -> u64
    ensures { result ≡ references.item_count component.now }
{
    match component.as_array() {
        None => 0,
        Some(array) => array.items(),
    }
}
