//! The answer over arrays and fields: an array by itself, or in the place of the data of the first field.
ghost use Rattle.std.specs.Prelude.{◌≡◌, true, ℕ, Some, None, IfOk};
ghost use Rattle.dx_base.specs.Answers.{Answers};
ghost use Rattle.dx_base.specs.Array.{ArrayData};
ghost use Rattle.dx_base.specs.ObjectLimits.{is_array, is_field as spec_is_field};
ghost use Rattle.dx_objects.specs.Kinds.{array_of};
ghost use Rattle.dx_expr_bounds.specs.Bounds.{is_bounded};
ghost use Rattle.dx_compute_meaning.specs.Answered.{Answered};
ghost use Rattle.dx_compute_meaning.specs.Compute as spec;
ghost use Rattle.dx_compute_meaning.specs.Shown.{shown, shown_one, code_in, IsFound};

use crate::arrays::{DATA, array_in, arrays_for, item_count, standing_for};
use crate::compute::computed;
use dx_arrays::Array;
use dx_base::{Bytes, Code};
use dx_expr::Expression;
use dx_objects::{Kind, Object, Parts, RunFail, WithError};
use std::alloc::{AllocError, Global};
use std::rc::Rc;

fn as_field<'a>(operand: Option<&'a Object>) -> Option<&'a Object>
    ensures { shown_one result ≡ spec.as_field (shown_one operand.entry) }
{
    match operand {
        Some(object) if object.kind() == Kind::Field => Some(object),
        _ => None,
    }
}

fn first_field<'a>(operands: &[Option<&'a Object>]) -> Option<&'a Object>
    ensures { shown_one result ≡ spec.first_field (shown operands.now) }
{
    for operand in operands {
        if let Some(field) = as_field(*operand) {
            return Some(field);
        }
    }
    None
}

/// The object, shared.
pub(crate) fn shared(alloc: Global, object: Object) -> Result<Rc<Object>, AllocError>
    ensures { IfOk result (λ o. o.value ≡ object) }
{
    Ok(Rc::new(alloc, object)?)
}

// The array as an object, where it isn't too large for one.
fn alone(alloc: Global, array: Option<Array>) -> Result<Object, RunFail>
    ensures { (n : ℕ) (there : Answered ArrayData) → IsFound there array → Answers code_in (spec.finished n None there) result }
{
    let Some(array) = array else {
        return Err(RunFail::Code(Code::TooLarge));
    };
    match Object::array(array, Parts::new(alloc)) {
        Ok(object) => Ok(object),
        Err(_) => Err(RunFail::Code(Code::TooLarge)),
    }
}

// The field with this array in the place of its data, the attributes of which stay.
fn replaced(alloc: Global, array: Array, before: &Object, whole: &Object) -> Result<Object, RunFail>
    requires before { is_array before.now ≡ true }
    requires whole { spec_is_field whole.now ≡ true }
    ensures { Answers code_in (spec.limited (spec.with_data array before.now whole.now)) result }
{
    // Asked so that the proof knows that the data can be made.
    let _size = before.size();
    let attributes = Parts::copy_of(alloc, before.attributes())?;
    let Ok(data) = Object::array(array, attributes) else {
        return Err(RunFail::Code(Code::TooLarge));
    };
    let name = Bytes::copy_of(alloc, DATA)?;
    match whole.with_component(alloc, &name, shared(alloc, data)?) {
        Ok(object) => Ok(object),
        Err(WithError::TooLarge) => Err(RunFail::Code(Code::TooLarge)),
        Err(WithError::Memory) => Err(RunFail::Memory),
        Err(_) => unreachable!(),
    }
}

fn has_items(object: &Object, items: u64) -> bool
    ensures { result ≡ spec.has_items items (array_of object.now) }
{
    match object.as_array() {
        None => false,
        Some(array) => array.items() == items,
    }
}

fn in_field(
    alloc: Global,
    items: u64,
    array: Option<Array>,
    whole: &Object,
) -> Result<Object, RunFail>
    requires { spec_is_field whole.now ≡ true }
    ensures { (there : Answered ArrayData) → IsFound there array → Answers code_in (spec.finished items (Some whole.now) there) result }
{
    let Some(before) = standing_for(whole) else {
        return Err(RunFail::Code(Code::NoComponent));
    };
    if !has_items(before, items) {
        return Err(RunFail::Code(Code::ItemMismatch));
    }
    match array {
        None => Err(RunFail::Code(Code::TooLarge)),
        Some(array) => replaced(alloc, array, before, whole),
    }
}

fn placed(
    alloc: Global,
    items: u64,
    array: Option<Array>,
    operands: &[Option<&Object>],
) -> Result<Object, RunFail>
    ensures { (there : Answered ArrayData) → IsFound there array → Answers code_in (spec.finished items (spec.first_field (shown operands.now)) there) result }
{
    match first_field(operands) {
        None => alone(alloc, array),
        Some(whole) => in_field(alloc, items, array, whole),
    }
}

/// The answer where no input that occurs is a group or series: an array, or the first field with its data replaced.
pub(crate) fn over_arrays(
    alloc: Global,
    e: &Expression,
    operands: &[Option<&Object>],
) -> Result<Object, RunFail>
    requires { is_bounded e.now ≡ true }
    ensures { Answers code_in (spec.over_arrays e.now (shown operands.now)) result }
{
    let arrays = arrays_for(alloc, operands)?;
    let items = item_count(arrays.as_slice());
    let array = computed(alloc, e, arrays.as_slice(), items)?;
    placed(alloc, items, array, operands)
}
