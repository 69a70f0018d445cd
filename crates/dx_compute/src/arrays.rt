//! The arrays that inputs stand for, and how many items they have.
ghost use Rattle.std.specs.Prelude.{◌≡◌, ◌≤◌, true, Some, Ok, Err, IfSome};
ghost use Rattle.dx_base.specs.Answers.{IsEither};
ghost use Rattle.dx_base.specs.ArrayLimits.{is_shape, max_items};
ghost use Rattle.dx_base.specs.ObjectNames.{component};
ghost use Rattle.dx_compute_meaning.specs.Arrays as spec;
ghost use Rattle.dx_compute_meaning.specs.Operands.{are_all};
ghost use Rattle.dx_compute_meaning.specs.Shown.{shown, shown_one, shown_arrays, shown_array, code_in, all_shaped};

use dx_arrays::Array;
use dx_base::{Code, Items};
use dx_objects::{Kind, Object, RunFail};
use std::alloc::Global;

/// The component of a field that stands for it.
pub(crate) const DATA: &[u8] = b"data";

fn data_of(object: &Object) -> Option<&Object>
    ensures { shown_one result ≡ component spec.data_name object.now }
{
    match object.component(DATA) {
        None => None,
        Some(data) => Some(data),
    }
}

/// The object that an input stands for: a field for its component `data`, and an array for itself.
pub(crate) fn standing_for(object: &Object) -> Option<&Object>
    ensures { shown_one result ≡ spec.stands_for object.now }
{
    match object.kind() {
        Kind::Array => Some(object),
        Kind::Field => data_of(object),
        _ => None,
    }
}

/// Its array, if it is one.
pub(crate) fn array_in(object: Option<&Object>) -> Option<&Array>
    ensures { shown_array result ≡ spec.array_in (shown_one object.entry) }
{
    match object {
        None => None,
        Some(object) => object.as_array(),
    }
}

fn array_for(operand: Option<&Object>) -> Result<Option<&Array>, RunFail>
    ensures { IsEither code_in (λ a. spec.array_for (shown_one operand.entry) ≡ Ok (shown_array a)) (λ code. spec.array_for (shown_one operand.entry) ≡ Err code) result }
{
    let Some(object) = operand else {
        return Ok(None);
    };
    match array_in(standing_for(object)) {
        None => Err(RunFail::Code(Code::NoComponent)),
        Some(array) => Ok(Some(array)),
    }
}

/// The arrays that the inputs stand for, in order, and none in the place of an input that doesn't occur. A field
/// without an array `data` is NoComponent.
pub(crate) fn arrays_for<'a>(
    alloc: Global,
    operands: &[Option<&'a Object>],
) -> Result<Items<Option<&'a Array>>, RunFail>
    ensures { IsEither code_in (λ found. spec.arrays_for (shown operands.now) ≡ Ok (shown_arrays found)) (λ code. spec.arrays_for (shown operands.now) ≡ Err code) result }
{
    let mut found = Items::new(alloc);
    for operand in operands {
        let array = array_for(*operand)?;
        found.push(array)?;
    }
    Ok(found)
}

#[tactic(auto, using(dx_compute_meaning::proofs::Codes::items_few))]
fn other_count(array: Option<&Array>) -> Option<u64>
    ensures count { result ≡ spec.other_count (shown_array array.entry) }
    ensures few { IfSome result (λ n. n ≤ max_items) }
{
    match array {
        None => None,
        Some(array) => {
            let items = array.items();
            if items == 1 { None } else { Some(items) }
        }
    }
}

/// How many items the result has: as many as the arrays that have other than one, or one where there are none such.
pub(crate) fn item_count(arrays: &[Option<&Array>]) -> u64
    ensures count { result ≡ spec.item_count (shown_arrays arrays.now) }
    ensures few { result ≤ max_items }
{
    for array in arrays {
        if let Some(items) = other_count(*array) {
            return items;
        }
    }
    1
}

fn fits(array: Option<&Array>, items: u64) -> bool
    ensures fits { result ≡ spec.fits_in items (spec.other_count (shown_array array.entry)) }
    ensures shape { is_shape (spec.shape_in (shown_array array.entry)) ≡ true }
{
    match array {
        None => true,
        Some(array) => has_one_or(array, items),
    }
}

#[tactic(auto, using(dx_compute_meaning::proofs::Codes::lawful_shape))]
fn has_one_or(array: &Array, items: u64) -> bool
    ensures fits { result ≡ spec.fits_in items (spec.other_count (Some array.now)) }
    ensures shape { is_shape array.now.extents ≡ true }
{
    let own = array.items();
    own == 1 || own == items
}

/// Whether each array that has other than one item has so many. All of them have shapes then.
pub(crate) fn are_alike(arrays: &[Option<&Array>], items: u64) -> bool
    ensures alike { result ≡ are_all items (spec.item_counts (shown_arrays arrays.now)) }
    ensures shapes { result ≡ true → all_shaped (shown_arrays arrays.now) ≡ true }
{
    for array in arrays {
        if !fits(*array, items) {
            return false;
        }
    }
    true
}
