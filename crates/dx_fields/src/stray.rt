//! Values that name no item.
ghost use Rattle.std.specs.Prelude.{◌≡◌, ℕ, ◌*◌, ◌<◌, ◌≤◌, true, None, Some};
ghost use Rattle.dx_base.specs.Array.{items, width};
ghost use Rattle.dx_arrays.specs.Classes.{plain_of};
ghost use Rattle.dx_fields.specs.Stray as spec;

use dx_arrays::{Values, point_count};
use dx_objects::{Array, ArrayClass};

/// The number of the first value of an array that names none of so many items, the values counted item by item from 0.
pub(crate) fn first_stray(array: &Array, items: u64) -> Option<u64>
    ensures { result ≡ spec.first_stray array.now items }
{
    match array.plain_values() {
        Some(Values::Wide(values)) => first_stored_stray(array, values, items),
        Some(Values::Ints(values)) => first_stray_int(array, values, items),
        None => first_told_stray(array, items),
    }
}

// Of an array whose values are told by a few.
fn first_told_stray(array: &Array, items: u64) -> Option<u64>
    ensures { result ≡ spec.first_stray array.now items }
{
    if joins_few(array, items) {
        return None;
    }
    first_stray_by_number(array, items)
}

// Whether the array is the cells of a grid of at most so many points: the corners of a cell are points, so none of them is
// astray.
fn joins_few(array: &Array, items: u64) -> bool
    ensures { result ≡ true → spec.first_stray array.now items ≡ None }
{
    // Asked so that the proof knows that the array can be made.
    let _items = array.items();
    match array.class() {
        // The greatest number stands for all greater ones.
        ArrayClass::GridConnections => items < u64::MAX && point_count(array.counts()) <= items,
        _ => false,
    }
}

fn names_item(items: u64, value: i64) -> bool
    ensures { result ≡ spec.names_item items value }
{
    0 <= value && (value as i128) < items as i128
}

// Of a plain array, which stores these values in 8 bytes each.
fn first_stored_stray(array: &Array, values: &[i64], items: u64) -> Option<u64>
    requires { plain_of array.now.class ≡ Some values.now }
    ensures { result ≡ spec.first_stray array.now items }
{
    let _items = array.items();
    for (i, value) in values.iter().enumerate() {
        if !names_item(items, *value) {
            return Some(i as u64);
        }
    }
    None
}

// Of a plain array, which stores these ints in 4 bytes each.
fn first_stray_int(array: &Array, values: &[i32], items: u64) -> Option<u64>
    requires { plain_of array.now.class ≡ Some values.now }
    ensures { result ≡ spec.first_stray array.now items }
{
    let _items = array.items();
    for (number, value) in values.iter().enumerate() {
        if !names_item(items, i64::from(*value)) {
            return Some(number as u64);
        }
    }
    None
}

// How many of an array's first items tell of all: those of a constant array are equal, so one does.
fn telling_items(array: &Array) -> u64
    ensures within { result ≤ items array.now }
    ensures tell { (n : ℕ) → spec.stray_from array.now n 0 (result * width array.now) ≡ spec.first_stray array.now n }
{
    let items = array.items();
    match array.class() {
        ArrayClass::Constant => items.min(1),
        _ => items,
    }
}

fn first_stray_by_number(array: &Array, items: u64) -> Option<u64>
    ensures { result ≡ spec.first_stray array.now items }
{
    let width = array.width();
    for i in 0..telling_items(array) * width {
        if !names_item(items, array.value(i / width, i % width)) {
            return Some(i);
        }
    }
    None
}
