//! Headers of values.
ghost use Rattle.std.specs.Prelude.{◌≡◌, ◌++◌, OnOk};
ghost use Rattle.std.specs.Fmt.{decimal};
ghost use Rattle.dx_base.specs.Object.{part_count, parts};
ghost use Rattle.dx_objects.specs.Values.{value_of};
ghost use Rattle.dx_print.specs.Header as spec;

use dx_arrays::{Array, ArrayClass};
use dx_base::{push_count, push_counts_behind, push_quoted};
use dx_objects::{Kind, Object, Value};
use std::alloc::AllocError;

/// The header of a value: `NULL`, the class, type, shape and number of items of an array, a text in quotes, or the
/// number of an object's components or members.
pub(crate) fn push_header(out: &mut Vec<u8>, value: &Value) -> Result<(), AllocError>
    ensures { OnOk result (out.new.items ≡ out.old.items ++ spec.header (value_of value.now)) }
{
    match value {
        None => out.extend_from_slice(b"NULL"),
        Some(object) => push_object_header(out, object),
    }
}

/// The header of an object.
#[tactic(auto, using(crate::proofs::Headers::headers))]
pub(crate) fn push_object_header(out: &mut Vec<u8>, object: &Object) -> Result<(), AllocError>
    ensures { OnOk result (out.new.items ≡ out.old.items ++ spec.object_header object.now) }
{
    if let Some(array) = object.as_array() {
        return push_array_header(out, array);
    }
    if let Some(text) = object.as_text() {
        out.extend_from_slice(b"text ")?;
        return push_quoted(out, text);
    }
    match object.kind() {
        Kind::Field => push_counted(out, object, b"field ", b" components"),
        Kind::Group => push_counted(out, object, b"group ", b" members"),
        Kind::Series => push_counted(out, object, b"series ", b" members"),
        Kind::Array | Kind::Text => unreachable!(),
    }
}

// The number of components or members, between two words.
fn push_counted(
    out: &mut Vec<u8>,
    object: &Object,
    before: &[u8],
    behind: &[u8],
) -> Result<(), AllocError>
    ensures { OnOk result (out.new.items ≡ out.old.items ++ (before.now ++ decimal (part_count (parts object.now)) ++ behind.now)) }
{
    out.extend_from_slice(before)?;
    push_count(out, count_of_parts(object))?;
    out.extend_from_slice(behind)
}

fn count_of_parts(object: &Object) -> u64
    ensures { result ≡ part_count (parts object.now) }
{
    object.parts().len() as u64
}

/// `array CLASS TYPE rank R`, the shape where R is above 0, and `items N`.
pub(crate) fn push_array_header(out: &mut Vec<u8>, array: &Array) -> Result<(), AllocError>
    ensures { OnOk result (out.new.items ≡ out.old.items ++ spec.array_header array.now) }
{
    out.extend_from_slice(b"array ")?;
    out.extend_from_slice(class_word(array.class()))?;
    out.push(b' ')?;
    out.extend_from_slice(array.elem().word())?;
    out.extend_from_slice(b" rank ")?;
    push_count(out, array.extents().len() as u64)?;
    push_shape(out, array.extents())?;
    out.extend_from_slice(b" items ")?;
    push_count(out, array.items())
}

// The shape, where there are extents.
fn push_shape(out: &mut Vec<u8>, extents: &[u32]) -> Result<(), AllocError>
    ensures { OnOk result (out.new.items ≡ out.old.items ++ spec.shape_text extents.now) }
{
    if extents.is_empty() {
        return Ok(());
    }
    out.extend_from_slice(b" shape")?;
    push_counts_behind(out, extents)
}

fn class_word(class: ArrayClass) -> &'static [u8]
    ensures { result.now ≡ spec.class_word class }
{
    match class {
        ArrayClass::Plain => b"plain",
        ArrayClass::Constant => b"constant",
        ArrayClass::Regular => b"regular",
        ArrayClass::GridPositions => b"gridpositions",
        ArrayClass::GridConnections => b"gridconnections",
    }
}
