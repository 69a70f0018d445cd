//! The lines of one object, without those of the objects below it.
ghost use Rattle.std.specs.Prelude.{◌≡◌, ◌++◌, OnOk, length, codes, true};
ghost use Rattle.std.specs.Fmt.{decimal};
ghost use Rattle.dx_base.specs.Object.{parts, part_count};
ghost use Rattle.dx_native_text.specs.Lines.{spelled};
ghost use Rattle.dx_native_write.specs.Numbered.{body_lines};
ghost use Rattle.dx_native_write.specs.Bodies.{array_behind, text_behind, has_parts, class_behind, listing_of as spec_listing_of};

use crate::array_lines::push_class_lines;
use crate::class_line::push_class_words;
use crate::listing::push_entries;
use dx_arrays::Array;
use dx_base::{push_count, push_quoted};
use dx_native_text::Listing;
use dx_objects::{Kind, Object};
use std::alloc::AllocError;

/// The lines of an object of this number, whose parts have these numbers, but for its attributes.
#[tactic(auto, using(crate::proofs::BodyLines::body_texts))]
pub(crate) fn push_body(
    out: &mut Vec<u8>,
    object: &Object,
    number: u64,
    numbers: &[u64],
) -> Result<(), AllocError>
    requires { length numbers.now ≡ part_count (parts object.now) }
    ensures { OnOk result (out.new.items ≡ out.old.items ++ spelled (body_lines object.now number numbers.now)) }
{
    push_start(out, number)?;
    if let Some(array) = object.as_array() {
        return push_array(out, array);
    }
    if let Some(text) = object.as_text() {
        return push_text(out, text);
    }
    let parts = object.parts();
    out.extend_from_slice(class_word(object))?;
    push_entries(out, listing_of(object), parts, numbers)
}

// `object N class`.
fn push_start(out: &mut Vec<u8>, number: u64) -> Result<(), AllocError>
    ensures { OnOk result (out.new.items ≡ out.old.items ++ (codes "object " ++ (decimal number ++ codes " class"))) }
{
    out.extend_from_slice(b"object ")?;
    push_count(out, number)?;
    out.extend_from_slice(b" class")
}

// An array behind `class`.
fn push_array(out: &mut Vec<u8>, array: &Array) -> Result<(), AllocError>
    ensures { OnOk result (out.new.items ≡ out.old.items ++ array_behind array.now) }
{
    push_class_words(out, array)?;
    out.push(b'\n')?;
    push_class_lines(out, array)
}

// A text behind `class`.
fn push_text(out: &mut Vec<u8>, text: &[u8]) -> Result<(), AllocError>
    ensures { OnOk result (out.new.items ≡ out.old.items ++ text_behind text.now) }
{
    out.extend_from_slice(b" string ")?;
    push_quoted(out, text)?;
    Ok(out.push(b'\n')?)
}

// The class of an object with parts, behind a space, and the end of its line.
fn class_word(object: &Object) -> &'static [u8]
    requires { has_parts object.now ≡ true }
    ensures { result.now ≡ class_behind object.now }
{
    if object.is_composite() {
        return b" compositefield\n";
    }
    match object.kind() {
        Kind::Field => b" field\n",
        Kind::Group => b" group\n",
        Kind::Series => b" series\n",
        Kind::Array | Kind::Text => unreachable!(),
    }
}

fn listing_of(object: &Object) -> Listing
    requires { has_parts object.now ≡ true }
    ensures { result ≡ spec_listing_of object.now }
{
    match object.kind() {
        Kind::Field => Listing::Components,
        Kind::Group => Listing::Members,
        Kind::Series => Listing::PlacedMembers,
        Kind::Array | Kind::Text => unreachable!(),
    }
}
