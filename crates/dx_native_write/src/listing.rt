//! The lines of an object's parts and attributes.
ghost use Rattle.std.specs.Prelude.{◌≡◌, ◌++◌, ◌∷◌, [], OnOk, length, Some, None};
ghost use Rattle.dx_base.specs.Words.{quoted};
ghost use Rattle.dx_objects.specs.Shown.{parts_of};
ghost use Rattle.dx_native_text.specs.Inline.{inline_of};
ghost use Rattle.dx_native_text.specs.Lines.{spelled, line_text, written};
ghost use Rattle.dx_native_text.specs.Text.{entry, value_words, given_words, attribute_line, name_of, member_word};
ghost use Rattle.dx_native_write.specs.Numbered.{numbered_entries, numbered_attributes};
ghost use Rattle.dx_native_write.specs.Spelled.{words_behind, place_text};

use crate::inline::{inline_number, inline_text};
use dx_base::{Bytes, push_count, push_number, push_quoted};
use dx_native_text::Listing;
use dx_objects::{Object, Part};
use std::alloc::AllocError;

/// The parts with these numbers, a line for each.
pub(crate) fn push_entries(
    out: &mut Vec<u8>,
    listing: Listing,
    parts: &[Part],
    numbers: &[u64],
) -> Result<(), AllocError>
    requires { length numbers.now ≡ length parts.now }
    ensures { OnOk result (out.new.items ≡ out.old.items ++ spelled (numbered_entries listing 0 (parts_of parts.now) numbers.now)) }
{
    for (index, part) in parts.iter().enumerate() {
        push_entry(out, listing, index as u64, part, numbers[index])?;
    }
    Ok(())
}

// A part that so many parts are before.
fn push_entry(
    out: &mut Vec<u8>,
    listing: Listing,
    index: u64,
    part: &Part,
    number: u64,
) -> Result<(), AllocError>
    ensures { OnOk result (out.new.items ≡ out.old.items ++ line_text (entry listing index part.now.name part.now.position (value_words number))) }
{
    push_place(out, listing, index, part)?;
    push_value(out, number)
}

// The same up to the number of its object.
fn push_place(
    out: &mut Vec<u8>,
    listing: Listing,
    index: u64,
    part: &Part,
) -> Result<(), AllocError>
    ensures { OnOk result (out.new.items ≡ out.old.items ++ place_text listing index part.now.name part.now.position) }
{
    match listing {
        Listing::Components => {
            out.extend_from_slice(b"component ")?;
            push_name(out, &part.name)
        }
        Listing::Members => {
            out.extend_from_slice(b"member ")?;
            push_name_or_index(out, &part.name, index)
        }
        Listing::PlacedMembers => {
            out.extend_from_slice(b"member ")?;
            push_count(out, index)?;
            out.extend_from_slice(b" position ")?;
            push_number(out, i64::from(part.position))
        }
    }
}

fn push_name(out: &mut Vec<u8>, name: &Option<Bytes>) -> Result<(), AllocError>
    ensures { OnOk result (out.new.items ≡ out.old.items ++ quoted (name_of name.now)) }
{
    match name {
        None => out.extend_from_slice(b"\"\""),
        Some(name) => push_quoted(out, name.bytes()),
    }
}

fn push_name_or_index(out: &mut Vec<u8>, name: &Option<Bytes>, index: u64) -> Result<(), AllocError>
    ensures { OnOk result (out.new.items ≡ out.old.items ++ written (member_word index name.now)) }
{
    match name {
        None => push_count(out, index),
        Some(name) => push_quoted(out, name.bytes()),
    }
}

// The number of the object that stands there, at the end of a line.
fn push_value(out: &mut Vec<u8>, number: u64) -> Result<(), AllocError>
    ensures { OnOk result (out.new.items ≡ out.old.items ++ (words_behind (value_words number) ++ 10 ∷ [])) }
{
    out.extend_from_slice(b" value ")?;
    push_count(out, number)?;
    Ok(out.push(b'\n')?)
}

/// The attributes, a line for each: a text or a number in the line, and else the object of this number.
pub(crate) fn push_attributes(
    out: &mut Vec<u8>,
    attributes: &[Part],
    numbers: &[u64],
) -> Result<(), AllocError>
    requires { length numbers.now ≡ length attributes.now }
    ensures { OnOk result (out.new.items ≡ out.old.items ++ spelled (numbered_attributes (parts_of attributes.now) numbers.now)) }
{
    for (index, attribute) in attributes.iter().enumerate() {
        push_attribute(out, attribute, numbers[index])?;
    }
    Ok(())
}

fn push_attribute(out: &mut Vec<u8>, attribute: &Part, number: u64) -> Result<(), AllocError>
    ensures { OnOk result (out.new.items ≡ out.old.items ++ line_text (attribute_line attribute.now.name (given_words (inline_of attribute.now.object.value) number))) }
{
    out.extend_from_slice(b"attribute ")?;
    push_name(out, &attribute.name)?;
    push_given(out, &attribute.object, number)?;
    Ok(())
}

// The value of an attribute, at the end of its line.
#[tactic(auto, using(crate::proofs::InlineLaws::none_inline))]
fn push_given(out: &mut Vec<u8>, object: &Object, number: u64) -> Result<(), AllocError>
    ensures { OnOk result (out.new.items ≡ out.old.items ++ (words_behind (given_words (inline_of object.now) number) ++ 10 ∷ [])) }
{
    if let Some(text) = inline_text(object) {
        out.extend_from_slice(b" string ")?;
        push_quoted(out, text)?;
        return Ok(out.push(b'\n')?);
    }
    if let Some(value) = inline_number(object) {
        out.extend_from_slice(b" number ")?;
        push_number(out, value)?;
        return Ok(out.push(b'\n')?);
    }
    push_value(out, number)
}
