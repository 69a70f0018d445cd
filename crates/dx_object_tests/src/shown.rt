//! What a row says of an object.
use dx_base::{push_count, push_number};
use dx_objects::{Kind, Measure, Object, ObjectError, Part};
use std::alloc::AllocError;

// The letter of its kind, which for a composite group is its own. No other object is composite.
fn letter(object: &Object) -> u8 {
    match (object.kind(), object.is_composite()) {
        (Kind::Group, true) => b'c',
        (_, true) => b'?',
        (Kind::Array, false) => b'a',
        (Kind::Text, false) => b't',
        (Kind::Field, false) => b'f',
        (Kind::Group, false) => b'g',
        (Kind::Series, false) => b's',
    }
}

// What stands in it: of an array its number of items, of a text its bytes.
fn push_leaf(out: &mut Vec<u8>, object: &Object) -> Result<(), AllocError> {
    if let Some(array) = object.as_array() {
        out.extend_from_slice(b" items ")?;
        push_count(out, array.items())?;
    }
    if let Some(text) = object.as_text() {
        out.extend_from_slice(b" text ")?;
        out.extend_from_slice(text)?;
    }
    Ok(())
}

// `name@position=size`.
fn push_part(out: &mut Vec<u8>, part: &Part) -> Result<(), AllocError> {
    out.push(b' ')?;
    if let Some(name) = &part.name {
        out.extend_from_slice(name.bytes())?;
    }
    out.push(b'@')?;
    push_number(out, i64::from(part.position))?;
    out.push(b'=')?;
    push_count(out, part.object.size())
}

/// Each part.
pub(crate) fn push_parts(out: &mut Vec<u8>, parts: &[Part]) -> Result<(), AllocError> {
    for part in parts {
        push_part(out, part)?;
    }
    Ok(())
}

/// The letter of its kind, what stands in it, its parts, and behind a bar its attributes.
pub(crate) fn push_object(out: &mut Vec<u8>, object: &Object) -> Result<(), AllocError> {
    out.push(letter(object))?;
    push_leaf(out, object)?;
    push_parts(out, object.parts())?;
    out.extend_from_slice(b" |")?;
    push_parts(out, object.attributes())
}

/// The size, the count and the levels of an object.
pub(crate) fn measure_of(object: &Object) -> Measure {
    Measure {
        size: object.size(),
        count: object.count(),
        levels: object.levels(),
    }
}

fn word(refusal: ObjectError) -> &'static [u8] {
    match refusal {
        ObjectError::BadNames => b"BadNames",
        ObjectError::NotAnArray => b"NotAnArray",
        ObjectError::MemberNotAField => b"MemberNotAField",
        ObjectError::TooLarge => b"TooLarge",
    }
}

/// An object, or why it isn't made.
pub(crate) fn push_made(
    out: &mut Vec<u8>,
    made: &Result<Object, ObjectError>,
) -> Result<(), AllocError> {
    match made {
        Ok(object) => push_object(out, object),
        Err(refusal) => out.extend_from_slice(word(*refusal)),
    }
}
