//! What a row says of an object: of an array its first value, of a text its bytes, of others their parts, and behind each
//! `@` where it has an attribute.
use dx_base::push_number;
use dx_objects::{Kind, Object, Part};
use std::alloc::AllocError;

fn push_leaf(out: &mut Vec<u8>, object: &Object) -> Result<(), AllocError> {
    if let Some(text) = object.as_text() {
        out.extend_from_slice(text)?;
    }
    if let Some(array) = object.as_array() {
        if array.items() > 0 && array.width() > 0 {
            push_number(out, array.value(0, 0))?;
        }
    }
    push_end(out, object)
}

fn push_end(out: &mut Vec<u8>, object: &Object) -> Result<(), AllocError> {
    if !object.attributes().is_empty() {
        out.push(b'@')?;
    }
    Ok(())
}

// The letter of a field, a group, a composite group or a series; none for other objects.
fn letter(object: &Object) -> Option<u8> {
    match object.kind() {
        Kind::Array | Kind::Text => None,
        Kind::Field => Some(b'f'),
        Kind::Group if object.is_composite() => Some(b'c'),
        Kind::Group => Some(b'g'),
        Kind::Series => Some(b's'),
    }
}

fn push_label(out: &mut Vec<u8>, kind: Kind, part: &Part) -> Result<(), AllocError> {
    if let Some(name) = &part.name {
        out.extend_from_slice(name.bytes())?;
    }
    if kind == Kind::Series {
        push_number(out, i64::from(part.position))?;
    }
    out.push(b'=')?;
    Ok(())
}

fn push_small(out: &mut Vec<u8>, object: &Object) -> Result<(), AllocError> {
    let Some(letter) = letter(object) else {
        return push_leaf(out, object);
    };
    out.push(letter)?;
    out.push(b'(')?;
    for part in object.parts() {
        push_label(out, object.kind(), part)?;
        push_leaf(out, &part.object)?;
        out.push(b' ')?;
    }
    out.push(b')')?;
    push_end(out, object)
}

fn push_large(out: &mut Vec<u8>, object: &Object) -> Result<(), AllocError> {
    let Some(letter) = letter(object) else {
        return push_leaf(out, object);
    };
    out.push(letter)?;
    out.push(b'(')?;
    for part in object.parts() {
        push_label(out, object.kind(), part)?;
        push_small(out, &part.object)?;
        out.push(b' ')?;
    }
    out.push(b')')?;
    push_end(out, object)
}

/// The object, with its parts, and theirs, and theirs.
pub(crate) fn push_object(out: &mut Vec<u8>, object: &Object) -> Result<(), AllocError> {
    let Some(letter) = letter(object) else {
        return push_leaf(out, object);
    };
    out.push(letter)?;
    out.push(b'(')?;
    for part in object.parts() {
        push_label(out, object.kind(), part)?;
        push_large(out, &part.object)?;
        out.push(b' ')?;
    }
    out.push(b')')?;
    push_end(out, object)
}
