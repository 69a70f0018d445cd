//! What a row says of an object: an array as `{1 2 3}`, behind its extents where it has some, and behind its class and type
//! where it isn't a plain int array; a text in quotes; others with their parts; and behind each its attributes, as
//! `@dep:"positions"`.
use dx_base::push_number;
use dx_objects::{Array, ArrayClass, ElemType, Kind, Object, Part};
use std::alloc::AllocError;

fn class_word(class: ArrayClass) -> &'static [u8] {
    match class {
        ArrayClass::Plain => b"",
        ArrayClass::Constant => b"constant ",
        ArrayClass::Regular => b"regular ",
        ArrayClass::GridPositions => b"points ",
        ArrayClass::GridConnections => b"cells ",
    }
}

fn type_word(elem: ElemType) -> &'static [u8] {
    match elem {
        ElemType::Byte => b"byte ",
        ElemType::UByte => b"ubyte ",
        ElemType::Short => b"short ",
        ElemType::UShort => b"ushort ",
        ElemType::Int => b"",
        ElemType::UInt => b"uint ",
    }
}

// Before each of a list but the first this byte.
fn push_between(out: &mut Vec<u8>, is_first: bool, between: u8) -> Result<(), AllocError> {
    if !is_first {
        out.push(between)?;
    }
    Ok(())
}

fn push_extents(out: &mut Vec<u8>, extents: &[u32]) -> Result<(), AllocError> {
    for i in 0..extents.len() {
        push_between(out, i == 0, b'x')?;
        push_number(out, i64::from(extents[i]))?;
    }
    Ok(())
}

fn push_item(out: &mut Vec<u8>, array: &Array, item: u64) -> Result<(), AllocError> {
    if item >= array.items() {
        return Ok(());
    }
    for place in 0..array.width() {
        push_between(out, item == 0 && place == 0, b' ')?;
        push_number(out, array.value(item, place))?;
    }
    Ok(())
}

fn push_array(out: &mut Vec<u8>, array: &Array) -> Result<(), AllocError> {
    out.extend_from_slice(class_word(array.class()))?;
    out.extend_from_slice(type_word(array.elem()))?;
    push_extents(out, array.extents())?;
    out.push(b'{')?;
    for item in 0..array.items() {
        push_item(out, array, item)?;
    }
    out.push(b'}')?;
    Ok(())
}

// Without its attributes.
fn push_bare(out: &mut Vec<u8>, object: &Object) -> Result<(), AllocError> {
    if let Some(text) = object.as_text() {
        out.push(b'"')?;
        out.extend_from_slice(text)?;
        out.push(b'"')?;
    }
    if let Some(array) = object.as_array() {
        push_array(out, array)?;
    }
    Ok(())
}

fn push_attributes(out: &mut Vec<u8>, object: &Object) -> Result<(), AllocError> {
    for attribute in object.attributes() {
        out.push(b'@')?;
        if let Some(name) = &attribute.name {
            out.extend_from_slice(name.bytes())?;
        }
        out.push(b':')?;
        push_bare(out, &attribute.object)?;
    }
    Ok(())
}

// Of an array or a text all, and of others the first letter of what they are, `c` for a composite group.
fn push_front(out: &mut Vec<u8>, object: &Object) -> Result<(), AllocError> {
    match object.kind() {
        Kind::Array | Kind::Text => push_bare(out, object)?,
        Kind::Field => out.push(b'f')?,
        Kind::Group if object.is_composite() => out.push(b'c')?,
        Kind::Group => out.push(b'g')?,
        Kind::Series => out.push(b's')?,
    }
    Ok(())
}

fn has_parts(object: &Object) -> bool {
    !matches!(object.kind(), Kind::Array | Kind::Text)
}

// Its name, and its position in a series.
fn push_label(out: &mut Vec<u8>, kind: Kind, place: usize, part: &Part) -> Result<(), AllocError> {
    push_between(out, place == 0, b' ')?;
    if let Some(name) = &part.name {
        out.extend_from_slice(name.bytes())?;
    }
    if kind == Kind::Series {
        push_number(out, i64::from(part.position))?;
    }
    out.push(b'=')?;
    Ok(())
}

// The object, and its parts as they are by themselves.
fn push_small(out: &mut Vec<u8>, object: &Object) -> Result<(), AllocError> {
    push_front(out, object)?;
    if has_parts(object) {
        out.push(b'(')?;
        let parts = object.parts();
        for i in 0..parts.len() {
            push_label(out, object.kind(), i, &parts[i])?;
            push_front(out, &parts[i].object)?;
            push_attributes(out, &parts[i].object)?;
        }
        out.push(b')')?;
    }
    push_attributes(out, object)
}

// The object with its parts, and theirs.
fn push_large(out: &mut Vec<u8>, object: &Object) -> Result<(), AllocError> {
    push_front(out, object)?;
    if has_parts(object) {
        out.push(b'(')?;
        let parts = object.parts();
        for i in 0..parts.len() {
            push_label(out, object.kind(), i, &parts[i])?;
            push_small(out, &parts[i].object)?;
        }
        out.push(b')')?;
    }
    push_attributes(out, object)
}

/// The object with its parts, and theirs, and theirs.
pub(crate) fn push_object(out: &mut Vec<u8>, object: &Object) -> Result<(), AllocError> {
    push_front(out, object)?;
    if has_parts(object) {
        out.push(b'(')?;
        let parts = object.parts();
        for i in 0..parts.len() {
            push_label(out, object.kind(), i, &parts[i])?;
            push_large(out, &parts[i].object)?;
        }
        out.push(b')')?;
    }
    push_attributes(out, object)
}
