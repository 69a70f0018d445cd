//! Writes an object and all that it has, each occurrence once.
ghost use Rattle.std.specs.Prelude.{◌≡◌, ◌≤◌, ◌<◌, ◌+◌, ◌++◌, IfOk, Ok, None, true};
ghost use Rattle.dx_base.specs.ObjectNumbers.{steps_by_ints};
ghost use Rattle.dx_native_grammar.specs.Native.{IsNative};
ghost use Rattle.dx_objects.specs.Shown.{parts_of};
ghost use Rattle.dx_native_text.specs.Lines.{spelled};
ghost use Rattle.dx_native_text.specs.Text.{text_of, lines_of, many, parts_many, values_many, unless_inline};
ghost use Rattle.dx_native_text.specs.Inline.{inline_of};
ghost use Rattle.dx_native_write.specs.Numbered.{part_numbers, value_numbers, parts_text, values_text, unless_inline_text};

use crate::inline::is_inline;
use crate::listing::push_attributes;
use crate::object_lines::push_body;
use dx_base::Bytes;
use dx_objects::{Object, Part};
use std::alloc::{AllocError, Global};

/// The canonical text of an object, as a native file (User's Guide, Data Explorer Native Files): the parts, the values of
/// attributes and then the object, each numbered from 1 on and written each time that it occurs, and a line `end`. Where the
/// origins and deltas of its regular arrays and grids are ints, as in each object that was read, the text means the object
/// again.
pub fn write_object(alloc: Global, object: &Object) -> Result<Bytes, AllocError>
    ensures text { IfOk result (λ bytes. bytes ≡ text_of object.now) }
    ensures again { steps_by_ints object.now ≡ true → IfOk result (λ bytes. IsNative bytes None (Ok object.now)) }
{
    // Asked so that the proof knows that it is an object within the limits.
    let _size = object.size();
    written(alloc, object)
}

#[tactic(auto, using(crate::proofs::Walk::whole_texts))]
fn written(alloc: Global, object: &Object) -> Result<Bytes, AllocError>
    ensures { IfOk result (λ bytes. bytes ≡ text_of object.now) }
{
    // Asked so that the proof knows that the numbers have room.
    let _count = object.count();
    let mut out = Vec::new(alloc);
    push_object(alloc, &mut out, object, 1)?;
    out.extend_from_slice(b"end\n")?;
    Ok(Bytes::from_vec(out))
}

// An object and all that it has, numbered from `first` on. The answer is the number of the next object.
#[cycle(write)]
fn push_object(
    alloc: Global,
    out: &mut Vec<u8>,
    object: &Object,
    first: u64,
) -> Result<u64, AllocError>
    requires some { 0 < first }
    requires room { first + many object.now ≤ 18446744073709551615 }
    ensures text { IfOk result (λ _. out.new.items ≡ out.old.items ++ spelled (lines_of object.now first)) }
    ensures next { IfOk result (λ next. next ≡ first + many object.now) }
{
    let parts = object.parts();
    let attributes = object.attributes();
    let mut numbers = Vec::with_capacity(alloc, parts.len())?;
    let behind = push_parts(alloc, out, &mut numbers, parts, first)?;
    let mut values = Vec::with_capacity(alloc, attributes.len())?;
    let number = push_values(alloc, out, &mut values, attributes, behind)?;
    push_body(out, object, number, &numbers)?;
    push_attributes(out, attributes, &values)?;
    Ok(number + 1)
}

// The objects of parts, whose numbers are put at the end of a list.
#[cycle(write)]
fn push_parts(
    alloc: Global,
    out: &mut Vec<u8>,
    numbers: &mut Vec<u64>,
    parts: &[Part],
    first: u64,
) -> Result<u64, AllocError>
    requires some { 0 < first }
    requires room { first + parts_many (parts_of parts.now) ≤ 18446744073709551615 }
    ensures text { IfOk result (λ _. out.new.items ≡ out.old.items ++ parts_text (parts_of parts.now) first) }
    ensures numbers { IfOk result (λ _. numbers.new.items ≡ numbers.old.items ++ part_numbers (parts_of parts.now) first) }
    ensures next { IfOk result (λ next. next ≡ first + parts_many (parts_of parts.now)) }
{
    let mut next = first;
    for part in parts {
        next = push_object(alloc, out, &part.object, next)?;
        numbers.push(next - 1)?;
    }
    Ok(next)
}

// The objects of attributes' values that don't stand in the attribute's own line, with the numbers likewise.
#[cycle(write)]
fn push_values(
    alloc: Global,
    out: &mut Vec<u8>,
    numbers: &mut Vec<u64>,
    attributes: &[Part],
    first: u64,
) -> Result<u64, AllocError>
    requires some { 0 < first }
    requires room { first + values_many (parts_of attributes.now) ≤ 18446744073709551615 }
    ensures text { IfOk result (λ _. out.new.items ≡ out.old.items ++ values_text (parts_of attributes.now) first) }
    ensures numbers { IfOk result (λ _. numbers.new.items ≡ numbers.old.items ++ value_numbers (parts_of attributes.now) first) }
    ensures next { IfOk result (λ next. next ≡ first + values_many (parts_of attributes.now)) }
{
    let mut next = first;
    for attribute in attributes {
        next = push_unless_inline(alloc, out, &attribute.object, next)?;
        numbers.push(next - 1)?;
    }
    Ok(next)
}

// The object of an attribute's value, unless it stands in the attribute's own line.
#[cycle(write)]
fn push_unless_inline(
    alloc: Global,
    out: &mut Vec<u8>,
    object: &Object,
    first: u64,
) -> Result<u64, AllocError>
    requires some { 0 < first }
    requires room { first + unless_inline (inline_of object.now) (many object.now) ≤ 18446744073709551615 }
    ensures text { IfOk result (λ _. out.new.items ≡ out.old.items ++ unless_inline_text (inline_of object.now) (spelled (lines_of object.now first))) }
    ensures next { IfOk result (λ next. next ≡ first + unless_inline (inline_of object.now) (many object.now)) }
{
    if is_inline(object) {
        return Ok(first);
    }
    push_object(alloc, out, object, first)
}
