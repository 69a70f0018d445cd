//! Constants of each kind as values: the array, the text or the group that each is, with its stated size.
ghost use Rattle.std.specs.Prelude.{◌≡◌, ◌∷◌, [], IfOk};
ghost use Rattle.dx_ast.specs.Lawful.{IsLawfulConst};

use dx_arrays::{Array, ArrayClass, ElemType, Values};
use dx_ast::{Const, Ints};
use dx_base::{Bytes, Shared};
use dx_consts::object_of;
use dx_objects::{Kind, Object, Part, Value};
use std::alloc::Global;
use std::test::Fail;

fn ints(alloc: Global, numbers: &[i32]) -> Result<Ints, Fail>
    ensures { IfOk result (λ list. list ≡ numbers.now) }
{
    Ok(Ints::from_vec(alloc, Vec::from_slice(alloc, numbers)?)?)
}

fn text(alloc: Global, bytes: &[u8]) -> Result<Shared<u8>, Fail>
    ensures { IfOk result (λ text. text ≡ bytes.now) }
{
    Ok(Shared::from_vec(alloc, Vec::from_slice(alloc, bytes)?)?)
}

fn texts(alloc: Global, first: &[u8], second: &[u8]) -> Result<Shared<Bytes>, Fail>
    ensures { IfOk result (λ list. list ≡ first.now ∷ second.now ∷ []) }
{
    let mut list = Vec::new(alloc);
    list.push(Bytes::copy_of(alloc, first)?)?;
    list.push(Bytes::copy_of(alloc, second)?)?;
    Ok(Shared::from_vec(alloc, list)?)
}

fn value(alloc: Global, c: Const) -> Result<Value, Fail>
    requires { IsLawfulConst c }
{
    Ok(object_of(alloc, &c)?)
}

// Whether the object is a plain array of ints with these extents and numbers.
fn has_ints(object: &Object, extents: &[u32], items: u64, numbers: &[i64]) -> bool {
    let Some(array) = object.as_array() else {
        return false;
    };
    array.class() == ArrayClass::Plain
        && array.elem() == ElemType::Int
        && array.extents() == extents
        && array.items() == items
        && are_kept(array, numbers)
}

// Whether the array keeps these numbers in 4 bytes each.
fn are_kept(array: &Array, numbers: &[i64]) -> bool {
    let Some(Values::Ints(kept)) = array.plain_values() else {
        return false;
    };
    let mut rest = numbers.iter();
    for value in kept {
        if rest.next() != Some(&i64::from(*value)) {
            return false;
        }
    }
    rest.next().is_none()
}

fn is_ints(value: &Value, extents: &[u32], items: u64, numbers: &[i64], size: u64) -> bool {
    let Some(object) = value else {
        return false;
    };
    object.kind() == Kind::Array
        && has_ints(object, extents, items, numbers)
        && object.size() == size
        && object.attributes().is_empty()
}

// Whether the object is this text.
fn is_text(object: &Object, bytes: &[u8], size: u64) -> bool {
    object.kind() == Kind::Text
        && object.as_text() == Some(bytes)
        && object.size() == size
        && object.attributes().is_empty()
}

// Whether the part is this text without a name, at position 0.
fn is_member(part: &Part, bytes: &[u8], size: u64) -> bool {
    part.name.is_none() && part.position == 0 && is_text(&part.object, bytes, size)
}

#[test]
fn single_constants_are_their_values(rt: HostRuntime) -> Result<(), Fail> {
    let alloc = rt.alloc();
    assert!(rt; value(alloc, Const::Null)?.is_none());
    assert!(rt; is_ints(&value(alloc, Const::Int(-7))?, &[], 1, &[-7], 68));
    let vector = value(alloc, Const::Vector(ints(alloc, &[1, 2, 3])?))?;
    assert!(rt; is_ints(&vector, &[3], 1, &[1, 2, 3], 76));
    let words = value(alloc, Const::Text(text(alloc, b"abc")?))?;
    assert!(rt; words.is_some_and(|object| is_text(&object, b"abc", 67)));
    Ok(())
}

#[test]
fn lists_of_numbers_are_plain_arrays(rt: HostRuntime) -> Result<(), Fail> {
    let alloc = rt.alloc();
    let none = value(alloc, Const::Ints(ints(alloc, &[])?))?;
    assert!(rt; is_ints(&none, &[], 0, &[], 64));
    let ends = ints(alloc, &[5, -2147483648, 2147483647])?;
    let ends = value(alloc, Const::Ints(ends))?;
    assert!(rt; is_ints(&ends, &[], 3, &[5, -2147483648, 2147483647], 76));
    let pairs = ints(alloc, &[1, 2, 3, 4, 5, 6])?;
    let pairs = value(alloc, Const::Vectors(2, pairs))?;
    assert!(rt; is_ints(&pairs, &[2], 3, &[1, 2, 3, 4, 5, 6], 88));
    Ok(())
}

#[test]
fn a_list_of_texts_is_a_group_without_names(rt: HostRuntime) -> Result<(), Fail> {
    let alloc = rt.alloc();
    let list = texts(alloc, b"a", b"bc")?;
    let group = value(alloc, Const::Texts(list))?;
    assert!(rt; group.is_some());
    let group = group.unwrap();
    assert!(rt; group.kind() == Kind::Group && group.as_text().is_none());
    assert!(rt; group.size() == 195 && group.attributes().is_empty());
    let parts = group.parts();
    assert!(rt; parts.len() == 2);
    assert!(rt; is_member(&parts[0], b"a", 65) && is_member(&parts[1], b"bc", 66));
    Ok(())
}
