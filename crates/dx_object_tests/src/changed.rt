//! Objects with other parts, lists of parts, and parts that are looked up by their names.
use crate::shown::{push_object, push_parts};
use crate::stock::{Words, object, parts};
use crate::wholes::any;
use dx_base::Bytes;
use dx_objects::{MembersError, Object, Part, Parts, WithError};
use std::alloc::{AllocError, Global};
use std::rc::Rc;
use std::test::Fail;

fn field_word(fail: WithError) -> &'static [u8] {
    match fail {
        WithError::NotAField => b"NotAField",
        WithError::NotAnArray => b"NotAnArray",
        WithError::TooLarge => b"TooLarge",
        WithError::NoComponent => b"NoComponent",
        WithError::Memory => b"Memory",
    }
}

// The field, or why there is none.
fn shown(alloc: Global, made: Result<Object, WithError>) -> Result<Vec<u8>, AllocError> {
    let mut text = Vec::new(alloc);
    match made {
        Ok(object) => push_object(&mut text, &object)?,
        Err(fail) => text.extend_from_slice(field_word(fail))?,
    }
    Ok(text)
}

fn with(alloc: Global, id: u8, name: &[u8], new: u8) -> Result<Vec<u8>, Fail> {
    let (object, part) = (any(alloc, id)?, any(alloc, new)?);
    let name = Bytes::copy_of(alloc, name)?;
    Ok(shown(alloc, object.with_component(alloc, &name, part))?)
}

fn without(alloc: Global, id: u8, name: &[u8]) -> Result<Vec<u8>, Fail> {
    let made = any(alloc, id)?.without_component(alloc, name);
    Ok(shown(alloc, made)?)
}

// The object, the name and the new component; and what is made.
const WITH: &[(u8, &[u8], u8, &str)] = &[
    (
        b'F',
        b"connections",
        b'n',
        "f positions@0=96 connections@0=68 data@0=180 |",
    ),
    (
        b'F',
        b"x",
        b'n',
        "f positions@0=96 connections@0=221 data@0=180 x@0=68 |",
    ),
    (b'A', b"a", b'n', "f a@0=68 | u@0=65"),
    (b'A', b"u", b'n', "f a@0=112 u@0=68 | u@0=65"),
    (b'f', b"a", b'n', "f a@0=68 |"),
    (b'F', b"x", b't', "NotAnArray"),
    (b'F', b"x", b'f', "NotAnArray"),
    (b'F', b"x", b'D', "TooLarge"),
    (b't', b"x", b't', "NotAField"),
    (b'R', b"a", b'n', "NotAField"),
    (b'C', b"a", b'D', "NotAField"),
];

#[test]
fn a_component_is_put_in_its_place_or_last(rt: HostRuntime) -> Result<(), Fail> {
    for (id, name, new, wanted) in WITH {
        if with(rt.alloc(), *id, name, *new)?.as_slice() != wanted.as_bytes() {
            return Err(Fail::from(*wanted));
        }
    }
    Ok(())
}

const WITHOUT: &[(u8, &[u8], &str)] = &[
    (b'F', b"connections", "f positions@0=96 data@0=180 |"),
    (b'A', b"a", "f | u@0=65"),
    (b'F', b"x", "NoComponent"),
    (b'A', b"u", "NoComponent"),
    (b't', b"x", "NotAField"),
    (b'R', b"a", "NotAField"),
    (b'C', b"a", "NotAField"),
];

#[test]
fn a_component_is_taken_out(rt: HostRuntime) -> Result<(), Fail> {
    for (id, name, wanted) in WITHOUT {
        if without(rt.alloc(), *id, name)?.as_slice() != wanted.as_bytes() {
            return Err(Fail::from(*wanted));
        }
    }
    Ok(())
}

fn objects(alloc: Global, ids: &[u8]) -> Result<Vec<Rc<Object>>, Fail> {
    let mut objects = Vec::new(alloc);
    for id in ids {
        objects.push(any(alloc, *id)?)?;
    }
    Ok(objects)
}

fn members_word(fail: MembersError) -> &'static [u8] {
    match fail {
        MembersError::NotAGroup => b"NotAGroup",
        MembersError::TooLarge => b"TooLarge",
        MembersError::Memory => b"Memory",
    }
}

// The object, or why it has no such members.
fn shown_members(alloc: Global, made: Result<Object, MembersError>) -> Result<Vec<u8>, AllocError> {
    let mut text = Vec::new(alloc);
    match made {
        Ok(object) => push_object(&mut text, &object)?,
        Err(fail) => text.extend_from_slice(members_word(fail))?,
    }
    Ok(text)
}

fn with_members(alloc: Global, id: u8, new: &[u8]) -> Result<Vec<u8>, Fail> {
    let new = objects(alloc, new)?;
    let object = any(alloc, id)?;
    Ok(shown_members(alloc, object.with_members(alloc, &new))?)
}

// The object and its new members, and what is made.
const MEMBERS: &[(u8, &[u8], &str)] = &[
    (b'R', b"nt", "g a@0=68 @0=65 | u@0=65"),
    (b'R', b"n", "g a@0=68 @0=64 | u@0=65"),
    (b'R', b"nta", "g a@0=68 @0=65 | u@0=65"),
    (b'R', b"", "g a@0=65 @0=64 | u@0=65"),
    (b'R', b"ff", "g a@0=64 @0=64 | u@0=65"),
    (b'C', b"A", "c a@0=243 @0=64 | u@0=65"),
    (b'C', b"", "c a@0=64 @0=64 | u@0=65"),
    (b'C', b"n", "g a@0=68 @0=64 | u@0=65"),
    (b'C', b"ft", "g a@0=64 @0=65 | u@0=65"),
    (b'C', b"fft", "c a@0=64 @0=64 | u@0=65"),
    (b'S', b"n", "s @-1=68 @0=64 | u@0=65"),
    (b'c', b"t", "c |"),
    (b'R', b"d", "TooLarge"),
    (b'C', b"e", "TooLarge"),
    (b'S', b"fm", "TooLarge"),
    (b'F', b"n", "NotAGroup"),
    (b'a', b"", "NotAGroup"),
    (b't', b"d", "NotAGroup"),
];

#[test]
fn members_get_other_objects(rt: HostRuntime) -> Result<(), Fail> {
    for (id, new, wanted) in MEMBERS {
        if with_members(rt.alloc(), *id, new)?.as_slice() != wanted.as_bytes() {
            return Err(Fail::from(*wanted));
        }
    }
    Ok(())
}

// The list of these parts as it goes out into a vector and back.
fn there_and_back(alloc: Global, words: Words<'_>) -> Result<Vec<u8>, Fail> {
    let list = parts(alloc, words)?;
    let back = Parts::from_vec(alloc, list.into_vec())?;
    let mut text = Vec::new(alloc);
    if back.len() == words.len() && back.is_empty() == words.is_empty() {
        push_parts(&mut text, back.as_slice())?;
    }
    Ok(text)
}

fn push_list(out: &mut Vec<u8>, list: Result<Parts, AllocError>) -> Result<(), AllocError> {
    push_parts(out, list?.as_slice())
}

// Copies of a list: as it is, with `hello` under a name, and without what has the name.
fn push_copies(
    alloc: Global,
    out: &mut Vec<u8>,
    list: &[Part],
    name: &[u8],
    hello: Rc<Object>,
) -> Result<(), AllocError> {
    push_list(out, Parts::copy_of(alloc, list))?;
    out.extend_from_slice(b" /")?;
    push_list(out, Parts::copy_with(alloc, list, name, hello))?;
    out.extend_from_slice(b" /")?;
    push_list(out, Parts::copy_without(alloc, list, name))
}

fn copies(alloc: Global, words: Words<'_>, name: &[u8]) -> Result<Vec<u8>, Fail> {
    let list = parts(alloc, words)?;
    let mut text = Vec::new(alloc);
    push_copies(
        alloc,
        &mut text,
        list.as_slice(),
        name,
        object(alloc, b'h')?,
    )?;
    Ok(text)
}

// Parts and a name; the list there and back; and its copies.
const LISTS: &[(Words<'static>, &[u8], &str, &str)] = &[
    (&[], b"a", "", " / a@0=69 /"),
    (
        &[(b"a", b't'), (b"b", b'f'), (b"", b'n')],
        b"b",
        " a@-1=65 b@0=64 @1=68",
        " a@-1=65 b@0=64 @1=68 / a@-1=65 b@0=69 @1=68 / a@-1=65 @1=68",
    ),
    (
        &[(b"a", b't')],
        b"x",
        " a@-1=65",
        " a@-1=65 / a@-1=65 x@0=69 / a@-1=65",
    ),
    (
        &[(b"a", b't'), (b"b", b't'), (b"a", b't')],
        b"a",
        " a@-1=65 b@0=65 a@1=65",
        " a@-1=65 b@0=65 a@1=65 / a@-1=69 b@0=65 a@1=65 / b@0=65 a@1=65",
    ),
];

#[test]
fn lists_of_parts_are_copied(rt: HostRuntime) -> Result<(), Fail> {
    let alloc = rt.alloc();
    for (words, name, same, wanted) in LISTS {
        assert!(rt; there_and_back(alloc, words)?.as_slice() == same.as_bytes());
        assert!(rt; copies(alloc, words, name)?.as_slice() == wanted.as_bytes());
    }
    Ok(())
}

fn size_of(object: Option<&Rc<Object>>) -> u64 {
    match object {
        Some(object) => object.size(),
        None => 0,
    }
}

// The object and a name; the sizes of its component, its member and its attribute of that name, 0 where there is none.
const FOUND: &[(u8, &[u8], [u64; 3])] = &[
    (b'F', b"connections", [221, 0, 0]),
    (b'F', b"data", [180, 0, 0]),
    (b'F', b"dep", [0, 0, 0]),
    (b'Q', b"ref", [0, 0, 65]),
    (b'Q', b"element type", [0, 0, 69]),
    (b'A', b"a", [112, 0, 0]),
    (b'A', b"u", [0, 0, 65]),
    (b'R', b"a", [0, 65, 0]),
    (b'R', b"u", [0, 0, 65]),
    (b'R', b"", [0, 0, 0]),
    (b'C', b"a", [0, 64, 0]),
    (b'C', b"b", [0, 0, 0]),
    (b'S', b"a", [0, 0, 0]),
    (b'S', b"u", [0, 0, 65]),
    (b't', b"t", [0, 0, 0]),
    (b'W', b"a", [0, 69, 0]),
    (b'W', b"ab", [0, 68, 0]),
    (b'W', b"b", [0, 65, 0]),
    (b'W', b"c", [0, 0, 0]),
    (b'W', b"aa", [0, 0, 0]),
    (b'W', b"", [0, 0, 0]),
];

#[test]
fn names_find_components_members_and_attributes(rt: HostRuntime) -> Result<(), Fail> {
    for (id, name, sizes) in FOUND {
        let object = any(rt.alloc(), *id)?;
        let found = [
            size_of(object.component(name)),
            size_of(object.member(name)),
            size_of(object.attribute(name)),
        ];
        assert!(rt; found == *sizes);
    }
    Ok(())
}

// Whether both have one object as their first part.
fn share_first(one: &Object, other: &Object) -> bool {
    match (one.parts(), other.parts()) {
        ([first, ..], [second, ..]) => Rc::ptr_eq(&first.object, &second.object),
        _ => false,
    }
}

// Whether an object is made, and has the first part of this one.
fn is_sharing<E: Drop>(one: &Object, made: Result<Object, E>) -> bool {
    match made {
        Ok(other) => share_first(one, &other),
        Err(_) => false,
    }
}

fn shares_with_a_component(alloc: Global, field: &Object) -> Result<bool, Fail> {
    let name = Bytes::copy_of(alloc, b"x")?;
    let part = object(alloc, b'n')?;
    Ok(is_sharing(field, field.with_component(alloc, &name, part)))
}

#[test]
fn what_is_not_changed_is_shared(rt: HostRuntime) -> Result<(), Fail> {
    let alloc = rt.alloc();
    let (field, group) = (any(alloc, b'F')?, any(alloc, b'R')?);
    assert!(rt; shares_with_a_component(alloc, &field)?);
    assert!(rt; is_sharing(&field, field.without_component(alloc, b"data")));
    assert!(rt; is_sharing(&group, group.with_members(alloc, &[])));
    assert!(rt; !share_first(&group, &field));
    Ok(())
}

#[test]
fn a_field_over_a_grid_counts_its_parts_and_theirs(rt: HostRuntime) -> Result<(), Fail> {
    let field = any(rt.alloc(), b'F')?;
    assert!(rt; field.size() == 585 && field.count() == 7 && field.levels() == 3);
    Ok(())
}
