//! What dx_base gives: types and numbers, lists, words of the canonical text, and the inputs of modules.

use dx_base::{
    Bytes, ElemType, Fail, Few, Items, Module, Names, Shared, Sparse, in_range, push_count,
    push_counts_behind, push_number, push_numbers, push_numbers_behind, push_quoted, read_int,
    read_number,
};
use std::alloc::{AllocError, Global};
use std::cmp::Ordering;

// The type, its bytes, and below, at and above its ends.
const ENDS: &[(ElemType, u64, [i64; 4])] = &[
    (ElemType::Byte, 1, [-129, -128, 127, 128]),
    (ElemType::UByte, 1, [-1, 0, 255, 256]),
    (ElemType::Short, 2, [-32_769, -32_768, 32_767, 32_768]),
    (ElemType::UShort, 2, [-1, 0, 65_535, 65_536]),
    (
        ElemType::Int,
        4,
        [-2_147_483_649, -2_147_483_648, 2_147_483_647, 2_147_483_648],
    ),
    (ElemType::UInt, 4, [-1, 0, 4_294_967_295, 4_294_967_296]),
];

#[test]
fn the_ends_of_each_type_are_inside_and_their_neighbours_outside(rt: HostRuntime) {
    for (elem, bytes, [below, low, high, above]) in ENDS {
        assert!(rt; elem.byte_count() == *bytes);
        assert!(rt; in_range(*elem, *low) && in_range(*elem, *high));
        assert!(rt; !in_range(*elem, *below) && !in_range(*elem, *above));
    }
}

// The word, its number, and the nearest number of so many digits.
const WORDS: &[(&str, Option<i64>, Option<i64>)] = &[
    ("0", Some(0), Some(0)),
    ("007", Some(7), Some(7)),
    ("+5", Some(5), Some(5)),
    ("-0", Some(0), Some(0)),
    ("1.", Some(1), Some(1)),
    ("1.000", Some(1), Some(1)),
    ("-9223372036854775808", Some(i64::MIN), Some(i64::MIN)),
    ("9223372036854775807", Some(i64::MAX), Some(i64::MAX)),
    ("9223372036854775808", None, Some(i64::MAX)),
    ("-9223372036854775809", None, Some(i64::MIN)),
    ("99999999999999999999", None, Some(i64::MAX)),
    ("", None, None),
    ("-", None, None),
    ("+-1", None, None),
    (".0", None, None),
    ("1.5", None, None),
    ("1.0.", None, None),
    ("1e5", None, None),
    ("0x10", None, None),
    (" 1", None, None),
];

#[test]
fn words_are_read_as_numbers(rt: HostRuntime) {
    for (word, number, near) in WORDS {
        assert!(rt; read_int(word.as_bytes()) == *number);
        assert!(rt; read_number(word.as_bytes()) == *near);
    }
}

// The module, its named and its further inputs, and counts below, at and above the ends of what it takes.
const MODULES: &[(Module, u32, u32, [usize; 4])] = &[
    (Module::Import, 6, 0, [5, 6, 6, 7]),
    (Module::Compute, 1, 20, [0, 1, 21, 22]),
    (Module::CollectSeries, 2, 62, [1, 2, 64, 65]),
    (Module::Collect, 1, 63, [0, 1, 64, 65]),
];

#[test]
fn modules_take_their_named_inputs_and_some_further_ones(rt: HostRuntime) {
    for (module, named, more, [below, least, most, above]) in MODULES {
        assert!(rt; module.named() == *named && module.more() == *more);
        assert!(rt; module.takes(*least) && module.takes(*most));
        assert!(rt; !module.takes(*below) && !module.takes(*above));
    }
}

fn list(alloc: Global, items: &[i32]) -> Result<Shared<i32>, AllocError> {
    Shared::from_vec(alloc, items.to_vec(alloc)?)
}

// Lists of which no two have the same elements in the same order.
const SHARED: &[&[i32]] = &[&[], &[0], &[1], &[1, 2], &[2, 1], &[1, 2, 3]];

// Whether a list of these elements, and a share of it, has them and no others.
fn is_shared(alloc: Global, items: &[i32]) -> Result<bool, AllocError> {
    let list = list(alloc, items)?;
    let shared = list.share()?;
    let is_whole = shared.len() == items.len() && shared.is_empty() == items.is_empty();
    Ok(shared == list && shared.as_slice() == items && is_whole)
}

fn are_equal(alloc: Global, one: &[i32], other: &[i32]) -> Result<bool, AllocError> {
    Ok(list(alloc, one)? == list(alloc, other)?)
}

// Whether these elements are equal to those of a list of them.
fn are_its_items(alloc: Global, items: &[i32]) -> Result<bool, AllocError> {
    let list = list(alloc, items)?;
    let copied = list.as_slice().to_vec(alloc)?;
    Ok(Items::from_vec(items.to_vec(alloc)?) == Items::from_vec(copied))
}

#[test]
fn lists_are_shared_and_compared_by_their_elements(rt: HostRuntime) -> Result<(), AllocError> {
    let alloc = rt.alloc();
    for (i, one) in SHARED.iter().enumerate() {
        assert!(rt; is_shared(alloc, one)? && are_its_items(alloc, one)?);
        for (k, other) in SHARED.iter().enumerate() {
            assert!(rt; are_equal(alloc, one, other)? == (i == k));
        }
    }
    Ok(())
}

// Lists of none, of one element, and of as many as more room is made for.
const LISTS: &[&[i32]] = &[&[], &[7], &[7, 8], &[7, 8, 9, 10], &[7, 8, 9, 10, 11, 12]];

fn filled(mut few: Few<i32>, items: &[i32]) -> Result<Few<i32>, AllocError> {
    for item in items {
        few.push(*item)?;
    }
    Ok(few)
}

// Whether a list that grows from nothing, and one with room for all, come to these elements.
fn are_pushed(alloc: Global, items: &[i32]) -> Result<bool, AllocError> {
    let grown = filled(Few::new(alloc), items)?;
    let roomy = filled(Few::with_capacity(alloc, items.len())?, items)?;
    let moved = Few::from_vec(alloc, items.to_vec(alloc)?);
    Ok(grown.as_slice() == items && grown.len() == items.len() && grown == roomy && grown == moved)
}

#[test]
fn lists_of_few_hold_what_is_pushed(rt: HostRuntime) -> Result<(), AllocError> {
    let alloc = rt.alloc();
    for items in LISTS {
        assert!(rt; are_pushed(alloc, items)?);
    }
    assert!(rt; Few::one(alloc, 7).as_slice() == &[7][..]);
    assert!(rt; filled(Few::one(alloc, 7), &[8])? == filled(Few::new(alloc), &[7, 8])?);
    assert!(rt; Few::one(alloc, 7) != Few::one(alloc, 8) && Few::one(alloc, 7) != Few::new(alloc));
    assert!(rt; Few::<i32>::new(alloc).is_empty() && !Few::one(alloc, 7).is_empty());
    Ok(())
}

// Texts of no byte, and as many as stand in a text itself, one less and one more.
const LENGTHS: &[usize] = &[0, 1, 15, 16, 17, 40];

// Whether so many first bytes are those of a copy, of a text that is moved in, and of one that is moved out.
fn are_kept(alloc: Global, bytes: &[u8]) -> Result<bool, AllocError> {
    let copy = Bytes::copy_of(alloc, bytes)?;
    let moved = Bytes::from_vec(bytes.to_vec(alloc)?);
    let is_same = copy.bytes() == bytes && moved.bytes() == bytes && copy == moved;
    Ok(is_same && copy.into_vec()?.as_slice() == bytes && moved.into_vec()?.as_slice() == bytes)
}

#[test]
fn texts_of_any_length_are_kept(rt: HostRuntime) -> Result<(), AllocError> {
    let letters = b"abcdefghijklmnopqrstuvwxyz0123456789ABCD";
    for len in LENGTHS {
        assert!(rt; are_kept(rt.alloc(), &letters[..*len])?);
    }
    Ok(())
}

const TEXTS: &[&[u8]] = &[b"", b"a", b"a\0", b"ab", b"b", b"\xff"];

fn order_of(alloc: Global, one: &[u8], other: &[u8]) -> Result<(Ordering, bool), AllocError> {
    let one = Bytes::copy_of(alloc, one)?;
    let other = Bytes::copy_of(alloc, other)?;
    Ok((one.cmp(&other), one == other))
}

#[test]
fn texts_are_ordered_by_their_bytes(rt: HostRuntime) -> Result<(), AllocError> {
    for (i, one) in TEXTS.iter().enumerate() {
        for (k, other) in TEXTS.iter().enumerate() {
            let (order, is_equal) = order_of(rt.alloc(), one, other)?;
            assert!(rt; order == i.cmp(&k) && is_equal == (i == k));
        }
    }
    Ok(())
}

fn push_both(names: &mut Names) -> Result<(), AllocError> {
    names.push(b"a")?;
    names.push(b"b")
}

#[test]
fn names_are_counted_in_short_and_in_long_lists(rt: HostRuntime) -> Result<(), AllocError> {
    let mut names = Names::new(rt.alloc());
    for turn in 1..=12usize {
        push_both(&mut names)?;
        assert!(rt; names.count(b"a") == turn && names.count(b"b") == turn);
        assert!(rt; names.has(b"b") && !names.has(b"c"));
    }
    Ok(())
}

const SET: &[(usize, i32)] = &[(3, 30), (1, 10), (3, 31), (5, 50)];

fn places_set(alloc: Global) -> Result<Sparse<i32>, AllocError> {
    let mut list = Sparse::new(alloc, 5);
    for (place, value) in SET {
        list.set(*place, *value)?;
    }
    Ok(list)
}

const GOT: &[(usize, Option<i32>)] = &[(1, Some(10)), (3, Some(31)), (2, None), (5, None)];

#[test]
fn places_without_a_value_are_empty(rt: HostRuntime) -> Result<(), AllocError> {
    let list = places_set(rt.alloc())?;
    for (place, wanted) in GOT {
        assert!(rt; list.get(*place).copied() == *wanted);
    }
    assert!(rt; list.is_empty_at(4) && !list.is_empty_at(3) && !list.is_empty_at(5));
    Ok(())
}

#[test]
fn places_with_a_value_are_in_their_order(rt: HostRuntime) -> Result<(), AllocError> {
    let list = places_set(rt.alloc())?;
    let mut places = list.places();
    assert!(rt; places.next().copied() == Some(1) && places.next().copied() == Some(3));
    assert!(rt; places.next().is_none());
    Ok(())
}

fn canonical(alloc: Global) -> Result<Vec<u8>, AllocError> {
    let mut out = Vec::new(alloc);
    push_count(&mut out, u64::MAX)?;
    push_counts_behind(&mut out, &[4, 3])?;
    push_quoted(&mut out, b"a\"\\\n\tb")?;
    push_number(&mut out, i64::MIN)?;
    push_numbers_behind(&mut out, &[-1])?;
    push_numbers(&mut out, &[])?;
    push_numbers(&mut out, &[0, -2, 3])?;
    out.extend_from_slice(ElemType::Byte.word())?;
    Ok(out)
}

#[test]
fn words_of_the_canonical_text(rt: HostRuntime) -> Result<(), AllocError> {
    let want =
        "18446744073709551615 4 3\"a\\\"\\\\\\n\tb\"-9223372036854775808 -10 -2 3signed byte";
    assert!(rt; canonical(rt.alloc())?.as_slice() == want.as_bytes());
    Ok(())
}

fn below_ten(alloc: Global, n: u8) -> Result<Vec<u8>, Fail<u8>> {
    let mut list = Vec::new(alloc);
    list.push(n)?;
    if n < 10 {
        Ok(list)
    } else {
        Err(Fail::Refused(n))
    }
}

#[test]
fn a_refusal_is_told_from_want_of_memory(rt: HostRuntime) {
    let alloc = rt.alloc();
    assert!(rt; below_ten(alloc, 9).is_ok());
    assert!(rt; below_ten(alloc, 12).err() == Some(Fail::Refused(12)));
    assert!(rt; Fail::<u8>::from(AllocError) == Fail::Memory);
}
