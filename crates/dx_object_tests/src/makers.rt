//! What the six makers answer, and what `Measure` tells of an object before it is made.
use crate::shown::{measure_of, push_made};
use crate::stock::{Words, made_of, object, parts, twelve};
use dx_base::Bytes;
use dx_objects::{Measure, Object, ObjectError, Parts};
use std::alloc::Global;
use std::test::Fail;

// What is told of an object before it is made, and the object or why it isn't made.
type Made = (Measure, Result<Object, ObjectError>);

fn array(alloc: Global, attributes: Parts) -> Result<Made, Fail> {
    let array = twelve(alloc)?;
    let told = Measure::array(&array, attributes.as_slice());
    Ok((told, Object::array(array, attributes)))
}

fn hello(alloc: Global, attributes: Parts) -> Result<Made, Fail> {
    let told = Measure::text(b"hello", attributes.as_slice());
    let text = Bytes::copy_of(alloc, b"hello")?;
    Ok((told, Object::text(text, attributes)))
}

fn whole(maker: u8, parts: Parts, attributes: Parts) -> Made {
    let told = match maker {
        b's' => Measure::series(parts.as_slice(), attributes.as_slice()),
        _ => Measure::group(parts.as_slice(), attributes.as_slice()),
    };
    (told, made_of(maker, parts, attributes))
}

// `a` and `t` make an array of twelve ints and the text `hello`, `f`, `g`, `c` and `s` an object of these parts.
fn make(alloc: Global, maker: u8, members: Words<'_>, attributes: Words<'_>) -> Result<Made, Fail> {
    let attributes = parts(alloc, attributes)?;
    match maker {
        b'a' => array(alloc, attributes),
        b't' => hello(alloc, attributes),
        _ => Ok(whole(maker, parts(alloc, members)?, attributes)),
    }
}

// Whether what was told is this, and is right of what was made.
fn is_right(told: Measure, made: &Result<Object, ObjectError>, measure: [u64; 3]) -> bool {
    let [size, count, levels] = measure;
    let is_told = told.size == size && told.count == count && told.levels == levels;
    let is_deep = told.is_too_deep() == (levels > 64);
    is_told
        && is_deep
        && match made {
            Ok(object) => told.fits() && measure_of(object) == told,
            Err(ObjectError::TooLarge) => !told.fits(),
            Err(_) => true,
        }
}

// The maker, its parts and its attributes; the size, the count and the levels; and what is made.
type Row<'a> = (u8, Words<'a>, Words<'a>, [u64; 3], &'a str);

fn holds(alloc: Global, row: &Row<'_>) -> Result<bool, Fail> {
    let (maker, members, attributes, measure, wanted) = row;
    let (told, made) = make(alloc, *maker, members, attributes)?;
    let mut text = Vec::new(alloc);
    push_made(&mut text, &made)?;
    Ok(is_right(told, &made, *measure) && text.as_slice() == wanted.as_bytes())
}

fn check(alloc: Global, rows: &[Row<'_>]) -> Result<(), Fail> {
    for row in rows {
        if !holds(alloc, row)? {
            return Err(Fail::from(row.4));
        }
    }
    Ok(())
}

const LEAVES: &[Row<'static>] = &[
    (b'a', &[], &[], [112, 1, 1], "a items 12 |"),
    (
        b'a',
        &[],
        &[(b"x", b't')],
        [178, 2, 2],
        "a items 12 | x@0=65",
    ),
    (b'a', &[], &[(b"", b't')], [177, 2, 2], "BadNames"),
    (
        b'a',
        &[],
        &[(b"x", b't'), (b"x", b'n')],
        [247, 3, 2],
        "BadNames",
    ),
    (b'a', &[], &[(b"x", b'd')], [4209, 65, 65], "TooLarge"),
    (
        b'a',
        &[],
        &[(b"x", b'd'), (b"x", b'd')],
        [8306, 129, 65],
        "BadNames",
    ),
    (b't', &[], &[], [69, 1, 1], "t text hello |"),
    (
        b't',
        &[],
        &[(b"x", b't'), (b"yy", b'f')],
        [201, 3, 2],
        "t text hello | x@0=65 yy@0=64",
    ),
    (b't', &[], &[(b"", b'd')], [4165, 65, 65], "BadNames"),
    (
        b't',
        &[],
        &[(b"x", b'm')],
        [67_108_934, 1_048_577, 22],
        "TooLarge",
    ),
    (
        b't',
        &[],
        &[(b"x", b'b')],
        [268_435_462, 891, 3],
        "TooLarge",
    ),
];

const FIELDS: &[Row<'static>] = &[
    (b'f', &[], &[], [64, 1, 1], "f |"),
    (
        b'f',
        &[(b"a", b'a'), (b"b", b'n')],
        &[],
        [246, 3, 2],
        "f a@0=112 b@0=68 |",
    ),
    (
        b'f',
        &[(b"a", b'a')],
        &[(b"a", b't')],
        [243, 3, 2],
        "f a@0=112 | a@0=65",
    ),
    (
        b'f',
        &[(b"a", b'a'), (b"a", b'a')],
        &[],
        [290, 3, 2],
        "BadNames",
    ),
    (b'f', &[(b"", b'a')], &[], [176, 2, 2], "BadNames"),
    (b'f', &[(b"a", b't')], &[], [130, 2, 2], "NotAnArray"),
    (b'f', &[(b"a", b'f')], &[], [129, 2, 2], "NotAnArray"),
    (
        b'f',
        &[(b"a", b'a'), (b"b", b'g')],
        &[],
        [242, 3, 2],
        "NotAnArray",
    ),
    (
        b'f',
        &[(b"a", b't'), (b"a", b'a')],
        &[],
        [243, 3, 2],
        "BadNames",
    ),
    (
        b'f',
        &[(b"a", b't')],
        &[(b"", b't')],
        [195, 3, 2],
        "BadNames",
    ),
    (
        b'f',
        &[(b"a", b't')],
        &[(b"x", b'd')],
        [4227, 66, 65],
        "NotAnArray",
    ),
    (
        b'f',
        &[(b"a", b'a'), (b"a", b'a')],
        &[(b"x", b'd')],
        [4387, 67, 65],
        "BadNames",
    ),
    (
        b'f',
        &[(b"a", b'a')],
        &[(b"x", b'd')],
        [4274, 66, 65],
        "TooLarge",
    ),
    (
        b'f',
        &[],
        &[(b"x", b'b')],
        [268_435_457, 891, 3],
        "TooLarge",
    ),
];

const GROUPS: &[Row<'static>] = &[
    (b'g', &[], &[], [64, 1, 1], "g |"),
    (
        b'g',
        &[(b"a", b'f'), (b"", b't'), (b"", b't')],
        &[(b"a", b't')],
        [325, 5, 2],
        "g a@0=64 @0=65 @0=65 | a@0=65",
    ),
    (b'g', &[(b"a", b'f')], &[], [129, 2, 2], "g a@0=64 |"),
    (
        b'g',
        &[(b"a", b't'), (b"", b'f'), (b"a", b'n')],
        &[],
        [263, 4, 2],
        "BadNames",
    ),
    (b'g', &[], &[(b"", b't')], [129, 2, 2], "BadNames"),
    (
        b'g',
        &[(b"a", b'd'), (b"a", b'd')],
        &[],
        [8258, 129, 65],
        "BadNames",
    ),
    (b'g', &[(b"", b'd')], &[], [4160, 65, 65], "TooLarge"),
    (b'g', &[(b"", b'e')], &[], [4161, 65, 65], "TooLarge"),
    (
        b'g',
        &[(b"", b'm')],
        &[],
        [67_108_928, 1_048_577, 22],
        "TooLarge",
    ),
    (
        b'g',
        &[(b"", b'b')],
        &[],
        [268_435_456, 891, 3],
        "g @0=268435392 |",
    ),
    (
        b'g',
        &[(b"x", b'b')],
        &[],
        [268_435_457, 891, 3],
        "TooLarge",
    ),
];

const COMPOSITE_GROUPS: &[Row<'static>] = &[
    (b'c', &[], &[], [64, 1, 1], "c |"),
    (b'c', &[(b"", b'f')], &[], [128, 2, 2], "c @0=64 |"),
    (
        b'c',
        &[(b"a", b'f'), (b"bc", b'f'), (b"", b'e')],
        &[],
        [4292, 67, 65],
        "TooLarge",
    ),
    (
        b'c',
        &[(b"a", b'f'), (b"bc", b'f'), (b"", b'f')],
        &[(b"a", b't')],
        [325, 5, 2],
        "c a@0=64 bc@0=64 @0=64 | a@0=65",
    ),
    (b'c', &[(b"a", b'a')], &[], [177, 2, 2], "MemberNotAField"),
    (b'c', &[(b"a", b't')], &[], [130, 2, 2], "MemberNotAField"),
    (b'c', &[(b"", b'g')], &[], [128, 2, 2], "MemberNotAField"),
    (b'c', &[(b"", b'c')], &[], [128, 2, 2], "MemberNotAField"),
    (b'c', &[(b"", b's')], &[], [128, 2, 2], "MemberNotAField"),
    (
        b'c',
        &[(b"a", b'f'), (b"b", b't')],
        &[],
        [195, 3, 2],
        "MemberNotAField",
    ),
    (
        b'c',
        &[(b"a", b'f'), (b"a", b'f')],
        &[],
        [194, 3, 2],
        "BadNames",
    ),
    (
        b'c',
        &[(b"a", b't'), (b"a", b'f')],
        &[],
        [195, 3, 2],
        "BadNames",
    ),
    (
        b'c',
        &[(b"a", b't')],
        &[(b"", b't')],
        [195, 3, 2],
        "BadNames",
    ),
    (
        b'c',
        &[(b"a", b'f')],
        &[(b"x", b't'), (b"x", b't')],
        [261, 4, 2],
        "BadNames",
    ),
    (
        b'c',
        &[(b"a", b'e'), (b"a", b'e')],
        &[],
        [8260, 129, 65],
        "BadNames",
    ),
    (
        b'c',
        &[(b"a", b't')],
        &[(b"x", b'd')],
        [4227, 66, 65],
        "MemberNotAField",
    ),
    (
        b'c',
        &[(b"a", b'e'), (b"b", b't')],
        &[],
        [4228, 66, 65],
        "MemberNotAField",
    ),
    (b'c', &[(b"a", b'e')], &[], [4162, 65, 65], "TooLarge"),
    (
        b'c',
        &[],
        &[(b"x", b'm')],
        [67_108_929, 1_048_577, 22],
        "TooLarge",
    ),
    (
        b'c',
        &[],
        &[(b"x", b'b')],
        [268_435_457, 891, 3],
        "TooLarge",
    ),
];

const SERIES: &[Row<'static>] = &[
    (b's', &[], &[], [64, 1, 1], "s |"),
    (
        b's',
        &[(b"", b't'), (b"", b'f'), (b"", b'n')],
        &[(b"x", b't')],
        [339, 5, 2],
        "s @-1=65 @0=64 @1=68 | x@0=65",
    ),
    (b's', &[(b"a", b't')], &[], [134, 2, 2], "BadNames"),
    (
        b's',
        &[(b"", b't')],
        &[(b"", b't')],
        [198, 3, 2],
        "BadNames",
    ),
    (b's', &[(b"a", b'd')], &[], [4165, 65, 65], "BadNames"),
    (b's', &[(b"", b'd')], &[], [4164, 65, 65], "TooLarge"),
    (
        b's',
        &[],
        &[(b"x", b'm')],
        [67_108_929, 1_048_577, 22],
        "TooLarge",
    ),
    (b's', &[(b"", b'b')], &[], [268_435_460, 891, 3], "TooLarge"),
];

#[test]
fn arrays_and_texts(rt: HostRuntime) -> Result<(), Fail> {
    check(rt.alloc(), LEAVES)
}

#[test]
fn fields(rt: HostRuntime) -> Result<(), Fail> {
    check(rt.alloc(), FIELDS)
}

#[test]
fn groups(rt: HostRuntime) -> Result<(), Fail> {
    check(rt.alloc(), GROUPS)
}

#[test]
fn composite_groups(rt: HostRuntime) -> Result<(), Fail> {
    check(rt.alloc(), COMPOSITE_GROUPS)
}

#[test]
fn series(rt: HostRuntime) -> Result<(), Fail> {
    check(rt.alloc(), SERIES)
}

// Objects of the stock; the size, the count and the levels.
const AT_THE_LIMITS: &[(u8, [u64; 3])] = &[
    (b'd', [4096, 64, 64]),
    (b'e', [4097, 64, 64]),
    (b'm', [67_108_864, 1_048_576, 21]),
    (b'w', [67_108_864, 1_048_576, 2]),
    (b'b', [268_435_392, 890, 2]),
];

#[test]
fn objects_at_the_limits(rt: HostRuntime) -> Result<(), Fail> {
    for (id, measure) in AT_THE_LIMITS {
        let made = measure_of(&*object(rt.alloc(), *id)?);
        assert!(rt; [made.size, made.count, made.levels] == *measure);
    }
    Ok(())
}
