//! What Print shows of objects within objects, and of the component or the member that is asked for.
use crate::described::{Body, Entry, Items, last_of};
use crate::printed::{printed, prints};
use dx_arrays::ElemType;
use dx_base::Bytes;
use dx_objects::{Object, Part, Parts, Value};
use std::alloc::Global;
use std::rc::Rc;
use std::test::Fail;

// A group of a series, a text and a composite group, with an attribute. Two of the objects stand in it more than once.
const DEEP: [Entry<'static>; 7] = [
    (Body::Text(b"m"), &[], &[]),
    (
        Body::Array(Items::Plain(ElemType::Int, &[], &[5])),
        &[],
        &[("unit", 0, 0)],
    ),
    (Body::Array(Items::Line(51, 1, 1)), &[], &[]),
    (Body::Series, &[("", -3, 1), ("", 7, 2)], &[]),
    (Body::Field, &[("data", 0, 1)], &[]),
    (Body::Composite, &[("f", 0, 4)], &[]),
    (
        Body::Group,
        &[("a", 0, 3), ("", 0, 0), ("q\"\\", 0, 5)],
        &[("two\nlines", 0, 1)],
    ),
];

const WITHOUT_ITEMS: &str =
    "group 3 members\n  member \"a\":\n    series 2 members\n      member at -3:\n        array plain int rank 0 items 1\n          attribute \"unit\":\n            text \"m\"\n      member at 7:\n        array regular int rank 0 items 51\n  member:\n    text \"m\"\n  member \"q\\\"\\\\\":\n    group 1 members\n      member \"f\":\n        field 1 components\n          component \"data\":\n            array plain int rank 0 items 1\n              attribute \"unit\":\n                text \"m\"\n  attribute \"two\\nlines\":\n    array plain int rank 0 items 1\n      attribute \"unit\":\n        text \"m\"\n";

const WITH_SOME_ITEMS: &str =
    "group 3 members\n  member \"a\":\n    series 2 members\n      member at -3:\n        array plain int rank 0 items 1\n        5\n          attribute \"unit\":\n            text \"m\"\n      member at 7:\n        array regular int rank 0 items 51\n        1\n        2\n        3\n        4\n        5\n        6\n        7\n        8\n        9\n        10\n        11\n        12\n        13\n        14\n        15\n        16\n        17\n        18\n        19\n        20\n        21\n        22\n        23\n        24\n        25\n        ...\n        27\n        28\n        29\n        30\n        31\n        32\n        33\n        34\n        35\n        36\n        37\n        38\n        39\n        40\n        41\n        42\n        43\n        44\n        45\n        46\n        47\n        48\n        49\n        50\n        51\n  member:\n    text \"m\"\n  member \"q\\\"\\\\\":\n    group 1 members\n      member \"f\":\n        field 1 components\n          component \"data\":\n            array plain int rank 0 items 1\n            5\n              attribute \"unit\":\n                text \"m\"\n  attribute \"two\\nlines\":\n    array plain int rank 0 items 1\n    5\n      attribute \"unit\":\n        text \"m\"\n";

const WITH_ALL_ITEMS: &str =
    "group 3 members\n  member \"a\":\n    series 2 members\n      member at -3:\n        array plain int rank 0 items 1\n        5\n          attribute \"unit\":\n            text \"m\"\n      member at 7:\n        array regular int rank 0 items 51\n        1\n        2\n        3\n        4\n        5\n        6\n        7\n        8\n        9\n        10\n        11\n        12\n        13\n        14\n        15\n        16\n        17\n        18\n        19\n        20\n        21\n        22\n        23\n        24\n        25\n        26\n        27\n        28\n        29\n        30\n        31\n        32\n        33\n        34\n        35\n        36\n        37\n        38\n        39\n        40\n        41\n        42\n        43\n        44\n        45\n        46\n        47\n        48\n        49\n        50\n        51\n  member:\n    text \"m\"\n  member \"q\\\"\\\\\":\n    group 1 members\n      member \"f\":\n        field 1 components\n          component \"data\":\n            array plain int rank 0 items 1\n            5\n              attribute \"unit\":\n                text \"m\"\n  attribute \"two\\nlines\":\n    array plain int rank 0 items 1\n    5\n      attribute \"unit\":\n        text \"m\"\n";

type Row<'a> = (Option<&'a str>, Option<&'a str>, &'a str);

// Options, the component, and what is printed.
const ROWS: [Row<'static>; 16] = [
    (Some("r"), None, WITHOUT_ITEMS),
    (Some("oor"), None, WITHOUT_ITEMS),
    (Some("rd"), None, WITH_SOME_ITEMS),
    (Some("dr"), None, WITH_SOME_ITEMS),
    (Some("rD"), None, WITH_ALL_ITEMS),
    (Some("Ddrd"), None, WITH_ALL_ITEMS),
    (Some("dD"), None, "group 3 members\n"),
    (None, Some("a"), "series 2 members\n"),
    (Some("d"), Some("q\"\\"), "group 1 members\n"),
    (
        Some("r"),
        Some("q\"\\"),
        "group 1 members\n  member \"f\":\n    field 1 components\n      component \"data\":\n        array plain int rank 0 items 1\n          attribute \"unit\":\n            text \"m\"\n",
    ),
    // Neither an attribute, nor a member without a name, nor a part of a part.
    (None, Some("two\nlines"), "NoComponent"),
    (None, Some(""), "NoComponent"),
    (None, Some("f"), "NoComponent"),
    (Some("r"), Some("A"), "NoComponent"),
    (Some("R"), Some("a"), "Unsupported"),
    (Some("O"), Some("f"), "Unsupported"),
];

// Prints the object with the options and the component of each row. Another text is the failure.
fn all_print(alloc: Global, object: &Value, rows: &[Row]) -> Result<(), Fail> {
    for (options, component, text) in rows {
        if !prints(alloc, object, *options, *component, text)? {
            return Err(Fail::from(*text));
        }
    }
    Ok(())
}

#[test]
fn parts_and_attributes_are_shown_to_any_depth(rt: HostRuntime) -> Result<(), Fail> {
    let object = last_of(rt.alloc(), &DEEP)?;
    all_print(rt.alloc(), &object, &ROWS)
}

#[test]
fn a_composite_group_has_members(rt: HostRuntime) -> Result<(), Fail> {
    let object = last_of(rt.alloc(), &DEEP[..6])?;
    assert!(rt; prints(rt.alloc(), &object, None, Some("f"), "field 1 components\n")?);
    Ok(())
}

// A group of one member.
fn around(alloc: Global, object: Rc<Object>) -> Result<Rc<Object>, Fail> {
    let mut members = Parts::new(alloc);
    members.push(Part {
        name: None,
        position: 0,
        object,
    })?;
    match Object::group(members, Parts::new(alloc)) {
        Ok(group) => Ok(Rc::new(alloc, group)?),
        Err(_) => Err(Fail::from("too many levels")),
    }
}

// A text in as many groups as there can be around it.
fn deepest(alloc: Global) -> Result<Value, Fail> {
    let Some(text) = last_of(alloc, &DEEP[..1])? else {
        return Err(Fail::from("no text"));
    };
    let mut object = text;
    for _level in 1..64 {
        object = around(alloc, object)?;
    }
    Ok(Some(object))
}

// How many spaces stand before the last of so many bytes of a text.
fn spaces_before(text: &Bytes, last: usize) -> usize {
    let mut spaces: usize = 0;
    for byte in text.bytes().iter().rev().skip(last) {
        if *byte != b' ' {
            return spaces;
        }
        spaces = spaces.saturating_add(1);
    }
    spaces
}

#[test]
fn the_last_of_64_levels_stands_four_spaces_a_level_further_in(
    rt: HostRuntime,
) -> Result<(), Fail> {
    let object = deepest(rt.alloc())?;
    let Ok(text) = printed(rt.alloc(), &object, Some("r"), None)? else {
        return Err(Fail::from("refused"));
    };
    assert!(rt; text.bytes().ends_with(b"text \"m\"\n"));
    assert!(rt; spaces_before(&text, 9) == 252);
    Ok(())
}
