//! The order of the checks: of what is wrong at once, the code of the first; and the largest series.
use crate::asked::{Given, all_give, slabs};
use crate::fields::{
    APART, ARRAY, BENT, CLASSES, COMPOSITE, FULL, GROUP, LINE, LOOSE, LOST, PLANE, POINT, REFERS,
    SELF, SERIES, SIDE, SOLID, STRAY, WIDE, WORDS,
};
use std::alloc::Global;
use std::test::Fail;

const NULL: Given<'static> = Given::Null;

const NOTHING: &str = "";

const REFUSED: [(&str, [Given<'static>; 3], &str); 36] = [
    (
        NOTHING,
        [Given::Number(0), Given::Number(0), Given::Number(0)],
        "BadArgument",
    ),
    (
        ARRAY,
        [Given::Number(0), Given::Number(0), Given::Number(0)],
        "BadArgument",
    ),
    (
        WORDS,
        [Given::Number(0), Given::Number(0), Given::Number(0)],
        "BadArgument",
    ),
    (
        GROUP,
        [Given::Number(0), Given::Number(0), Given::Number(0)],
        "BadArgument",
    ),
    (
        COMPOSITE,
        [Given::Number(0), Given::Number(0), Given::Number(0)],
        "BadArgument",
    ),
    (
        SERIES,
        [Given::Number(0), Given::Number(0), Given::Number(0)],
        "BadArgument",
    ),
    (
        LOST,
        [Given::Number(0), Given::Number(0), Given::Number(0)],
        "BadField",
    ),
    (
        STRAY,
        [Given::Number(0), Given::Number(0), Given::Number(0)],
        "BadField",
    ),
    (
        SELF,
        [Given::Number(0), Given::Number(0), Given::Number(0)],
        "NotRegular",
    ),
    (
        SIDE,
        [Given::Number(0), Given::Number(0), Given::Number(0)],
        "NotRegular",
    ),
    (
        BENT,
        [Given::Number(0), Given::Number(0), Given::Number(0)],
        "NotRegular",
    ),
    (
        LOOSE,
        [Given::Number(0), Given::Number(0), Given::Number(0)],
        "NotRegular",
    ),
    (
        REFERS,
        [NULL, Given::Number(0), Given::Number(0)],
        "NotRegular",
    ),
    (
        APART,
        [Given::Number(0), Given::Number(5), Given::Number(0)],
        "NotRegular",
    ),
    (
        SIDE,
        [Given::Number(0), Given::Number(0), Given::Number(-1)],
        "NotRegular",
    ),
    (
        PLANE,
        [Given::Vector(0), Given::Number(0), Given::Number(0)],
        "BadArgument",
    ),
    (
        PLANE,
        [Given::Number(0), Given::Vector(0), Given::Number(0)],
        "BadArgument",
    ),
    (
        PLANE,
        [Given::Number(0), Given::Number(0), Given::Vector(0)],
        "BadArgument",
    ),
    (
        PLANE,
        [Given::Text("X"), Given::Number(0), Given::Number(0)],
        "BadArgument",
    ),
    (
        PLANE,
        [Given::Text(""), Given::Number(0), Given::Number(0)],
        "BadArgument",
    ),
    (
        CLASSES,
        [Given::Text("y"), Given::Number(0), Given::Number(0)],
        "BadArgument",
    ),
    (
        CLASSES,
        [Given::Number(1), Given::Number(0), Given::Number(0)],
        "BadArgument",
    ),
    (
        SOLID,
        [Given::Number(3), Given::Number(0), Given::Number(0)],
        "BadArgument",
    ),
    (
        PLANE,
        [Given::Number(0), Given::Number(-1), Given::Number(1)],
        "BadArgument",
    ),
    (
        PLANE,
        [Given::Number(1), Given::Number(2), Given::Number(1)],
        "BadArgument",
    ),
    (
        PLANE,
        [
            Given::Number(0),
            Given::Number(2147483647),
            Given::Number(2147483647),
        ],
        "BadArgument",
    ),
    (
        PLANE,
        [
            Given::Number(0),
            Given::Constant(4294967295),
            Given::Constant(4294967295),
        ],
        "BadArgument",
    ),
    (
        PLANE,
        [
            Given::Constant(4294967295),
            Given::Number(0),
            Given::Number(0),
        ],
        "BadArgument",
    ),
    (
        PLANE,
        [Given::Number(0), NULL, Given::Constant(4294967295)],
        "BadArgument",
    ),
    (
        LINE,
        [Given::Number(0), NULL, Given::Number(1)],
        "BadArgument",
    ),
    (
        POINT,
        [Given::Number(0), Given::Number(1), NULL],
        "BadArgument",
    ),
    (
        WIDE,
        [Given::Number(0), Given::Number(2), Given::Number(0)],
        "BadArgument",
    ),
    (
        WIDE,
        [Given::Number(0), NULL, Given::Number(2)],
        "BadArgument",
    ),
    (WIDE, [Given::Number(2), NULL, NULL], "BadArgument"),
    (
        WIDE,
        [Given::Number(0), Given::Number(0), Given::Number(-1)],
        "BadArgument",
    ),
    (
        WIDE,
        [Given::Number(0), Given::Number(0), Given::Number(0)],
        "TooLarge",
    ),
];

#[test]
fn the_first_refusal_decides(rt: HostRuntime) -> Result<(), Fail> {
    all_give(rt.alloc(), &REFUSED)
}

const TOO_MANY: [(&str, [Given<'static>; 3], &str); 1] = [(
    FULL,
    [Given::Number(0), NULL, NULL],
    "TooLarge",
)];

// How many members the series of the slabs of this thickness has.
fn members(alloc: Global, field: &str, thickness: i64) -> Result<usize, Fail> {
    let given = [Given::Number(0), NULL, Given::Number(thickness)];
    let Ok(results) = slabs(alloc, field, given)? else {
        return Err(Fail::from("refused"));
    };
    match results.value(0) {
        None => Ok(0),
        Some(series) => Ok(series.parts().len()),
    }
}

#[test]
fn the_largest_series(rt: HostRuntime) -> Result<(), Fail> {
    let alloc = rt.alloc();
    assert!(rt; members(alloc, FULL, 1)? == 15);
    all_give(alloc, &TOO_MANY)
}
