//! Sessions whose files are missing, damaged or too large.
use crate::rows::{GRID, PLAIN, Row, all_hold};
use std::test::Fail;

// Files that are refused, each with the place.
const REFUSED: &[Row<'static>] = &[
    Row {
        what: "no file",
        session: &["Print(Import(\"none.dx\"));"],
        printed: &["error Import:1: NoFile"],
        status: 1,
        ..PLAIN
    },
    Row {
        what: "an item is missing",
        session: &["x = Import(\"a.dx\"); Print(x);"],
        files: &[(
            "a.dx",
            b"object 1 class array type int rank 0 items 3 data follows\n1 2",
        )],
        printed: &["error x/Import:1: BadFile Truncated 61"],
        status: 1,
        ..PLAIN
    },
    Row {
        what: "an item above the ints",
        session: &["x = Import(\"a.dx\"); Print(x);"],
        files: &[(
            "a.dx",
            b"object 1 class array type int rank 0 items 1 data follows\n2147483648\nend",
        )],
        printed: &["error x/Import:1: BadFile ValueRange 58"],
        status: 1,
        ..PLAIN
    },
    Row {
        what: "items of floating point",
        session: &["x = Import(\"a.dx\"); Print(x);"],
        files: &[(
            "a.dx",
            b"object 1 class array type float rank 0 items 1 data follows\n1\nend",
        )],
        printed: &["error x/Import:1: BadFile FloatType 26"],
        status: 1,
        ..PLAIN
    },
    Row {
        what: "a group that is its own member",
        session: &["x = Import(\"a.dx\"); Print(x);"],
        files: &[(
            "a.dx",
            b"object \"g\" class group\nmember 0 value \"g\"\nend",
        )],
        printed: &["error x/Import:1: BadFile TooDeep 7"],
        status: 1,
        ..PLAIN
    },
    Row {
        what: "a count of twenty digits",
        session: &["Print(Import(\"d.dx\"));"],
        files: &[(
            "d.dx",
            b"object 1 class array type int rank 0 items 99999999999999999999 data follows\n",
        )],
        printed: &["error Import:1: BadFile TooManyItems 43"],
        status: 1,
        ..PLAIN
    },
    Row {
        what: "an item more than an array may have",
        session: &["Print(Import(\"a.dx\"));"],
        files: &[(
            "a.dx",
            b"object 1 class constantarray type short rank 0 items 16777217 data follows\n7",
        )],
        printed: &["error Import:1: BadFile TooManyItems 53"],
        status: 1,
        ..PLAIN
    },
    Row {
        what: "a composite field that is its own member",
        session: &["Print(Import(\"c.dx\"));"],
        files: &[(
            "c.dx",
            b"object \"g\" class compositefield\nmember 0 value \"g\"\nend\n",
        )],
        printed: &["error Import:1: BadFile BadPart 47"],
        status: 1,
        ..PLAIN
    },
    Row {
        what: "a composite field whose member isn't there",
        session: &["Print(Import(\"c.dx\"));"],
        files: &[(
            "c.dx",
            b"object \"g\" class compositefield\nmember 0 value h\nend\n",
        )],
        printed: &["error Import:1: BadFile NoObject 47"],
        status: 1,
        ..PLAIN
    },
];

#[test]
fn files_are_refused(rt: HostRuntime) -> Result<(), Fail> {
    all_hold(rt.alloc(), REFUSED)
}

// Groups, each of which has the one before twice: the group 19 is just within the limit of an object.
const TWINS: &[u8] = b"\
    object 0 class array type int rank 0 items 1 data follows\n1\n\
    object 1 class group\nmember 0 value 0\nmember 1 value 0\n\
    object 2 class group\nmember 0 value 1\nmember 1 value 1\n\
    object 3 class group\nmember 0 value 2\nmember 1 value 2\n\
    object 4 class group\nmember 0 value 3\nmember 1 value 3\n\
    object 5 class group\nmember 0 value 4\nmember 1 value 4\n\
    object 6 class group\nmember 0 value 5\nmember 1 value 5\n\
    object 7 class group\nmember 0 value 6\nmember 1 value 6\n\
    object 8 class group\nmember 0 value 7\nmember 1 value 7\n\
    object 9 class group\nmember 0 value 8\nmember 1 value 8\n\
    object 10 class group\nmember 0 value 9\nmember 1 value 9\n\
    object 11 class group\nmember 0 value 10\nmember 1 value 10\n\
    object 12 class group\nmember 0 value 11\nmember 1 value 11\n\
    object 13 class group\nmember 0 value 12\nmember 1 value 12\n\
    object 14 class group\nmember 0 value 13\nmember 1 value 13\n\
    object 15 class group\nmember 0 value 14\nmember 1 value 14\n\
    object 16 class group\nmember 0 value 15\nmember 1 value 15\n\
    object 17 class group\nmember 0 value 16\nmember 1 value 16\n\
    object 18 class group\nmember 0 value 17\nmember 1 value 17\n\
    object 19 class group\nmember 0 value 18\nmember 1 value 18\n\
    object 20 class group\nmember 0 value 19\nmember 1 value 19\n\
";

// Files that end behind so many bytes, and what their Import comes to.
const CUT: &[(&[u8], usize, &str, u8)] = &[
    (GRID, 0, "error Import:1: BadFile NoVariable 0", 1),
    (GRID, 10, "error Import:1: BadFile NoVariable 10", 1),
    (GRID, 19, "error Import:1: BadFile Syntax 16", 1),
    (GRID, 22, "error Import:1: BadFile Truncated 22", 1),
    (GRID, 40, "error Import:1: BadFile UnknownClass 31", 1),
    (GRID, 44, "error Import:1: BadFile Truncated 44", 1),
    (GRID, 53, "error Import:1: BadFile Truncated 53", 1),
    (GRID, 77, "error Import:1: BadFile Truncated 77", 1),
    (GRID, 85, "error Import:1: BadFile Truncated 85", 1),
    (
        GRID,
        86,
        "array gridpositions int rank 1 shape 2 items 12",
        0,
    ),
    (
        GRID,
        87,
        "array gridpositions int rank 1 shape 2 items 12",
        0,
    ),
    (
        GRID,
        88,
        "array gridpositions int rank 1 shape 2 items 12",
        0,
    ),
    (TWINS, 1133, "group 2 members", 0),
    (TWINS, 1191, "error Import:1: BadFile TooLarge 1140", 1),
];

#[test]
fn files_are_cut(rt: HostRuntime) -> Result<(), Fail> {
    for (file, length, printed, status) in CUT {
        let Some(begun) = file.get(..*length) else {
            return Err(Fail::from("no such length"));
        };
        let row = Row {
            what: *printed,
            session: &["Print(Import(\"d.dx\"));"],
            files: &[("d.dx", begun)],
            printed: &[*printed],
            status: *status,
            ..PLAIN
        };
        all_hold(rt.alloc(), &[row])?;
    }
    Ok(())
}
