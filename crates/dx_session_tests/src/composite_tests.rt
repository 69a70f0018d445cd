//! Sessions over composite fields.
use crate::rows::{ITEM, NUMBER, PLAIN, Row, all_hold};
use std::test::Fail;

// Two fields, one of them named.
const MEMBERS: &[u8] = b"\
object 1 class array type int rank 0 items 1 data follows
5
object 2 class field
component \"data\" value 1
object 3 class compositefield
member \"a\" value 2
member 1 value 2
end
";

// The data of each of them.
const EXTRACTED: &[u8] = b"\
object 1 class array type int rank 0 items 1 data follows
5
object 2 class array type int rank 0 items 1 data follows
5
object 3 class group
member \"a\" value 1
member 1 value 2
end
";

// Fields of other data, and still composite.
const DOUBLED: &[u8] = b"\
object 1 class array type int rank 0 items 1 data follows
10
object 2 class field
component \"data\" value 1
object 3 class array type int rank 0 items 1 data follows
10
object 4 class field
component \"data\" value 3
object 5 class compositefield
member \"a\" value 2
member 1 value 4
end
";

// Groups of fields.
const SUMS: &[u8] = b"\
object 1 class array type int rank 0 items 1 data follows
6
object 2 class field
component \"data\" value 1
object 3 class array type int rank 0 items 1 data follows
7
object 4 class field
component \"data\" value 3
object 5 class group
member 0 value 2
member 1 value 4
object 6 class array type int rank 0 items 1 data follows
8
object 7 class field
component \"data\" value 6
object 8 class array type int rank 0 items 1 data follows
9
object 9 class field
component \"data\" value 8
object 10 class group
member 0 value 7
member 1 value 9
object 11 class group
member \"a\" value 5
member 1 value 10
end
";

// A group that is like a composite field, and is none.
const GROUPED: &[u8] = b"\
object 1 class array type int rank 0 items 1 data follows
6
object 2 class field
component \"data\" value 1
object 3 class array type int rank 0 items 1 data follows
7
object 4 class field
component \"data\" value 3
object 5 class group
member 0 value 2
member 1 value 4
end
";

// A composite field without members.
const EMPTY: &[u8] = b"\
object 1 class compositefield
end
";

// What modules make of a composite field.
const MADE: &[Row<'static>] = &[
    Row {
        what: "a composite field is printed as a group, and is composite as long as its members are fields",
        session: &[
            "g = Import(\"m.dx\"); Print(g); Print(Select(Compute(\"$0 + 1\", g), \"a\"), \"r\"); ",
            "Export(Extract(g), \"o\"); Export(Compute(\"$0 * 2\", g), \"p\");",
        ],
        files: &[("m.dx", MEMBERS)],
        printed: &[
            "group 2 members",
            "field 1 components",
            "  component \"data\":",
            "    array plain int rank 0 items 1",
        ],
        puts: &[("o", EXTRACTED), ("p", DOUBLED)],
        ..PLAIN
    },
    Row {
        what: "an expression whose answers for the members are groups",
        session: &[
            "g = Import(\"m.dx\"); ",
            "Export(Compute(\"$0 + $1\", g, Collect(Collect(1, 2), Collect(3, 4))), \"q\");",
        ],
        files: &[("m.dx", MEMBERS)],
        puts: &[("q", SUMS)],
        ..PLAIN
    },
    Row {
        what: "an expression over a group first, and a composite field behind it",
        session: &["g = Import(\"m.dx\"); Export(Compute(\"$0 + $1\", Collect(1, 2), g), \"p\");"],
        files: &[("m.dx", MEMBERS)],
        puts: &[("p", GROUPED)],
        ..PLAIN
    },
    Row {
        what: "a composite field without members stays one",
        session: &["Export(Extract(Import(\"e.dx\")), \"o\");"],
        files: &[("e.dx", EMPTY)],
        puts: &[("o", EMPTY)],
        ..PLAIN
    },
];

#[test]
fn what_is_made_of_a_composite_field(rt: HostRuntime) -> Result<(), Fail> {
    all_hold(rt.alloc(), MADE)
}

// What is seen of a composite field, and what refuses it.
const SEEN: &[Row<'static>] = &[
    Row {
        what: "an inquiry takes it for a group, and Print finds its members",
        session: &[
            "g = Import(\"m.dx\"); ",
            "Echo(Inquire(g, \"is group\"), Inquire(g, \"is field\"), Inquire(g, \"member count\")); ",
            "Print(g, \"o\", \"a\");",
        ],
        files: &[("m.dx", MEMBERS)],
        printed: &["1 0 2", "field 1 components"],
        ..PLAIN
    },
    Row {
        what: "a link holds it as what it is",
        words: &["--links", "s.net"],
        session: &["SetGlobal(Import(\"m.dx\"), \"n\");"],
        files: &[("m.dx", MEMBERS)],
        printed: &[
            "links 1",
            "link global \"n\"",
            ITEM,
            "5",
            "object 2 class field",
            "component \"data\" value 1",
            "object 3 class array type int rank 0 items 1 data follows",
            "5",
            "object 4 class field",
            "component \"data\" value 3",
            "object 5 class compositefield",
            "member \"a\" value 2",
            "member 1 value 4",
            "end",
        ],
        ..PLAIN
    },
    Row {
        what: "what needs a field refuses it",
        session: &[
            "g = Import(\"m.dx\"); Print(Statistics(g)); Print(Histogram(g)); Print(Slab(g)); ",
            "Print(Mark(g, \"data\")); Print(Unmark(g, \"data\")); Print(Replace(1, g));",
        ],
        files: &[("m.dx", MEMBERS)],
        printed: &[
            "error Statistics:1: BadArgument",
            "error Histogram:1: BadArgument",
            "error Slab:1: BadArgument",
            "error Mark:1: BadArgument",
            "error Unmark:1: BadArgument",
            "error Replace:1: BadArgument",
        ],
        status: 1,
        ..PLAIN
    },
];

#[test]
fn what_is_seen_of_a_composite_field(rt: HostRuntime) -> Result<(), Fail> {
    all_hold(rt.alloc(), SEEN)
}
