//! What Print and Echo write of values of each kind, and what Print refuses.
use crate::arrays_made::{Given, array};
use dx_arrays::{Array, ElemType};
use dx_base::{Bytes, Code};
use dx_objects::{Kind, Object, Outs, Part, Parts, RunFail, Value};
use dx_print::{echo_text, print_text};
use std::alloc::Global;
use std::rc::Rc;
use std::test::Fail;

// An input of a call. The lists of parts are names, where an empty one is none.
#[derive(Clone, Copy)]
enum Sample<'a> {
    Null,
    Text(&'a [u8]),
    Array(Given<'a>),
    Field(&'a [&'a [u8]]),
    Group(&'a [&'a [u8]]),
    Series(&'a [&'a [u8]]),
    /// A group of one member `a` with an attribute `b`.
    Attributed,
}

fn of_array(alloc: Global, array: Array) -> Result<Object, Fail> {
    Ok(Object::array(array, Parts::new(alloc))?)
}

fn of_text(alloc: Global, text: &[u8]) -> Result<Object, Fail> {
    let object = Object::text(Bytes::copy_of(alloc, text)?, Parts::new(alloc))?;
    Ok(object)
}

fn name_of(alloc: Global, name: &[u8]) -> Result<Option<Bytes>, Fail> {
    if name.is_empty() {
        return Ok(None);
    }
    Ok(Some(Bytes::copy_of(alloc, name)?))
}

// The cells between three points.
fn two_cells(alloc: Global) -> Result<Rc<Object>, Fail> {
    let object = of_array(alloc, array(alloc, &Given::Cells(&[3]))?)?;
    Ok(Rc::new(alloc, object)?)
}

fn part(alloc: Global, name: &[u8]) -> Result<Part, Fail> {
    let object = two_cells(alloc)?;
    Ok(Part {
        name: name_of(alloc, name)?,
        position: 0,
        object,
    })
}

// Parts of these names, each with two cells.
fn parts(alloc: Global, names: &[&[u8]]) -> Result<Parts, Fail> {
    let mut parts = Parts::new(alloc);
    for name in names {
        parts.push(part(alloc, name)?)?;
    }
    Ok(parts)
}

fn whole(alloc: Global, kind: Kind, names: &[&[u8]]) -> Result<Object, Fail> {
    let (parts, none) = (parts(alloc, names)?, Parts::new(alloc));
    Ok(match kind {
        Kind::Field => Object::field(parts, none)?,
        Kind::Series => Object::series(parts, none)?,
        _ => Object::group(parts, none)?,
    })
}

fn attributed(alloc: Global) -> Result<Object, Fail> {
    let (members, attributes) = (parts(alloc, &[b"a"])?, parts(alloc, &[b"b"])?);
    Ok(Object::group(members, attributes)?)
}

fn object(alloc: Global, sample: &Sample<'_>) -> Result<Option<Object>, Fail> {
    Ok(Some(match sample {
        Sample::Null => return Ok(None),
        Sample::Text(text) => of_text(alloc, text)?,
        Sample::Array(given) => of_array(alloc, array(alloc, given)?)?,
        Sample::Field(names) => whole(alloc, Kind::Field, names)?,
        Sample::Group(names) => whole(alloc, Kind::Group, names)?,
        Sample::Series(names) => whole(alloc, Kind::Series, names)?,
        Sample::Attributed => attributed(alloc)?,
    }))
}

fn value(alloc: Global, sample: &Sample<'_>) -> Result<Value, Fail> {
    match object(alloc, sample)? {
        None => Ok(None),
        Some(object) => Ok(Some(Rc::new(alloc, object)?)),
    }
}

fn fail_name(fail: RunFail) -> &'static str {
    match fail {
        RunFail::Memory => "Memory",
        RunFail::Code(Code::BadArgument) => "BadArgument",
        RunFail::Code(Code::Unsupported) => "Unsupported",
        RunFail::Code(Code::NoComponent) => "NoComponent",
        RunFail::Code(_) => "another code",
    }
}

fn is_text(printed: Result<Bytes, RunFail>, text: &str) -> bool {
    match printed {
        Ok(bytes) => bytes.bytes() == text.as_bytes(),
        Err(fail) => fail_name(fail) == text,
    }
}

fn values(alloc: Global, samples: &[Sample<'_>]) -> Result<Outs, Fail> {
    let mut values = Outs::new(alloc);
    for sample in samples {
        values.push(value(alloc, sample)?)?;
    }
    Ok(values)
}

// Fails where Print doesn't print this text of object, options and component, or refuse them by the code of this name.
fn prints(alloc: Global, inputs: &[Sample<'_>], text: &str) -> Result<(), Fail> {
    let inputs = values(alloc, inputs)?;
    if inputs.len() == 3 && is_text(print_text(alloc, &inputs), text) {
        Ok(())
    } else {
        Err(Fail::from(text))
    }
}

fn echoes(alloc: Global, inputs: &[Sample<'_>], line: &str) -> Result<(), Fail> {
    let inputs = values(alloc, inputs)?;
    if is_text(echo_text(alloc, &inputs), line) {
        Ok(())
    } else {
        Err(Fail::from(line))
    }
}

// Objects, and what Print prints of each.
type Shown<'a> = &'a [(Sample<'a>, &'a str)];

fn shows(
    alloc: Global,
    rows: Shown<'_>,
    options: Sample<'_>,
    component: Sample<'_>,
) -> Result<(), Fail> {
    for (object, text) in rows {
        prints(alloc, &[*object, options, component], text)?;
    }
    Ok(())
}

const POINTS: Sample<'static> = Sample::Array(Given::Points(&[2, 2], &[0, -1], &[10, 0, 0, 1]));

const CELLS: Sample<'static> = Sample::Array(Given::Cells(&[3]));

const INT: ElemType = ElemType::Int;

const VECTORS: Sample<'static> = Sample::Array(Given::Plain(INT, &[2], &[1, 2, 3, 4]));

const NUMBER: Sample<'static> = Sample::Array(Given::Plain(INT, &[], &[5]));

const NULL: Sample<'static> = Sample::Null;

const O: Sample<'static> = Sample::Text(b"o");

const D: Sample<'static> = Sample::Text(b"d");

const RD: Sample<'static> = Sample::Text(b"rd");

const DATA: Sample<'static> = Sample::Text(b"data");

const HEADERS: Shown<'static> = &[
    (Sample::Null, "NULL\n"),
    (NUMBER, "array plain int rank 0 items 1\n"),
    (VECTORS, "array plain int rank 1 shape 2 items 2\n"),
    (
        Sample::Array(Given::Plain(INT, &[2, 3], &[1, 2, 3, 4, 5, 6])),
        "array plain int rank 2 shape 2 3 items 1\n",
    ),
    (
        Sample::Array(Given::Constant(ElemType::Short, &[2], 7, &[4, 4])),
        "array constant short rank 1 shape 2 items 7\n",
    ),
    (
        Sample::Array(Given::Regular(INT, &[], 5, &[1], &[1])),
        "array regular int rank 0 items 5\n",
    ),
    (POINTS, "array gridpositions int rank 1 shape 2 items 4\n"),
    (CELLS, "array gridconnections int rank 1 shape 2 items 2\n"),
    (Sample::Text(b"hello"), "text \"hello\"\n"),
    (Sample::Text(b"a\"b\\c\nd"), "text \"a\\\"b\\\\c\\nd\"\n"),
    (
        Sample::Field(&[b"data", b"positions", b"x"]),
        "field 3 components\n",
    ),
    (Sample::Group(&[b"a", b""]), "group 2 members\n"),
    (Sample::Series(&[b""]), "series 1 members\n"),
];

#[test]
fn print_shows_the_header_of_each_kind(rt: HostRuntime) -> Result<(), Fail> {
    let alloc = rt.alloc();
    shows(alloc, HEADERS, NULL, NULL)?;
    shows(alloc, HEADERS, O, NULL)
}

const TYPES: Shown<'static> = &[
    (
        Sample::Array(Given::Plain(ElemType::Byte, &[], &[])),
        "array plain signed byte rank 0 items 0\n",
    ),
    (
        Sample::Array(Given::Plain(ElemType::UByte, &[], &[])),
        "array plain unsigned byte rank 0 items 0\n",
    ),
    (
        Sample::Array(Given::Plain(ElemType::Short, &[], &[])),
        "array plain short rank 0 items 0\n",
    ),
    (
        Sample::Array(Given::Plain(ElemType::UShort, &[], &[])),
        "array plain unsigned short rank 0 items 0\n",
    ),
    (
        Sample::Array(Given::Plain(INT, &[], &[])),
        "array plain int rank 0 items 0\n",
    ),
    (
        Sample::Array(Given::Plain(ElemType::UInt, &[], &[])),
        "array plain unsigned int rank 0 items 0\n",
    ),
];

#[test]
fn print_names_each_type(rt: HostRuntime) -> Result<(), Fail> {
    shows(rt.alloc(), TYPES, D, NULL)
}

const ITEMS: Shown<'static> = &[
    (
        VECTORS,
        "array plain int rank 1 shape 2 items 2\n1 2\n3 4\n",
    ),
    (
        Sample::Array(Given::Plain(INT, &[], &[-2147483648, 0, 2147483647])),
        "array plain int rank 0 items 3\n-2147483648\n0\n2147483647\n",
    ),
    (
        Sample::Array(Given::Plain(INT, &[2, 2], &[1, 2, 3, 4])),
        "array plain int rank 2 shape 2 2 items 1\n1 2 3 4\n",
    ),
    (
        Sample::Array(Given::Constant(ElemType::Short, &[2], 2, &[-1, 5])),
        "array constant short rank 1 shape 2 items 2\n-1 5\n-1 5\n",
    ),
    (
        POINTS,
        "array gridpositions int rank 1 shape 2 items 4\n0 -1\n0 0\n10 -1\n10 0\n",
    ),
    (
        CELLS,
        "array gridconnections int rank 1 shape 2 items 2\n0 1\n1 2\n",
    ),
    (Sample::Null, "NULL\n"),
    (Sample::Text(b"d"), "text \"d\"\n"),
    (Sample::Field(&[b"data"]), "field 1 components\n"),
];

#[test]
fn print_shows_items(rt: HostRuntime) -> Result<(), Fail> {
    shows(rt.alloc(), ITEMS, D, NULL)
}

const LONG: Shown<'static> = &[
    (
        Sample::Array(Given::Regular(INT, &[], 50, &[1], &[1])),
        "array regular int rank 0 items 50\n1\n2\n3\n4\n5\n6\n7\n8\n9\n10\n11\n12\n13\n14\n15\n16\n17\n18\n19\n20\n21\n22\n23\n24\n25\n26\n27\n28\n29\n30\n31\n32\n33\n34\n35\n36\n37\n38\n39\n40\n41\n42\n43\n44\n45\n46\n47\n48\n49\n50\n",
    ),
    (
        Sample::Array(Given::Regular(INT, &[], 51, &[1], &[1])),
        "array regular int rank 0 items 51\n1\n2\n3\n4\n5\n6\n7\n8\n9\n10\n11\n12\n13\n14\n15\n16\n17\n18\n19\n20\n21\n22\n23\n24\n25\n...\n27\n28\n29\n30\n31\n32\n33\n34\n35\n36\n37\n38\n39\n40\n41\n42\n43\n44\n45\n46\n47\n48\n49\n50\n51\n",
    ),
    (
        Sample::Array(Given::Regular(INT, &[], 1000, &[1], &[1])),
        "array regular int rank 0 items 1000\n1\n2\n3\n4\n5\n6\n7\n8\n9\n10\n11\n12\n13\n14\n15\n16\n17\n18\n19\n20\n21\n22\n23\n24\n25\n...\n976\n977\n978\n979\n980\n981\n982\n983\n984\n985\n986\n987\n988\n989\n990\n991\n992\n993\n994\n995\n996\n997\n998\n999\n1000\n",
    ),
];

#[test]
fn print_leaves_items_out_where_there_are_more_than_50(rt: HostRuntime) -> Result<(), Fail> {
    shows(rt.alloc(), LONG, D, NULL)
}

const REFUSED: &[(&[Sample<'static>], &str)] = &[
    (&[NUMBER, NUMBER, NULL], "BadArgument"),
    (&[NUMBER, Sample::Group(&[]), NUMBER], "BadArgument"),
    (&[NULL, Sample::Field(&[b"data"]), DATA], "BadArgument"),
    (&[NUMBER, Sample::Text(b"x"), NULL], "Unsupported"),
    (&[NUMBER, Sample::Text(b"od "), NULL], "Unsupported"),
    (&[NUMBER, Sample::Text(b"x"), NUMBER], "Unsupported"),
    (&[NUMBER, NULL, NUMBER], "BadArgument"),
    (&[NULL, D, NUMBER], "BadArgument"),
    (&[NUMBER, NULL, DATA], "NoComponent"),
    (&[DATA, D, DATA], "NoComponent"),
    (&[Sample::Series(&[b""]), D, DATA], "NoComponent"),
    (&[Sample::Field(&[b"positions"]), D, DATA], "NoComponent"),
    (&[Sample::Group(&[b"a", b""]), D, DATA], "NoComponent"),
];

#[test]
fn print_refuses_options_and_then_the_component(rt: HostRuntime) -> Result<(), Fail> {
    for (inputs, code) in REFUSED {
        prints(rt.alloc(), inputs, code)?;
    }
    Ok(())
}

const HEADER: &str = "array plain int rank 0 items 1\n";

const WHOLE: &str = "array plain int rank 0 items 1\n5\n";

const LETTERS: &[(&[Sample<'static>], &str)] = &[
    (&[NUMBER, Sample::Text(b""), NULL], HEADER),
    (&[NUMBER, Sample::Text(b"oor"), NULL], HEADER),
    (&[NUMBER, Sample::Text(b"do"), NULL], WHOLE),
    (&[NUMBER, Sample::Text(b"D"), NULL], WHOLE),
    (&[NUMBER, Sample::Text(b"dDrd"), NULL], WHOLE),
    (&[NUMBER, Sample::Text(b"ro"), NULL], HEADER),
];

#[test]
fn print_takes_letters_in_any_order_and_number(rt: HostRuntime) -> Result<(), Fail> {
    for (inputs, text) in LETTERS {
        prints(rt.alloc(), inputs, text)?;
    }
    Ok(())
}

const PARTS: Shown<'static> = &[
    (
        Sample::Group(&[b"a\"b", b""]),
        "group 2 members\n  member \"a\\\"b\":\n    array gridconnections int rank 1 shape 2 items 2\n    0 1\n    1 2\n  member:\n    array gridconnections int rank 1 shape 2 items 2\n    0 1\n    1 2\n",
    ),
    (
        Sample::Field(&[b"data"]),
        "field 1 components\n  component \"data\":\n    array gridconnections int rank 1 shape 2 items 2\n    0 1\n    1 2\n",
    ),
    (
        Sample::Series(&[b""]),
        "series 1 members\n  member at 0:\n    array gridconnections int rank 1 shape 2 items 2\n    0 1\n    1 2\n",
    ),
    (
        Sample::Attributed,
        "group 1 members\n  member \"a\":\n    array gridconnections int rank 1 shape 2 items 2\n    0 1\n    1 2\n  attribute \"b\":\n    array gridconnections int rank 1 shape 2 items 2\n    0 1\n    1 2\n",
    ),
    (NUMBER, "array plain int rank 0 items 1\n5\n"),
];

#[test]
fn print_shows_parts_and_attributes_further_in(rt: HostRuntime) -> Result<(), Fail> {
    shows(rt.alloc(), PARTS, RD, NULL)
}

const TWO_CELLS: &str = "array gridconnections int rank 1 shape 2 items 2\n0 1\n1 2\n";

const COMPONENTS: Shown<'static> = &[
    (Sample::Field(&[b"x", b"data"]), TWO_CELLS),
    (Sample::Group(&[b"", b"data"]), TWO_CELLS),
    (Sample::Null, "NULL\n"),
];

#[test]
fn print_shows_a_component_or_a_member(rt: HostRuntime) -> Result<(), Fail> {
    shows(rt.alloc(), COMPONENTS, D, DATA)
}

const SEVEN: Sample<'static> = Sample::Array(Given::Plain(INT, &[], &[7]));

const ECHOED: &[(&[Sample<'static>], &str)] = &[
    (
        &[Sample::Text(b"n"), SEVEN, NULL, VECTORS],
        "n 7 NULL array plain int rank 1 shape 2 items 2\n",
    ),
    (
        &[
            Sample::Array(Given::Plain(ElemType::Byte, &[], &[-128])),
            Sample::Array(Given::Plain(ElemType::UInt, &[], &[4294967295])),
            Sample::Array(Given::Regular(INT, &[], 1, &[1], &[1])),
        ],
        "-128 4294967295 1\n",
    ),
    (
        &[Sample::Array(Given::Plain(INT, &[], &[1, 2]))],
        "array plain int rank 0 items 2\n",
    ),
    (
        &[Sample::Array(Given::Plain(INT, &[1], &[5]))],
        "array plain int rank 1 shape 1 items 1\n",
    ),
    (&[Sample::Text(b"a\"b\\c d")], "a\"b\\c d\n"),
    (&[Sample::Text(b""), SEVEN, Sample::Text(b"")], " 7 \n"),
    (&[NULL], "NULL\n"),
    (
        &[
            Sample::Field(&[]),
            Sample::Group(&[b"a"]),
            Sample::Series(&[]),
        ],
        "field 0 components group 1 members series 0 members\n",
    ),
    (&[], "\n"),
];

#[test]
fn echo_puts_its_inputs_on_one_line(rt: HostRuntime) -> Result<(), Fail> {
    for (inputs, line) in ECHOED {
        echoes(rt.alloc(), inputs, line)?;
    }
    Ok(())
}
