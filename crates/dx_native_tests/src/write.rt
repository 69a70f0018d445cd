//! What is written of an object of each class and kind, to the byte.
use crate::stock::{Words, parts};
use dx_native_write::write_object;
use dx_objects::{Object, ObjectError, Parts};
use std::alloc::Global;
use std::test::Fail;

#[derive(Clone, Copy)]
enum Whole {
    Field,
    Group,
    Series,
    Composite,
}

fn object(whole: Whole, parts: Parts, attributes: Parts) -> Result<Object, ObjectError> {
    match whole {
        Whole::Field => Object::field(parts, attributes),
        Whole::Group => Object::group(parts, attributes),
        Whole::Series => Object::series(parts, attributes),
        Whole::Composite => Object::composite(parts, attributes),
    }
}

// A name of the row, the object with its parts and its attributes, and what is written of it.
type Row<'a> = (&'a str, Whole, Words<'a>, Words<'a>, &'a [u8]);

fn is_written(alloc: Global, row: &Row<'_>) -> Result<bool, Fail> {
    let (_, whole, members, attributes, wanted) = row;
    let members = parts(alloc, members)?;
    let object = object(*whole, members, parts(alloc, attributes)?)?;
    Ok(write_object(alloc, &object)?.bytes() == *wanted)
}

const ROWS: &[Row<'static>] = &[
    (
        "a field of three components",
        Whole::Field,
        &[
            (b"positions", 0, b'p'),
            (b"connections", 0, b'c'),
            (b"data", 0, b'd'),
        ],
        &[],
        b"object 1 class gridpositions counts 4 3\norigin 0 0\ndelta 1 0\ndelta 0 1\nobject 2 class gridconnections counts 4 3\nattribute \"element type\" string \"quads\"\nattribute \"ref\" string \"positions\"\nobject 3 class array type int rank 0 items 3 data follows\n1\n-2\n3\nattribute \"dep\" string \"positions\"\nobject 4 class field\ncomponent \"positions\" value 1\ncomponent \"connections\" value 2\ncomponent \"data\" value 3\nend\n",
    ),
    (
        "arrays of the other classes",
        Whole::Group,
        &[(b"", 0, b'k'), (b"r\"", 0, b'r'), (b"", 0, b'm')],
        &[],
        b"object 1 class constantarray type short rank 1 shape 2 items 5 data follows\n7 -8\nobject 2 class regulararray type unsigned int rank 0 items 0\norigin -1\ndelta 2\nobject 3 class array type signed byte rank 2 shape 1 2 items 2 data follows\n1 2\n3 4\nobject 4 class group\nmember 0 value 1\nmember \"r\\\"\" value 2\nmember 2 value 3\nend\n",
    ),
    (
        "a series of a text that is shared, with attributes",
        Whole::Series,
        &[(b"", -3, b't'), (b"", 4, b'=')],
        &[(b"n", 0, b'n'), (b"s", 0, b's')],
        b"object 1 class string \"a\\\\\\n\xff\"\nobject 2 class string \"a\\\\\\n\xff\"\nobject 3 class array type short rank 0 items 1 data follows\n6\nobject 4 class series\nmember 0 position -3 value 1\nmember 1 position 4 value 2\nattribute \"n\" number -5\nattribute \"s\" value 3\nend\n",
    ),
    (
        "a composite group",
        Whole::Composite,
        &[(b"m", 0, b'f')],
        &[],
        b"object 1 class field\nobject 2 class compositefield\nmember \"m\" value 1\nend\n",
    ),
];

#[test]
fn objects_of_each_class_and_kind_are_written(rt: HostRuntime) -> Result<(), Fail> {
    for row in ROWS {
        if !is_written(rt.alloc(), row)? {
            return Err(Fail::from(row.0));
        }
    }
    Ok(())
}
