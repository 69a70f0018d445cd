//! Texts, each with the canonical text of the object that it means.
use crate::answer::{Answer, means, read};
use dx_base::Bytes;
use std::alloc::Global;
use std::test::Fail;

fn all_mean(alloc: Global, rows: &[(&'static str, &'static str)]) -> Result<(), Fail> {
    for (text, wanted) in rows {
        if !means(alloc, text.as_bytes(), wanted.as_bytes())? {
            return Err(Fail::from(*text));
        }
    }
    Ok(())
}

// Texts, and the canonical texts of what they mean.
const TYPES_AND_NUMBERS: [(&str, &str); 15] = [
    (
        "object 1 class array type signed byte items 2 data follows -128 127",
        "object 1 class array type signed byte rank 0 items 2 data follows\n-128\n127\nend\n",
    ),
    (
        "object 1 class array type byte items 2 data follows 0 255",
        "object 1 class array type unsigned byte rank 0 items 2 data follows\n0\n255\nend\n",
    ),
    (
        "object 1 class array type ubyte items 1 data follows 7",
        "object 1 class array type unsigned byte rank 0 items 1 data follows\n7\nend\n",
    ),
    (
        "object 1 class array type unsigned byte items 1 data follows 7",
        "object 1 class array type unsigned byte rank 0 items 1 data follows\n7\nend\n",
    ),
    (
        "object 1 class array type short items 1 data follows -32768",
        "object 1 class array type short rank 0 items 1 data follows\n-32768\nend\n",
    ),
    (
        "object 1 class array type signed short items 1 data follows 32767",
        "object 1 class array type short rank 0 items 1 data follows\n32767\nend\n",
    ),
    (
        "object 1 class array type ushort items 1 data follows 65535",
        "object 1 class array type unsigned short rank 0 items 1 data follows\n65535\nend\n",
    ),
    (
        "object 1 class array type unsigned short items 1 data follows 0",
        "object 1 class array type unsigned short rank 0 items 1 data follows\n0\nend\n",
    ),
    (
        "object 1 class array type int items 2 data follows -2147483648 2147483647",
        "object 1 class array type int rank 0 items 2 data follows\n-2147483648\n2147483647\nend\n",
    ),
    (
        "object 1 class array type signed int items 0 data follows",
        "object 1 class array type int rank 0 items 0 data follows\nend\n",
    ),
    (
        "object 1 class array type uint items 1 data follows 4294967295",
        "object 1 class array type unsigned int rank 0 items 1 data follows\n4294967295\nend\n",
    ),
    (
        "object 1 class array type unsigned int items 1 data follows 1",
        "object 1 class array type unsigned int rank 0 items 1 data follows\n1\nend\n",
    ),
    (
        "object 1 class array type int items 6 data follows +5,-0 007\t1. 1.00 # 9\n\r-0005.0",
        "object 1 class array type int rank 0 items 6 data follows\n5\n0\n7\n1\n1\n-5\nend\n",
    ),
    (
        "object 1 class array type int category real rank 2 shape 1 2 items 2 lsb text data follows 1 2 3 4",
        "object 1 class array type int rank 2 shape 1 2 items 2 data follows\n1 2\n3 4\nend\n",
    ),
    (
        "object 1 class array type int rank 1 shape 3 items 1 msb ascii data follows 1 2 3",
        "object 1 class array type int rank 1 shape 3 items 1 data follows\n1 2 3\nend\n",
    ),
];

#[test]
fn types_and_numbers(rt: HostRuntime) -> Result<(), Fail> {
    all_mean(rt.alloc(), &TYPES_AND_NUMBERS)
}

const OTHER_CLASSES: [(&str, &str); 9] = [
    (
        "object 1 class constantarray type short rank 1 shape 2 items 5 data follows 7 -8",
        "object 1 class constantarray type short rank 1 shape 2 items 5 data follows\n7 -8\nend\n",
    ),
    (
        "object 1 class regulararray type int rank 0 items 5 origin 10 delta -2",
        "object 1 class regulararray type int rank 0 items 5\norigin 10\ndelta -2\nend\n",
    ),
    (
        "object 1 class gridpositions counts 4 origin -3 delta 2",
        "object 1 class gridpositions counts 4\norigin -3\ndelta 2\nend\n",
    ),
    (
        "object 1 class gridpositions counts 2 3 4 origin 0 0 0 delta 1 0 0 delta 0 2 0 delta 0 0 3",
        "object 1 class gridpositions counts 2 3 4\norigin 0 0 0\ndelta 1 0 0\ndelta 0 2 0\ndelta 0 0 3\nend\n",
    ),
    (
        "object 1 class gridconnections counts 2 3",
        "object 1 class gridconnections counts 2 3\nend\n",
    ),
    (
        "object 1 class string \"a\\\"b\\\\c\\nd # , é\"",
        "object 1 class string \"a\\\"b\\\\c\\nd # , é\"\nend\n",
    ),
    (
        "object t class string \"t\" object 2 class group member \"x\" t member 1 value t member 2 \"t\"",
        "object 1 class string \"t\"\nobject 2 class string \"t\"\nobject 3 class string \"t\"\nobject 4 class group\nmember \"x\" value 1\nmember 1 value 2\nmember 2 value 3\nend\n",
    ),
    (
        "object t class string \"t\" object 2 class series member 0 position -3 value t member 1.0 position 4 t",
        "object 1 class string \"t\"\nobject 2 class string \"t\"\nobject 3 class series\nmember 0 position -3 value 1\nmember 1 position 4 value 2\nend\n",
    ),
    (
        "object f class field object 2 class compositefield member \"f\" value f member 1 f",
        "object 1 class field\nobject 2 class field\nobject 3 class compositefield\nmember \"f\" value 1\nmember 1 value 2\nend\n",
    ),
];

#[test]
fn the_other_classes(rt: HostRuntime) -> Result<(), Fail> {
    all_mean(rt.alloc(), &OTHER_CLASSES)
}

const REFERENCES_AND_ATTRIBUTES: [(&str, &str); 7] = [
    // A reference may stand before what it names; 3 and "3" are one name.
    (
        "object 2 class group member 0 value \"3\" object 3 class string \"t\" default 2",
        "object 1 class string \"t\"\nobject 2 class group\nmember 0 value 1\nend\n",
    ),
    // The last default counts, and without one the last object.
    (
        "default a object a class string \"a\" default b object b class string \"b\" object c class string \"c\" end \"",
        "object 1 class string \"b\"\nend\n",
    ),
    (
        "object a class string \"a\" object b class string \"b\"",
        "object 1 class string \"b\"\nend\n",
    ),
    // The words of the grammar as names of objects.
    (
        "object value class string \"v\" object 2 class group member 0 value value member 1 \"value\"",
        "object 1 class string \"v\"\nobject 2 class string \"v\"\nobject 3 class group\nmember 0 value 1\nmember 1 value 2\nend\n",
    ),
    (
        "object file class string \"f\" object 2 class group attribute \"x\" file attribute \"y\" value \"file\"",
        "object 1 class group\nattribute \"x\" string \"f\"\nattribute \"y\" string \"f\"\nend\n",
    ),
    // One name may stand in each of an object's lists.
    (
        "object 1 class array type byte items 1 data follows 1 object 2 class field attribute \"x\" number -7 component \"x\" 1 attribute \"n\" string \"\"",
        "object 1 class array type unsigned byte rank 0 items 1 data follows\n1\nobject 2 class field\ncomponent \"x\" value 1\nattribute \"x\" number -7\nattribute \"n\" string \"\"\nend\n",
    ),
    // What isn't meant is left out.
    (
        "object 1 class string \"a\" object 2 class group member 0 1 object 3 class string \"c\" attribute \"k\" 1",
        "object 1 class string \"c\"\nattribute \"k\" string \"a\"\nend\n",
    ),
];

#[test]
fn references_and_attributes(rt: HostRuntime) -> Result<(), Fail> {
    all_mean(rt.alloc(), &REFERENCES_AND_ATTRIBUTES)
}

// The object of a name that is asked for.
fn means_at(
    alloc: Global,
    text: &'static str,
    name: &'static str,
    wanted: &'static str,
) -> Result<bool, Fail> {
    let name = Bytes::copy_of(alloc, name.as_bytes())?;
    match read(alloc, text.as_bytes(), Some(&name))? {
        Answer::Means(written) => Ok(written.bytes() == wanted.as_bytes()),
        Answer::Refused(_) => Ok(false),
    }
}

#[test]
fn a_name_that_is_asked_for(rt: HostRuntime) -> Result<(), Fail> {
    let text = "object a class string \"1\" object \"b c\" class string \"2\" default a";
    let a = "object 1 class string \"1\"\nend\n";
    let b = "object 1 class string \"2\"\nend\n";
    assert!(rt; means_at(rt.alloc(), text, "a", a)?);
    assert!(rt; means_at(rt.alloc(), text, "b c", b)?);
    Ok(())
}
