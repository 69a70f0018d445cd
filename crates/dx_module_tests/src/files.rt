//! Import: what it reads of a file, and why it refuses.
use crate::asked::{Given, answers, inputs, kind_of_answer};
use dx_base::{Bytes, Module};
use std::alloc::Global;
use std::test::Fail;

const NAME: Given<'static> = Given::Text("v.dx");

// Two arrays of which the second is the default.
const TWO: &str = "object \"a\" class array type int rank 0 items 1 data follows 7\n\
    object \"b\" class array type int rank 0 items 2 data follows 8 9\n\
    default \"b\"\nend\n";

const FIRST: &str = "object 1 class array type int rank 0 items 1 data follows\n7\nend\n";

const SECOND: &str = "object 1 class array type int rank 0 items 2 data follows\n8\n9\nend\n";

#[test]
fn import_gives_the_object_that_is_asked_for(rt: HostRuntime) -> Result<(), Fail> {
    let alloc = rt.alloc();
    let file = Bytes::copy_of(alloc, TWO.as_bytes())?;
    let (null, none, dx) = (Given::Null, [Given::Null; 3], Given::Text("dx"));
    for (variable, format, text) in [
        (null, null, SECOND),
        (Given::Text("a"), dx, FIRST),
        (Given::Text("b"), null, SECOND),
        (Given::Text("c"), null, "BadFile"),
        (Given::Number(1), null, "BadArgument"),
        (null, Given::Number(1), "BadArgument"),
        (null, Given::Text("hdf"), "Unsupported"),
    ] {
        let given = inputs(alloc, &[NAME, variable, format, none[0], none[1], none[2]])?;
        assert!(rt; answers(alloc, Module::Import, &given, Some(&file), text)?);
    }
    Ok(())
}

#[test]
fn import_looks_at_its_inputs_before_the_file(rt: HostRuntime) -> Result<(), Fail> {
    let alloc = rt.alloc();
    let (null, one) = (Given::Null, Given::Number(1));
    for (given, text) in [
        ([NAME, null, null, null, null, null], "NoFile"),
        ([null, null, null, one, null, null], "BadArgument"),
        ([one, null, null, null, null, null], "BadArgument"),
        (
            [NAME, one, Given::Text("hdf"), null, null, null],
            "BadArgument",
        ),
        (
            [NAME, null, Given::Text("hdf"), null, null, null],
            "Unsupported",
        ),
        ([NAME, null, null, one, null, null], "Unsupported"),
        ([NAME, null, null, null, one, null], "Unsupported"),
        ([NAME, null, null, null, null, one], "Unsupported"),
    ] {
        assert!(rt; answers(alloc, Module::Import, &inputs(alloc, &given)?, None, text)?);
    }
    Ok(())
}

// A field whose component depends on one that isn't there, and one without a fault.
const FAULTY: &str =
    "object 9000 class array type int rank 0 items 1 data follows 7 attribute \"dep\" string \"positions\"\n\
    object 00 class field component \"data\" value 9000\n";

const FINE: &str =
    "object 9000 class array type int rank 0 items 1 data follows 7 attribute \"dep\" string \"data\"\n\
    object 00 class field component \"data\" value 9000\n";

const FAULTY_ATTRIBUTE: &str =
    "object 9000 class array type int rank 0 items 1 data follows 7 attribute \"dep\" string \"positions\"\n\
    object 9001 class field component \"data\" value 9000\n\
    object 00 class array type int rank 0 items 0 data follows attribute \"a\" value 9001\n";

// Behind this text groups of two references each to the object before, the first to the one named 00.
fn in_groups(alloc: Global, text: &str, groups: u32) -> Result<Bytes, Fail> {
    let mut file = String::new(alloc);
    file.push_str(text)?;
    for i in 0..groups {
        file.push_str("object ")?;
        push_number(&mut file, i + 1)?;
        file.push_str(" class group member 0 value ")?;
        push_number(&mut file, i)?;
        file.push_str(" member 1 value ")?;
        push_number(&mut file, i)?;
        file.push_str("\n")?;
    }
    Ok(Bytes::copy_of(alloc, file.as_bytes())?)
}

fn push_number(file: &mut String, n: u32) -> Result<(), Fail> {
    let digits = ["0", "1", "2", "3", "4", "5", "6", "7", "8", "9"];
    file.push_str(digits[(n / 10 % 10) as usize])?;
    Ok(file.push_str(digits[(n % 10) as usize])?)
}

#[test]
fn import_refuses_a_field_with_a_fault_wherever_parts_reach_it(
    rt: HostRuntime,
) -> Result<(), Fail> {
    let alloc = rt.alloc();
    let null = Given::Null;
    let given = inputs(alloc, &[NAME, null, null, null, null, null])?;
    for (text, groups, answer) in [
        (FAULTY, 0, "BadField"),
        (FAULTY, 17, "BadField"),
        (FINE, 17, "an object"),
        (FAULTY_ATTRIBUTE, 17, "an object"),
        ("", 0, "BadFile"),
    ] {
        let file = in_groups(alloc, text, groups)?;
        assert!(rt; kind_of_answer(alloc, &given, &file)? == answer);
    }
    Ok(())
}
