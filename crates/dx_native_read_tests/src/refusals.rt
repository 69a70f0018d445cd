//! Texts that are refused, each with its kind; the offset is the place of the sign `^`, which is no part of the text.
use crate::answer::{error, is_refused};
use dx_base::Bytes;
use dx_native_read::NativeKind;
use std::alloc::Global;
use std::test::Fail;

fn refused(
    alloc: Global,
    marked: &'static str,
    which: Option<&Bytes>,
    kind: NativeKind,
) -> Result<bool, Fail> {
    let mut text = Vec::new(alloc);
    let mut place = 0;
    for (i, byte) in marked.as_bytes().iter().enumerate() {
        if *byte == b'^' {
            place = i;
        } else {
            text.push(*byte)?;
        }
    }
    is_refused(alloc, &text, which, error(kind, place))
}

fn all_refused(alloc: Global, kind: NativeKind, rows: &[&'static str]) -> Result<(), Fail> {
    for row in rows {
        if !refused(alloc, row, None, kind)? {
            return Err(Fail::from(*row));
        }
    }
    Ok(())
}

#[test]
fn syntax(rt: HostRuntime) -> Result<(), Fail> {
    let rows = [
        "^foo",
        "object 1 ^klass string \"t\"",
        "object 1 class ^\"string\" \"t\"",
        "object 1 class string ^t",
        "object 1 class string ^\"t",
        "object 1 class string ^\"t\\x",
        "object 1 class string ^\"t\n\"",
        "object 1 class string \"a^\\x\\y\"",
        "object 1 class array type signed ^float items 1 data follows 1",
        "object 1 class array ^\"type\" int items 1 data follows 1",
        "object 1 class array type int rank 0 ^shape 2 items 1 data follows 1",
        "object 1 class array type int rank 1 ^items 1 data follows 1",
        "object 1 class array type int category ^complex items 1 data follows 1",
        "object 1 class array type int items 1 data ^4.5 follows 1",
        "object 1 class array type int items 1 data follows ^-.5",
        "object 1 class array type int items 1 data follows ^x",
        "object 1 class array type int items 1 data follows ^\"1\"",
        "object 1 class array type int items 1 data follows 1 ^2",
        "object 1 class gridconnections counts 2 2 2 ^4.5",
        "object 1 class gridpositions counts 2 origin 0 ^object",
        "object 1 class string \"t\" object 2 class group member ^1 value 1",
        "object 1 class string \"t\" object 2 class group member ^-1 value 1",
        "object 1 class string \"t\" object 2 class group member ^99999999999999999999 1",
        "object 1 class string \"t\" object 2 class series member ^\"x\" position 1 1",
        "object 1 class string \"t\" object ^\"1\" class string \"u\"",
        "object 1 class field component \"x\" 1 component ^\"x\" 1",
        "object 1 class group member \"x\" 1 member ^\"x\" 1",
        "object 1 class field attribute \"x\" 1 attribute ^\"x\" 1",
        "object 1 class field ^member 0 1",
        "object 1 class group ^component \"x\" 1",
        "object 1 class string \"t\" ^component \"x\" 1",
    ];
    all_refused(rt.alloc(), NativeKind::Syntax, &rows)
}

#[test]
fn float_types(rt: HostRuntime) -> Result<(), Fail> {
    let rows = [
        "object 1 class array type int items 1 data follows ^1.5",
        "object 1 class array type int items 1 data follows ^.5",
        "object 1 class array type int items 1 data follows ^.0",
        "object 1 class array type int items 1 data follows ^-1x",
        "object 1 class array type int items 1 data follows ^1e5",
        "object 1 class array type int items 1 data follows ^0x10",
        "object 1 class array type ^float items 1 data follows 1",
        "object 1 class array type ^double items 1 data follows 1",
        "object 1 class array ^items 1 data follows 1",
        "object 1 class array ^end",
        "object 1 class array type int items ^1.5",
        "object 1 class gridconnections counts 2 ^1.5",
        "object 1 class group member ^1.5 1",
        "object 1 class field attribute \"x\" number ^1e1",
        "object 1 class group member 0 9 object 2 class array type ^float",
    ];
    all_refused(rt.alloc(), NativeKind::FloatType, &rows)
}

#[test]
fn classes_references_and_parts(rt: HostRuntime) -> Result<(), Fail> {
    let rows = [
        "object 1 class ^foo",
        "object 1 class ^product",
        "object 1 class ^end",
    ];
    all_refused(rt.alloc(), NativeKind::UnknownClass, &rows)?;
    let rows = [
        "object 1 class group member 0 value ^2",
        "object 1 class field component \"x\" ^2",
        "object 1 class compositefield member 0 ^2 member 1 1",
        "object 1 class string \"t\" attribute \"x\" ^2",
        "object 1 class string \"t\" default ^2",
        "default ^2 object 1 class group member 0 3",
        "default 2 object 1 class group member 0 ^3 default 1",
    ];
    all_refused(rt.alloc(), NativeKind::NoObject, &rows)?;
    let rows = [
        "object 1 class string \"t\" object 2 class field component \"x\" value ^1",
        "object 1 class string \"t\" object 2 class compositefield member 0 ^1",
        "object 1 class compositefield member 0 ^1",
        "object 1 class string \"t\" object 2 class field component \"x\" ^1 component \"y\" 9",
    ];
    all_refused(rt.alloc(), NativeKind::BadPart, &rows)
}

#[test]
fn ranges(rt: HostRuntime) -> Result<(), Fail> {
    let rows = [
        "object 1 class array type signed byte items 1 data follows ^128",
        "object 1 class array type byte items 2 data follows 255 ^256",
        "object 1 class array type byte items 1 data follows ^-1",
        "object 1 class array type short items 1 data follows ^-32769",
        "object 1 class array type ushort items 1 data follows ^65536",
        "object 1 class array type int items 1 data follows ^2147483648",
        "object 1 class array type uint items 1 data follows ^4294967296",
        "object 1 class array type uint items 1 data follows ^-99999999999999999999",
        "object 1 class array type int rank ^3",
        "object 1 class array type int rank ^-1",
        "object 1 class array type int rank 1 shape ^0",
        "object 1 class array type int rank 2 shape 256 ^257",
        "object 1 class array type int items ^-1",
        "object 1 class array type int items ^-99999999999999999999",
        "object 1 class gridconnections counts ^0",
        "object 1 class gridpositions counts 3000 3000 ^0",
        "object 1 class gridpositions counts 2 origin ^2147483648",
        "object 1 class gridpositions counts 2 origin 0 delta ^-2147483649",
        "object 1 class regulararray type uint items 1 origin ^4294967295",
        "object 1 class series member 0 position ^2147483648",
        "object 1 class string \"t\" attribute \"x\" number ^-2147483649",
        "object 1 class ^regulararray type byte items 3 origin 0 delta 128",
        "object 1 class ^gridpositions counts 2 origin 2147483647 delta 1",
    ];
    all_refused(rt.alloc(), NativeKind::ValueRange, &rows)
}

#[test]
fn too_many_items(rt: HostRuntime) -> Result<(), Fail> {
    let rows = [
        "object 1 class array type int items ^16777217",
        "object 1 class array type int items ^99999999999999999999",
        "object 1 class array type int rank 2 shape 256 256 items ^2049",
        "object 1 class constantarray type byte items ^16777217",
        "object 1 class ^gridpositions counts 5000 5000 foo",
        "object 1 class ^gridconnections counts 300 300 300",
    ];
    all_refused(rt.alloc(), NativeKind::TooManyItems, &rows)
}

#[test]
fn texts_that_end_too_early(rt: HostRuntime) -> Result<(), Fail> {
    let rows = [
        "object^",
        "object 1 class^",
        "object 1 class string # t^",
        "default^",
        "object 1 class array^",
        "object 1 class array type int items 2 data follows 1 ^",
        "object 1 class array type int items 16777216 data follows 1^",
        "object 1 class array type int items 16777216 binary data follows\n1^",
        "object 1 class group member 0 value^",
        "object 1 class group member 0 9 member^",
    ];
    all_refused(rt.alloc(), NativeKind::Truncated, &rows)
}

#[test]
fn other_files(rt: HostRuntime) -> Result<(), Fail> {
    let rows = [
        "object 1 class group member 0 value ^file",
        "object 1 class field component \"x\" value ^file \"x\" 1",
        "object 1 class field attribute \"x\" value ^file",
        "object 1 class array type int items 1 data ^file x",
        "object 1 class array type int items 1 data ^4",
    ];
    all_refused(rt.alloc(), NativeKind::OtherFile, &rows)
}

#[test]
fn what_is_meant(rt: HostRuntime) -> Result<(), Fail> {
    let none = NativeKind::NoVariable;
    all_refused(rt.alloc(), none, &["^", "end^", "# 1^", "end foo^"])?;
    let name = Bytes::copy_of(rt.alloc(), b"z")?;
    let unnamed = "object 1 class string \"t\" default 1^";
    assert!(rt; refused(rt.alloc(), unnamed, Some(&name), none)?);
    let broken = "object 1 class string \"t\" default ^2";
    assert!(rt; refused(rt.alloc(), broken, Some(&name), NativeKind::NoObject)?);
    let rows = [
        "object ^1 class group member 0 value 1",
        "object 1 class group member 0 2 object ^2 class group member 0 1",
        "object 1 class group member 0 2 object ^2 class group attribute \"x\" 1",
    ];
    all_refused(rt.alloc(), NativeKind::TooDeep, &rows)
}
