//! Raw data: each type in both orders of bytes.
use crate::answer::{error, is_refused, means};
use dx_native_read::NativeKind;
use std::alloc::Global;
use std::test::Fail;

// The front of a text, the bytes behind its newline, and the lines of the items.
fn all_mean(
    alloc: Global,
    rows: &[(&'static str, &'static [u8], &'static str, &'static str)],
) -> Result<(), Fail> {
    for (kind, bytes, canonical, items) in rows {
        if !holds(alloc, kind, bytes, canonical, items)? {
            return Err(Fail::from(*kind));
        }
    }
    Ok(())
}

fn holds(
    alloc: Global,
    kind: &'static str,
    bytes: &'static [u8],
    canonical: &'static str,
    items: &'static str,
) -> Result<bool, Fail> {
    let mut text = Vec::from_slice(alloc, b"object 1 class array type ")?;
    text.extend_from_slice(kind.as_bytes())?;
    text.extend_from_slice(b" data follows \t\r\n")?;
    text.extend_from_slice(bytes)?;
    text.extend_from_slice(b"end")?;
    let mut wanted = Vec::from_slice(alloc, b"object 1 class array type ")?;
    wanted.extend_from_slice(canonical.as_bytes())?;
    wanted.extend_from_slice(b" items 2 data follows\n")?;
    wanted.extend_from_slice(items.as_bytes())?;
    wanted.extend_from_slice(b"end\n")?;
    means(alloc, &text, &wanted)
}

// Items in raw data: what says how they stand, their bytes, how that is written in the canonical text, and the lines of the items.
const TYPES_IN_BOTH_ORDERS: [(&str, &[u8], &str, &str); 9] = [
    (
        "signed byte items 2 binary",
        b"\x80\x7f",
        "signed byte rank 0",
        "-128\n127\n",
    ),
    (
        "byte items 2 lsb ieee",
        b"\x80\xff",
        "unsigned byte rank 0",
        "128\n255\n",
    ),
    (
        "short items 2 binary",
        b"\x01\x02\xff\xfe",
        "short rank 0",
        "258\n-2\n",
    ),
    (
        "short items 2 lsb binary",
        b"\x01\x02\xff\xfe",
        "short rank 0",
        "513\n-257\n",
    ),
    (
        "ushort items 2 msb ieee",
        b"\x01\x02\xff\xfe",
        "unsigned short rank 0",
        "258\n65534\n",
    ),
    (
        "int items 2 ieee",
        b"\x00\x00\x01\x00\xff\xff\xff\xff",
        "int rank 0",
        "256\n-1\n",
    ),
    (
        "int items 2 lsb ieee",
        b"\x00\x01\x00\x00\x00\x00\x00\x80",
        "int rank 0",
        "256\n-2147483648\n",
    ),
    (
        "uint items 2 lsb binary",
        b"\x01\x00\x00\x00\xff\xff\xff\xff",
        "unsigned int rank 0",
        "1\n4294967295\n",
    ),
    (
        "byte rank 1 shape 2 items 2 binary",
        b"\x01 \n#",
        "unsigned byte rank 1 shape 2",
        "1 32\n10 35\n",
    ),
];

#[test]
fn each_type_in_both_orders(rt: HostRuntime) -> Result<(), Fail> {
    all_mean(rt.alloc(), &TYPES_IN_BOTH_ORDERS)
}

#[test]
fn what_stands_before_the_bytes(rt: HostRuntime) -> Result<(), Fail> {
    for (text, kind, at) in [
        (
            b"object 1 class array type byte items 1 binary data follows,\n1".as_slice(),
            NativeKind::Syntax,
            58,
        ),
        (
            b"object 1 class array type byte items 1 binary data follows # 1\n1".as_slice(),
            NativeKind::Syntax,
            59,
        ),
        (
            b"object 1 class array type byte items 0 binary data follows ".as_slice(),
            NativeKind::Truncated,
            59,
        ),
        (
            b"object 1 class array type byte items 2 binary data follows\n1".as_slice(),
            NativeKind::Truncated,
            60,
        ),
        (
            b"object 1 class array type byte items 0 binary data follows\n\n@".as_slice(),
            NativeKind::Syntax,
            60,
        ),
    ] {
        assert!(rt; is_refused(rt.alloc(), text, None, error(kind, at))?);
    }
    Ok(())
}
