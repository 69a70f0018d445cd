//! Files that were written: what was put last under a name is got.
use dx_base::Bytes;
use dx_tags::{Content, Written};
use std::alloc::{AllocError, Global};

fn content(alloc: Global, bytes: &str) -> Result<Content, AllocError> {
    Content::new(alloc, Bytes::copy_of(alloc, bytes.as_bytes())?)
}

fn put(alloc: Global, written: &mut Written, name: &str, bytes: &str) -> Result<(), AllocError> {
    written.reserve(1)?;
    let name = Bytes::copy_of(alloc, name.as_bytes())?;
    written.put(name, content(alloc, bytes)?);
    Ok(())
}

// Whether this is what stands under a name; no file is told as "none".
fn has(written: &Written, name: &str, bytes: &str) -> bool {
    match written.get(name.as_bytes()) {
        None => bytes == "none",
        Some(content) => content.bytes() == bytes.as_bytes(),
    }
}

fn all_have(written: &Written, rows: &[(&str, &str)]) -> bool {
    let mut all = true;
    for (name, bytes) in rows {
        all = has(written, name, bytes) && all;
    }
    all
}

const NONE: &[(&str, &str)] = &[("b", "none"), ("", "none")];

const PUT: &[(&str, &str)] = &[
    ("b", "1"),
    ("ab", "22"),
    ("c", ""),
    ("b", "333"),
    ("", "of no name"),
    ("B", "4"),
];

const GOT: &[(&str, &str)] = &[
    ("", "of no name"),
    ("B", "4"),
    ("a", "none"),
    ("ab", "22"),
    ("abc", "none"),
    ("b", "333"),
    ("c", ""),
    ("d", "none"),
];

#[test]
fn what_was_put_last_counts(rt: HostRuntime) -> Result<(), AllocError> {
    let mut written = Written::new(rt.alloc());
    assert!(rt; all_have(&written, NONE));
    for (name, bytes) in PUT {
        put(rt.alloc(), &mut written, name, bytes)?;
    }
    assert!(rt; all_have(&written, GOT));
    Ok(())
}

const EQUAL: &[(&str, &str, bool)] = &[
    ("", "", true),
    ("0123456789abcdef", "0123456789abcdef", true),
    ("a", "b", false),
    ("a", "aa", false),
    // They differ in the middle alone, which a hash doesn't look at.
    (
        "0123456789012345678901234567890123456789-0123456789012345678901234567890123456789",
        "0123456789012345678901234567890123456789+0123456789012345678901234567890123456789",
        false,
    ),
];

#[test]
fn files_are_equal_by_their_bytes(rt: HostRuntime) -> Result<(), AllocError> {
    for (a, b, same) in EQUAL {
        assert!(rt; equal(rt.alloc(), a, b)? == *same);
    }
    Ok(())
}

fn equal(alloc: Global, a: &str, b: &str) -> Result<bool, AllocError> {
    let (a, b) = (content(alloc, a)?, content(alloc, b)?);
    let shared = a.share()?;
    Ok(a == b && shared == b)
}
