//! Files that are made to do harm: each has an answer, and soon.
ghost use Rattle.std.specs.Prelude.{◌≤◌};

use crate::answer::{Answer, error, is_refused, means, read};
use dx_base::push_count;
use dx_native_read::{NativeKind, read_object};
use std::alloc::{AllocError, Global};
use std::test::Fail;

// A grid of four by three with data, as users write it.
const SAMPLE: &[u8] =
    b"# four by three\nobject 1 class gridpositions counts 4 3\norigin 0 0\ndelta 1 0\ndelta 0 1.0\nobject 2 class gridconnections counts 4 3\nattribute \"element type\" string \"quads\"\nattribute \"ref\" string \"positions\"\nobject 3 class array type int rank 0 items 12 data follows\n 1 2 3 4 5 6 7 8 9 10 11 12\nattribute \"dep\" string \"positions\"\nobject 4 class array type short rank 0 items 2 lsb binary data follows\n\x01\x02\x03\x04\nobject \"f\" class field\ncomponent \"positions\" value 1\ncomponent \"connections\" value 2\ncomponent \"data\" value 3\nend\n";

// Whether a text has an answer; the offset of a refusal lies within it.
fn has_answer(alloc: Global, text: &[u8]) -> Result<bool, Fail> {
    match read(alloc, text, None)? {
        Answer::Means(_) => Ok(true),
        Answer::Refused(error) => Ok(error.at <= text.len() as u64),
    }
}

#[test]
fn each_front_of_a_file(rt: HostRuntime) -> Result<(), Fail> {
    let mut rest = SAMPLE;
    while let [front @ .., _] = rest {
        assert!(rt; has_answer(rt.alloc(), front)?);
        rest = front;
    }
    Ok(())
}

// Whether a text has an answer with this byte at a place, which is then put back.
fn has_answer_with(
    alloc: Global,
    text: &mut Vec<u8>,
    place: usize,
    byte: u8,
) -> Result<bool, Fail> {
    if place >= text.len() {
        return Ok(false);
    }
    let kept = text[place];
    text[place] = byte;
    let answered = has_answer(alloc, text)?;
    if place < text.len() {
        text[place] = kept;
    }
    Ok(answered)
}

#[test]
fn each_byte_of_a_file_changed(rt: HostRuntime) -> Result<(), Fail> {
    let mut text = Vec::from_slice(rt.alloc(), SAMPLE)?;
    for place in 0..text.len() {
        for byte in [0, b' ', b'"', b'#', b'0', b'9', b'\\', b'\n', 255] {
            assert!(rt; has_answer_with(rt.alloc(), &mut text, place, byte)?);
        }
    }
    Ok(())
}

// `object k class group` with so many references to the object before, behind a text of number 0.
fn push_groups(out: &mut Vec<u8>, groups: u64, references: u64) -> Result<(), AllocError>
    requires { groups ≤ 1000000 }
{
    out.extend_from_slice(b"object 0 class string \"t\"\n")?;
    for k in 0..groups {
        out.extend_from_slice(b"object ")?;
        push_count(out, k + 1)?;
        out.extend_from_slice(b" class group")?;
        for i in 0..references {
            out.extend_from_slice(b" member ")?;
            push_count(out, i)?;
            out.extend_from_slice(b" value ")?;
            push_count(out, k)?;
        }
        out.push(b'\n')?;
    }
    Ok(())
}

// Whether so many groups are refused so, at the name of the last.
fn groups_refused(
    alloc: Global,
    groups: u64,
    references: u64,
    kind: NativeKind,
    from_end: usize,
) -> Result<bool, Fail>
    requires { groups ≤ 1000000 }
{
    let mut text = Vec::new(alloc);
    push_groups(&mut text, groups, references)?;
    if from_end > text.len() {
        return Ok(false);
    }
    is_refused(alloc, &text, None, error(kind, text.len() - from_end))
}

// Whether so many groups are read.
fn groups_read(alloc: Global, groups: u64, references: u64) -> Result<bool, Fail>
    requires { groups ≤ 1000000 }
{
    let mut text = Vec::new(alloc);
    push_groups(&mut text, groups, references)?;
    Ok(read_object(alloc, &text, None).is_ok())
}

// The last line of 64 groups is `64 class group member 0 value 63` behind `object `, which has 33 bytes with its end.
#[test]
fn deep_and_shared_objects(rt: HostRuntime) -> Result<(), Fail> {
    let alloc = rt.alloc();
    let deep = NativeKind::TooDeep;
    assert!(rt; groups_read(alloc, 63, 1)?);
    assert!(rt; groups_refused(alloc, 64, 1, deep, 33)?);
    assert!(rt; groups_refused(alloc, 20_000, 1, deep, 39)?);
    // Each group has the one before it twice: 2 to the 20th objects less one, then twice as many, and far more.
    assert!(rt; groups_read(alloc, 19, 2)?);
    let large = NativeKind::TooLarge;
    assert!(rt; groups_refused(alloc, 20, 2, large, 51)?);
    assert!(rt; groups_refused(alloc, 63, 2, large, 51)?);
    Ok(())
}

// A number of so many digits behind a text, and whether that is refused at the number.
fn long_number_refused(
    alloc: Global,
    front: &'static str,
    digits: usize,
    kind: NativeKind,
) -> Result<bool, Fail> {
    let mut text = Vec::from_slice(alloc, front.as_bytes())?;
    for _ in 0..digits {
        text.push(b'7')?;
    }
    is_refused(alloc, &text, None, error(kind, front.len()))
}

#[test]
fn long_numbers(rt: HostRuntime) -> Result<(), Fail> {
    let alloc = rt.alloc();
    let data = "object 1 class array type int items 1 data follows ";
    let items = "object 1 class array type int items ";
    let count = "object 1 class gridconnections counts ";
    assert!(rt; long_number_refused(alloc, data, 1_000_000, NativeKind::ValueRange)?);
    assert!(rt; long_number_refused(alloc, items, 1_000_000, NativeKind::TooManyItems)?);
    assert!(rt; long_number_refused(alloc, count, 1_000_000, NativeKind::ValueRange)?);
    let mut text = Vec::from_slice(alloc, data.as_bytes())?;
    for _ in 0..100_000 {
        text.push(b'0')?;
    }
    text.extend_from_slice(b"5")?;
    let wanted = b"object 1 class array type int rank 0 items 1 data follows\n5\nend\n";
    assert!(rt; means(alloc, &text, wanted.as_slice())?);
    Ok(())
}

// An array of so many ints, one a line, of which this is the last.
fn ints(alloc: Global, count: u64, last: &'static str) -> Result<Vec<u8>, Fail> {
    let mut text = Vec::from_slice(alloc, b"object 1 class array type int rank 0 items ")?;
    push_count(&mut text, count)?;
    text.extend_from_slice(b" data follows\n")?;
    for k in 1..count {
        text.push(b'-')?;
        push_count(&mut text, k)?;
        text.push(b'\n')?;
    }
    text.extend_from_slice(last.as_bytes())?;
    Ok(text)
}

// They are read 1,024 at a time.
#[test]
fn many_ints(rt: HostRuntime) -> Result<(), Fail> {
    let alloc = rt.alloc();
    for count in [1, 1023, 1024, 1025, 2048, 3000] {
        let text = ints(alloc, count, "2147483647\nend\n")?;
        assert!(rt; means(alloc, &text, &text)?);
        let wide = ints(alloc, count, "2147483648\n")?;
        let at = wide.len().saturating_sub(11);
        assert!(rt; is_refused(alloc, &wide, None, error(NativeKind::ValueRange, at))?);
        let few = ints(alloc, count, "")?;
        assert!(rt; is_refused(alloc, &few, None, error(NativeKind::Truncated, few.len()))?);
    }
    Ok(())
}

#[test]
fn many_objects_and_members(rt: HostRuntime) -> Result<(), Fail> {
    let alloc = rt.alloc();
    assert!(rt; groups_read(alloc, 1, 30_000)?);
    let mut text = Vec::new(alloc);
    for k in 0..10_000u64 {
        text.extend_from_slice(b"object ")?;
        push_count(&mut text, k)?;
        text.extend_from_slice(b" class string \"t\"\n")?;
    }
    let wanted = b"object 1 class string \"t\"\nend\n";
    assert!(rt; means(alloc, &text, wanted.as_slice())?);
    Ok(())
}
