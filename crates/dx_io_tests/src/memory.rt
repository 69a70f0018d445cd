//! The devices in memory.

use crate::made::{Answer, named, numbers, read};
use dx_base::Bytes;
use dx_io::{ExportFail, Exports, MemExports, MemFiles, MemSink, Sink, SinkFail, write_all};
use std::alloc::{AllocError, Global};
use std::test::Fail;

fn made_files(alloc: Global) -> Result<MemFiles, AllocError> {
    let pairs = named(alloc, &[("a", "1"), ("b", "2"), ("a", "3")])?;
    Ok(MemFiles::new(alloc, pairs, numbers(alloc, &[3])?))
}

const READS: &[(&[u8], &[u8], Answer)] = &[
    (b"a", b"1", Answer::Found),
    (b"c", b"1", Answer::Missing),
    (b"a", b"1", Answer::Fault),
    (b"b", b"1", Answer::Other),
    (b"b", b"2", Answer::Found),
];

#[test]
fn files_in_memory_are_found_under_their_names(rt: HostRuntime) -> Result<(), Fail> {
    let mut files = made_files(rt.alloc())?;
    for (name, content, wanted) in READS {
        assert!(rt; read(rt.alloc(), &mut files, name, content)? == *wanted);
    }
    assert!(rt; files.asked().len() == 5);
    Ok(())
}

#[test]
fn numbers_of_calls_are_contained_or_not(rt: HostRuntime) -> Result<(), Fail> {
    let calls = numbers(rt.alloc(), &[2, 5])?;
    assert!(rt; !calls.contains(1) && calls.contains(2) && calls.contains(5) && !calls.contains(6));
    Ok(())
}

#[test]
fn a_sink_in_memory_has_what_was_written(rt: HostRuntime) -> Result<(), Fail> {
    let mut out = MemSink::new(rt.alloc(), numbers(rt.alloc(), &[2])?);
    assert!(rt; write_all(&mut out, b"one") == Ok(()));
    assert!(rt; write_all(&mut out, b"two") == Err(SinkFail::Fault));
    assert!(rt; out.write(b"three") == Ok(5));
    assert!(rt; out.bytes() == b"onethree".as_slice());
    Ok(())
}

#[test]
fn a_slow_sink_takes_a_few_bytes_a_call(rt: HostRuntime) -> Result<(), Fail> {
    let mut out = MemSink::slow(rt.alloc(), 2, numbers(rt.alloc(), &[5])?);
    assert!(rt; out.write(b"abcde") == Ok(2));
    assert!(rt; write_all(&mut out, b"cde") == Ok(()));
    assert!(rt; write_all(&mut out, b"fgh") == Err(SinkFail::Fault));
    assert!(rt; out.bytes() == b"abcdefg".as_slice());
    Ok(())
}

fn put(
    alloc: Global,
    exports: &mut MemExports,
    name: &[u8],
    content: &[u8],
) -> Result<Result<(), ExportFail>, AllocError> {
    let name = Bytes::copy_of(alloc, name)?;
    Ok(exports.put(alloc, &name, content))
}

fn is_of(put: Option<&(Bytes, Bytes)>, name: &[u8], content: &[u8]) -> bool {
    match put {
        Some(put) => put.0.bytes() == name && put.1.bytes() == content,
        None => false,
    }
}

#[test]
fn exports_in_memory_keep_the_completed_puts_in_order(rt: HostRuntime) -> Result<(), Fail> {
    let alloc = rt.alloc();
    let mut exports = MemExports::new(alloc, numbers(alloc, &[2])?);
    assert!(rt; put(alloc, &mut exports, b"a", b"1")? == Ok(()));
    assert!(rt; put(alloc, &mut exports, b"b", b"2")? == Err(ExportFail::Fault));
    assert!(rt; put(alloc, &mut exports, b"a", b"3")? == Ok(()));
    let puts = exports.puts();
    assert!(rt; puts.len() == 2);
    assert!(rt; is_of(puts.first(), b"a", b"1") && is_of(puts.last(), b"a", b"3"));
    Ok(())
}
