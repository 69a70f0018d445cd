//! Files that are put in order, up to one that fails.
ghost use Rattle.std.specs.Prelude.{◌≡◌, ◌≤◌, length, IfOk, OnOk};

use dx_base::Bytes;
use dx_ending::{Put, make_puts, ready};
use dx_io::{CallNumbers, ExportFail, MemExports};
use dx_objects::{Object, Parts};
use dx_tags::Written;
use std::alloc::Global;
use std::test::Fail;

// The canonical text of the text `a`.
const TEXT_A: &[u8] = b"object 1 class string \"a\"\nend\n";

// The canonical text of the text `b`.
const TEXT_B: &[u8] = b"object 1 class string \"b\"\nend\n";

fn put(alloc: Global, name: &[u8], text: &[u8]) -> Result<Put, Fail> {
    let object = Object::text(Bytes::copy_of(alloc, text)?, Parts::new(alloc))?;
    Ok(ready(alloc, Bytes::copy_of(alloc, name)?, &object)?)
}

// The text `a` under `x`, the text `b` under `y`, and the text `b` under `x`.
fn three(alloc: Global) -> Result<Vec<Put>, Fail> {
    let mut puts = Vec::new(alloc);
    puts.push(put(alloc, b"x", b"a")?)?;
    puts.push(put(alloc, b"y", b"b")?)?;
    puts.push(put(alloc, b"x", b"b")?)?;
    Ok(puts)
}

fn room_for(alloc: Global, puts: &[Put]) -> Result<Written, Fail>
    ensures { IfOk result (λ written. length puts.now ≤ written.room) }
{
    let mut written = Written::new(alloc);
    written.reserve(puts.len())?;
    Ok(written)
}

// Whether these bytes stand under a name.
fn is(written: &Written, name: &[u8], bytes: &[u8]) -> bool {
    match written.get(name) {
        None => false,
        Some(content) => content.bytes() == bytes,
    }
}

// Whether these were put, and no others.
fn told(exports: &MemExports, rows: &[(&[u8], &[u8])]) -> bool {
    let puts = exports.puts();
    let mut same = puts.len() == rows.len();
    for (put, row) in puts.iter().zip(rows) {
        same = put.0.bytes() == row.0 && put.1.bytes() == row.1 && same;
    }
    same
}

#[test]
fn the_last_put_of_a_name_counts(rt: HostRuntime) -> Result<(), Fail> {
    let alloc = rt.alloc();
    let puts = three(alloc)?;
    let mut written = room_for(alloc, &puts)?;
    let mut exports = MemExports::new(alloc, CallNumbers::from_vec(Vec::new(alloc)));
    let result = make_puts(alloc, puts, &mut exports, &mut written);
    assert!(rt; result == Ok(()));
    assert!(rt; told(&exports, &[(b"x", TEXT_A), (b"y", TEXT_B), (b"x", TEXT_B)]));
    assert!(rt; is(&written, b"x", TEXT_B) && is(&written, b"y", TEXT_B));
    Ok(())
}

#[test]
fn nothing_is_put_behind_a_failure(rt: HostRuntime) -> Result<(), Fail> {
    let alloc = rt.alloc();
    let puts = three(alloc)?;
    let mut written = room_for(alloc, &puts)?;
    let mut second = Vec::new(alloc);
    second.push(2)?;
    let mut exports = MemExports::new(alloc, CallNumbers::from_vec(second));
    let result = make_puts(alloc, puts, &mut exports, &mut written);
    assert!(rt; result == Err(ExportFail::Fault));
    assert!(rt; told(&exports, &[(b"x", TEXT_A)]));
    assert!(rt; is(&written, b"x", TEXT_A) && written.get(b"y").is_none());
    Ok(())
}
