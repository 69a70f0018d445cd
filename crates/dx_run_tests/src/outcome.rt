//! Runs of whole sessions over files in memory.
use dx_base::Bytes;
use dx_io::{CallNumbers, MemExports, MemFiles, MemSink, NamedBytes};
use dx_modules::Modules;
use dx_session::run_dxi;
use std::alloc::{AllocError, Global};
use std::test::Fail;

// The number of the read, of the write and of the put that fail, 0 for none; and whether a write takes one byte alone.
#[derive(Clone, Copy)]
pub struct Failing {
    pub read: u64,
    pub write: u64,
    pub put: u64,
    pub slow: bool,
}

pub const NONE: Failing = Failing {
    read: 0,
    write: 0,
    put: 0,
    slow: false,
};

// What comes of a line: the status, what is printed, how many names are asked for, and the files that are put, in order.
#[derive(Drop)]
pub struct Seen {
    pub status: u8,
    pub printed: Vec<u8>,
    pub asked: usize,
    pub puts: Vec<u8>,
}

// Files with these names and texts, one of whose reads fails where its number isn't 0.
pub fn files(alloc: Global, texts: &[(&str, &str)], fail: u64) -> Result<MemFiles, AllocError> {
    let mut pairs = Vec::new(alloc);
    for (name, text) in texts {
        let name = Bytes::copy_of(alloc, name.as_bytes())?;
        let text = Bytes::copy_of(alloc, text.as_bytes())?;
        let _ = pairs.push((name, text)).is_ok();
    }
    Ok(MemFiles::new(alloc, NamedBytes::from_vec(pairs), numbers(alloc, fail)?))
}

fn numbers(alloc: Global, fail: u64) -> Result<CallNumbers, AllocError> {
    Ok(CallNumbers::from_vec([fail].to_vec(alloc)?))
}

fn words(alloc: Global, texts: &[&str]) -> Result<Vec<String>, Fail> {
    let mut words = Vec::new(alloc);
    for text in texts {
        words.push(String::from_str(alloc, text)?)?;
    }
    Ok(words)
}

// The puts one behind the other, each as its name, a colon and its content.
fn listed(alloc: Global, exports: &MemExports) -> Result<Vec<u8>, AllocError> {
    let mut all = Vec::new(alloc);
    for (name, content) in exports.puts() {
        all.extend_from_slice(name.bytes())?;
        all.extend_from_slice(b":")?;
        all.extend_from_slice(content.bytes())?;
    }
    Ok(all)
}

// A folder to put into and a sink, of which these calls fail.
pub fn devices(alloc: Global, fail: Failing) -> Result<(MemExports, MemSink), AllocError> {
    let exports = MemExports::new(alloc, numbers(alloc, fail.put)?);
    let limit = if fail.slow { 1 } else { u64::MAX };
    let out = MemSink::slow(alloc, limit, numbers(alloc, fail.write)?);
    Ok((exports, out))
}

// What comes of a line over these files.
pub fn run_line(
    alloc: Global,
    line: &[&str],
    texts: &[(&str, &str)],
    fail: Failing,
) -> Result<Seen, Fail> {
    let words = words(alloc, line)?;
    let mut files = files(alloc, texts, fail.read)?;
    let (mut exports, mut out) = devices(alloc, fail)?;
    let mut modules = Modules::new();
    let status = run_dxi(
        alloc,
        &words,
        &mut files,
        &mut exports,
        &mut out,
        &mut modules,
    );
    Ok(Seen {
        status,
        printed: out.bytes().to_vec(alloc)?,
        asked: files.asked().len(),
        puts: listed(alloc, &exports)?,
    })
}

// The status, what is printed, and how many names are asked for. A read and a write of these numbers fail.
pub fn outcome(
    alloc: Global,
    line: &[&str],
    texts: &[(&str, &str)],
    read: u64,
    write: u64,
) -> Result<(u8, Vec<u8>, usize), Fail> {
    let seen = run_line(
        alloc,
        line,
        texts,
        Failing {
            read,
            write,
            put: 0,
            slow: false,
        },
    )?;
    let Seen {
        status,
        printed,
        asked,
        puts: _,
    } = seen;
    Ok((status, printed, asked))
}

// Whether a session prints this text and ends with this status.
pub fn does_print(alloc: Global, text: &str, printed: &str, status: u8) -> Result<bool, Fail> {
    let (got, bytes, _) = outcome(alloc, &["s.net"], &[("s.net", text)], 0, 0)?;
    Ok(got == status && bytes.as_slice() == printed.as_bytes())
}

// Runs each session of a table. One that prints another text, or ends with another status, is the failure.
pub fn all_print(alloc: Global, rows: &[(&str, &str, u8)]) -> Result<(), Fail> {
    for (text, printed, status) in rows {
        if !does_print(alloc, text, printed, *status)? {
            return Err(Fail::from(*text));
        }
    }
    Ok(())
}
