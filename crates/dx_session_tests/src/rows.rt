//! Rows of tables: sessions over files in memory, and whether what a row says comes of its line.
use dx_base::Bytes;
use dx_io::{CallNumbers, MemExports, MemFiles, MemSink, NamedBytes};
use dx_modules::Modules;
use dx_session::run_dxi;
use std::alloc::{AllocError, Global};
use std::test::Fail;

/// A line and what comes of it: the texts that make the session `s.net`, one behind the other, the other files that are there, the lines
/// that are printed, the status, and the files that are put, in order.
#[derive(Clone, Copy)]
pub struct Row<'a> {
    pub what: &'a str,
    pub words: &'a [&'a str],
    pub session: &'a [&'a str],
    pub files: &'a [(&'a str, &'a [u8])],
    pub printed: &'a [&'a str],
    pub status: u8,
    pub puts: &'a [(&'a str, &'a [u8])],
}

/// What a row has where it doesn't say it.
pub const PLAIN: Row<'static> = Row {
    what: "",
    words: &["s.net"],
    session: &[],
    files: &[],
    printed: &[],
    status: 0,
    puts: &[],
};

/// How a number is printed, before its value.
pub const NUMBER: &str = "array plain int rank 0 items 1";

/// How a number is written, before its value.
pub const ITEM: &str = "object 1 class array type int rank 0 items 1 data follows";

/// A field over a grid of four by three points.
pub const GRID: &[u8] = b"\
# four by three
object 1 class gridpositions counts 4 3
origin 0 0
delta 1 0
delta 0 1.0
object 2 class gridconnections counts 4 3
attribute \"element type\" string \"quads\"
attribute \"ref\" string \"positions\"
object 3 class array type int rank 0 items 12 data follows
 1 2 3 4 5 6 7 8 9 10 11 12
attribute \"dep\" string \"positions\"
object \"f\" class field
component \"positions\" value 1
component \"connections\" value 2
component \"data\" value 3
end
";

// The session and the other files.
fn files(alloc: Global, row: &Row) -> Result<MemFiles, AllocError> {
    let mut session = Vec::new(alloc);
    for text in row.session {
        session.extend_from_slice(text.as_bytes())?;
    }
    let mut pairs = Vec::new(alloc);
    let name = Bytes::copy_of(alloc, b"s.net")?;
    let _ = pairs.push((name, Bytes::from_vec(session))).is_ok();
    for (name, content) in row.files {
        let name = Bytes::copy_of(alloc, name.as_bytes())?;
        let content = Bytes::copy_of(alloc, content)?;
        let _ = pairs.push((name, content)).is_ok();
    }
    Ok(MemFiles::new(alloc, NamedBytes::from_vec(pairs), none(alloc)))
}

// No call of a device fails.
fn none(alloc: Global) -> CallNumbers {
    CallNumbers::from_vec(Vec::new(alloc))
}

fn words(alloc: Global, row: &Row) -> Result<Vec<String>, Fail> {
    let mut words = Vec::new(alloc);
    for word in row.words {
        words.push(String::from_str(alloc, word)?)?;
    }
    Ok(words)
}

// Whether these lines are printed, each ended by a newline, and nothing else.
fn are_printed(alloc: Global, out: &MemSink, lines: &[&str]) -> Result<bool, AllocError> {
    let mut text = Vec::new(alloc);
    for line in lines {
        text.extend_from_slice(line.as_bytes())?;
        text.push(b'\n')?;
    }
    Ok(out.bytes() == text.as_slice())
}

// Whether these files are put, in this order, and no others.
fn are_put(exports: &MemExports, files: &[(&str, &[u8])]) -> bool {
    let puts = exports.puts();
    let mut same = puts.len() == files.len();
    for (put, file) in puts.iter().zip(files) {
        same = same && put.0.bytes() == file.0.as_bytes() && put.1.bytes() == file.1;
    }
    same
}

/// What comes of a line: the status, what is printed, and what is put.
#[derive(Drop)]
pub struct Seen {
    pub status: u8,
    pub out: MemSink,
    pub exports: MemExports,
}

/// Runs the line of a row.
pub fn run(alloc: Global, row: &Row) -> Result<Seen, Fail> {
    let words = words(alloc, row)?;
    let mut files = files(alloc, row)?;
    let mut exports = MemExports::new(alloc, none(alloc));
    let mut out = MemSink::new(alloc, none(alloc));
    let status = run_dxi(
        alloc,
        &words,
        &mut files,
        &mut exports,
        &mut out,
        &mut Modules::new(),
    );
    Ok(Seen {
        status,
        out,
        exports,
    })
}

// Whether what a row says comes of its line.
fn holds(alloc: Global, row: &Row) -> Result<bool, Fail> {
    let seen = run(alloc, row)?;
    let printed = are_printed(alloc, &seen.out, row.printed)?;
    Ok(seen.status == row.status && printed && are_put(&seen.exports, row.puts))
}

/// Runs each line of a table. The first one of which something else comes is the failure.
pub fn all_hold(alloc: Global, rows: &[Row]) -> Result<(), Fail> {
    for row in rows {
        if !holds(alloc, row)? {
            return Err(Fail::from(row.what));
        }
    }
    Ok(())
}
