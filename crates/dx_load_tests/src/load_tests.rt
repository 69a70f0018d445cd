//! Loading over files in memory: statements, refusals with their files, and how often files are asked for.

use dx_ast::{Stmt, Stmts};
use dx_base::{Bytes, SyntaxError, SyntaxKind};
use dx_include::{LoadFail, load};
use dx_io::{CallNumbers, MemFiles, NamedBytes};
use std::alloc::{AllocError, Global};
use std::test::Fail;

fn put(out: &mut Vec<u8>, text: &str) -> Result<(), AllocError> {
    out.extend_from_slice(text.as_bytes())
}

fn put_number(alloc: Global, out: &mut Vec<u8>, number: u64) -> Result<(), AllocError> {
    let digits = format!(in alloc; "{number}")?;
    put(out, digits.as_str())
}

fn put_named(out: &mut Vec<u8>, word: &str, name: &Bytes) -> Result<(), AllocError> {
    put(out, word)?;
    out.extend_from_slice(name.bytes())
}

fn word_of(kind: SyntaxKind) -> &'static str {
    match kind {
        SyntaxKind::Syntax => "Syntax ",
        SyntaxKind::FloatNumber => "FloatNumber ",
        SyntaxKind::NumberRange => "NumberRange ",
        SyntaxKind::MixedList => "MixedList ",
        SyntaxKind::ListTooLong => "ListTooLong ",
    }
}

/// Writes `KIND NAME:LINE:COLUMN`.
fn put_error(
    alloc: Global,
    out: &mut Vec<u8>,
    name: &Bytes,
    e: SyntaxError,
) -> Result<(), AllocError> {
    put_named(out, word_of(e.kind), name)?;
    put(out, ":")?;
    put_number(alloc, out, e.line)?;
    put(out, ":")?;
    put_number(alloc, out, e.column)
}

/// Writes what a statement assigns first, or that it assigns nothing.
fn put_target(out: &mut Vec<u8>, statement: &Stmt) -> Result<(), AllocError> {
    let Stmt::Assign(a) = statement else {
        return put(out, "no assignment");
    };
    match a.targets.as_slice().first() {
        Some(target) => out.extend_from_slice(target.bytes()),
        None => put(out, "no target"),
    }
}

/// Writes the first target of each statement, a space between two.
fn put_targets(out: &mut Vec<u8>, statements: &Stmts) -> Result<(), AllocError> {
    for statement in statements.as_slice() {
        if out.len() > 0 {
            put(out, " ")?;
        }
        put_target(out, statement)?;
    }
    Ok(())
}

/// Writes what the statements of a loading of `s` assign, or why it is refused and of which file.
fn put_loaded(alloc: Global, files: &mut MemFiles, out: &mut Vec<u8>) -> Result<(), AllocError> {
    let session = Bytes::copy_of(alloc, b"s")?;
    match load(alloc, files, &session) {
        Ok(statements) => put_targets(out, &statements),
        Err(LoadFail::Missing(name)) => put_named(out, "Missing ", &name),
        Err(LoadFail::Nested(name)) => put_named(out, "Nested ", &name),
        Err(LoadFail::TooLong(name)) => put_named(out, "TooLong ", &name),
        Err(LoadFail::Syntax(name, e)) => put_error(alloc, out, &name, e),
        Err(LoadFail::ReadFault) => put(out, "ReadFault"),
        Err(LoadFail::Memory) => put(out, "Memory"),
    }
}

/// A loading of `s` comes to this, and asks for so many files.
fn is_loaded(
    alloc: Global,
    files: &mut MemFiles,
    want: &str,
    reads: usize,
) -> Result<bool, AllocError> {
    let mut out = Vec::new(alloc);
    put_loaded(alloc, files, &mut out)?;
    Ok(out.as_slice() == want.as_bytes() && files.asked().len() == reads)
}

/// Files with these names and texts, of which the read of this number fails.
fn files_of(alloc: Global, texts: &[(&str, &str)], fail: u64) -> Result<MemFiles, AllocError> {
    let mut pairs = Vec::new(alloc);
    for (name, text) in texts {
        let name = Bytes::copy_of(alloc, name.as_bytes())?;
        pairs.push((name, Bytes::copy_of(alloc, text.as_bytes())?))?;
    }
    let fail = CallNumbers::from_vec([fail].to_vec(alloc)?);
    Ok(MemFiles::new(alloc, NamedBytes::from_vec(pairs), fail))
}

/// The same where this is the text of `s`, beside some files that it may include, and the read of this number fails.
fn is_session_loaded(
    alloc: Global,
    session: &str,
    fail: u64,
    want: &str,
    reads: usize,
) -> Result<bool, AllocError> {
    let texts = [
        ("s", session),
        ("a", "z = 3;"),
        ("b", "include \"a\" q = 4;"),
        ("bad", "r = 1.5;"),
        ("me", "include \"me\""),
    ];
    let mut files = files_of(alloc, &texts, fail)?;
    is_loaded(alloc, &mut files, want, reads)
}

/// The text of `s`, the number of the read that fails, 0 for none, what the loading comes to, and how many files it asks for.
const SESSIONS: [(&str, u64, &str, usize); 12] = [
    ("x = 1; y = 2;", 0, "x y", 1),
    ("include \"a\" x = 1; include \"a\"", 0, "z x z", 3),
    ("include \"b\"", 0, "z q", 3),
    ("x = 1; include \"none\" y =;", 0, "Syntax s:1:26", 1),
    ("include \"a\" include \"none\"", 0, "Missing none", 3),
    (
        "include \"bad\" include \"none\"",
        0,
        "FloatNumber bad:1:5",
        2,
    ),
    ("include \"me\"", 0, "Nested me", 16),
    ("x = {1 \"a\"};", 0, "MixedList s:1:8", 1),
    ("include \"b\"", 1, "ReadFault", 1),
    ("include \"b\"", 2, "ReadFault", 2),
    ("include \"b\"", 3, "ReadFault", 3),
    ("include \"b\"", 4, "z q", 3),
];

#[test]
fn includes_are_replaced_in_order(rt: HostRuntime) -> Result<(), Fail> {
    for (session, fail, want, reads) in &SESSIONS {
        if !is_session_loaded(rt.alloc(), session, *fail, want, *reads)? {
            return Err(Fail::from(*session));
        }
    }
    Ok(())
}

type Pairs = Vec<(Bytes, Bytes)>;

fn put_file(
    alloc: Global,
    pairs: &mut Pairs,
    name: &[u8],
    text: Vec<u8>,
) -> Result<(), AllocError> {
    let pair = (Bytes::copy_of(alloc, name)?, Bytes::from_vec(text));
    pairs.push(pair)?;
    Ok(())
}

fn in_memory(alloc: Global, pairs: Pairs) -> MemFiles {
    MemFiles::new(
        alloc,
        NamedBytes::from_vec(pairs),
        CallNumbers::from_vec(Vec::new(alloc)),
    )
}

/// The names of files, each of which includes the next one.
const NAMES: &[u8; 18] = b"sbcdefghijklmnopqr";

/// Files of so many levels; that of the last level has one statement.
fn levels(alloc: Global, count: usize) -> Result<Pairs, AllocError> {
    let names = NAMES.as_slice();
    let mut pairs = Vec::new(alloc);
    for i in 0..17 {
        let mut text = Vec::new(alloc);
        if i + 1 < count {
            put(&mut text, "include \"")?;
            text.push(names[i + 1])?;
            put(&mut text, "\"")?;
        } else {
            put(&mut text, "x = 1;")?;
        }
        put_file(alloc, &mut pairs, &names[i..i + 1], text)?;
    }
    Ok(pairs)
}

#[test]
fn sixteen_levels_are_loaded_and_no_more(rt: HostRuntime) -> Result<(), Fail> {
    let alloc = rt.alloc();
    let mut sixteen = in_memory(alloc, levels(alloc, 16)?);
    assert!(rt; is_loaded(alloc, &mut sixteen, "x", 16)?);
    let mut seventeen = in_memory(alloc, levels(alloc, 17)?);
    assert!(rt; is_loaded(alloc, &mut seventeen, "Nested q", 16)?);
    Ok(())
}

/// The session's own 24 bytes, and those of an included file twice.
fn twice(alloc: Global, len: usize) -> Result<MemFiles, AllocError> {
    let mut pairs = Vec::new(alloc);
    let mut session = Vec::new(alloc);
    put(&mut session, "include \"a\" include \"a\" ")?;
    put_file(alloc, &mut pairs, b"s", session)?;
    put_file(alloc, &mut pairs, b"a", vec![in alloc; b' '; len]?)?;
    Ok(in_memory(alloc, pairs))
}

#[test]
fn all_files_together_have_a_limit(rt: HostRuntime) -> Result<(), Fail> {
    let alloc = rt.alloc();
    let mut all = twice(alloc, 8_388_596)?;
    assert!(rt; is_loaded(alloc, &mut all, "", 3)?);
    let mut more = twice(alloc, 8_388_597)?;
    assert!(rt; is_loaded(alloc, &mut more, "TooLong a", 3)?);
    Ok(())
}
