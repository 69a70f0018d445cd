//! Loading a file: its text, and the statements of its includes in their places.
ghost use Rattle.std.specs.Prelude.{◌≡◌, ◌≤◌, ℕ, List, Some, IfOk, OnOk, length, true};
ghost use Rattle.dx_ast.specs.Lawful.{AreLawful};
ghost use Rattle.dx_ast.specs.Plain.{plain_stmts};
ghost use Rattle.dx_io.specs.Devices.{FileMap};
ghost use Rattle.dx_include.specs.Answers.{Adds, LoadCause, Loads, Parses, TakesText};
ghost use Rattle.dx_include.specs.Computed.{IncludesNothing, load_within, loading_of, parsed, splice};
ghost use Rattle.dx_include.specs.Loading.{IsLoading, Loading};

use crate::LoadFail;
use crate::loaded::Loaded;
use dx_ast::{Stmt, Stmts};
use dx_base::{Bytes, Items};
use dx_io::Files;
use dx_parser::{ParseFail, parse};
use std::alloc::Global;

/// How many levels of files there may be, the session's own being the first.
const MAX_LEVELS: usize = 16;

/// How many bytes all files may have together.
const MAX_BYTES: usize = 16_777_216;

/// Loads a session, before any of it is executed: the statements of the file of this name, with those of the included file
/// in the place of each include. A file's text is parsed whole, and then its includes are loaded in order.
///
/// The first refusal in the order of loading decides. At one file they are looked for in this order: `Nested` where the
/// file would be the 17th level, before it is read; `Missing` exactly where there is no such file; `TooLong` where the
/// files loaded so far have more than 16,777,216 bytes with this one; `Syntax` at the first error of its text. A file that
/// is included twice is read and counted twice.
pub fn load<F: Files>(alloc: Global, files: &mut F, name: &Bytes) -> Result<Stmts, LoadFail>
    // What is answered and asked for are those of the session's loading; where that is cut short, a front of its reads.
    ensures loading { (map : FileMap) → F.content files.old ≡ Some map →
        (l : Loading) × IsLoading map name.now l × Loads l result (F.asked files.old) (F.asked files.new) }
    ensures lawful { IfOk result (λ statements. AreLawful (plain_stmts statements)) }
    ensures same { F.content files.new ≡ F.content files.old }
    ensures cause { LoadCause (F.faults files.old) (F.faults files.new) result }
{
    load_session(alloc, files, name)
}

fn load_session<F: Files>(alloc: Global, files: &mut F, name: &Bytes) -> Result<Stmts, LoadFail>
    ensures loading { (map : FileMap) → F.content files.old ≡ Some map →
        Loads (loading_of map name.now) result (F.asked files.old) (F.asked files.new) }
    ensures lawful { IfOk result (λ statements. AreLawful (plain_stmts statements)) }
    ensures same { F.content files.new ≡ F.content files.old }
    ensures cause { LoadCause (F.faults files.old) (F.faults files.new) result }
{
    let name = Bytes::copy_of(alloc, name.bytes())?;
    let mut loaded = Loaded {
        statements: Items::new(alloc),
        bytes: 0,
    };
    load_file(alloc, files, MAX_LEVELS, name, &mut loaded)?;
    Ok(loaded.statements)
}

// Loads the file of a name, at most so many levels deep, behind what is loaded so far.
#[cycle(load)]
fn load_file<F: Files>(
    alloc: Global,
    files: &mut F,
    levels: usize,
    name: Bytes,
    loaded: &mut Loaded,
) -> Result<(), LoadFail>
    requires few { loaded.old.bytes ≤ 16777216 }
    requires lawful { AreLawful (plain_stmts loaded.old.statements) }
    ensures adds { (map : FileMap) → F.content files.old ≡ Some map →
        Adds (load_within levels map loaded.old name) loaded.new result (F.asked files.old) (F.asked files.new) }
    ensures few { OnOk result (loaded.new.bytes ≤ 16777216) }
    ensures lawful { OnOk result (AreLawful (plain_stmts loaded.new.statements)) }
    ensures same { F.content files.new ≡ F.content files.old }
    ensures cause { LoadCause (F.faults files.old) (F.faults files.new) result }
{
    if levels == 0 {
        return Err(LoadFail::Nested(name));
    }
    let Some(text) = files.read(alloc, &name)? else {
        return Err(LoadFail::Missing(name));
    };
    let statements = take_text(alloc, name, text.bytes(), loaded)?;
    splice(alloc, files, levels - 1, statements, loaded)
}

// Whether no statement is an include.
fn includes_nothing(statements: &[Stmt]) -> bool
    ensures { result ≡ true → IncludesNothing statements.now }
{
    for statement in statements {
        match statement {
            Stmt::Include(_) => return false,
            _ => {}
        }
    }
    true
}

// Joins the statements to what is loaded so far, each include replaced by what its file loads.
#[cycle(load)]
fn splice<F: Files>(
    alloc: Global,
    files: &mut F,
    levels: usize,
    statements: Stmts,
    loaded: &mut Loaded,
) -> Result<(), LoadFail>
    requires few { loaded.old.bytes ≤ 16777216 }
    requires lawful { AreLawful (plain_stmts loaded.old.statements) }
    requires lawful_statements { AreLawful (plain_stmts statements) }
    ensures adds { (map : FileMap) → F.content files.old ≡ Some map →
        Adds (splice (load_within levels map) statements loaded.old) loaded.new result (F.asked files.old) (F.asked files.new) }
    ensures few { OnOk result (loaded.new.bytes ≤ 16777216) }
    ensures lawful { OnOk result (AreLawful (plain_stmts loaded.new.statements)) }
    ensures same { F.content files.new ≡ F.content files.old }
    ensures cause { LoadCause (F.faults files.old) (F.faults files.new) result }
{
    if loaded.statements.is_empty() && includes_nothing(statements.as_slice()) {
        loaded.statements = statements;
        return Ok(());
    }
    'each: for statement in statements.into_vec() {
        match statement {
            Stmt::Include(name) => load_file(alloc, files, levels, name, loaded)?,
            other => loaded.statements.push(other)?,
        }
    }
    Ok(())
}

// Counts the bytes of a file's text, and parses it.
fn take_text(
    alloc: Global,
    name: Bytes,
    text: &[u8],
    loaded: &mut Loaded,
) -> Result<Stmts, LoadFail>
    requires { loaded.old.bytes ≤ 16777216 }
    ensures takes { TakesText loaded.old name text.now result loaded.new }
    ensures lawful { IfOk result (λ statements. AreLawful (plain_stmts statements)) }
    ensures few { OnOk result (loaded.new.bytes ≤ 16777216) }
{
    if text.len() > MAX_BYTES - loaded.bytes {
        return Err(LoadFail::TooLong(name));
    }
    match statements_of(alloc, text) {
        Ok(statements) => {
            loaded.bytes += text.len();
            Ok(statements)
        }
        Err(ParseFail::Refused(e)) => Err(LoadFail::Syntax(name, e)),
        Err(ParseFail::Memory) => Err(LoadFail::Memory),
    }
}

fn statements_of(alloc: Global, text: &[u8]) -> Result<Stmts, ParseFail>
    ensures parses { Parses (parsed text.now) result }
    ensures lawful { length text.now ≤ 16777216 → IfOk result (λ statements. AreLawful (plain_stmts statements)) }
{
    parse(alloc, text)
}

/// A session has one loading.
pub fn one_loading()
    ensures { (files : FileMap) (name : List ℕ) (l m : Loading) → IsLoading files name l → IsLoading files name m → l ≡ m }
{}
