//! A session statement by statement, also behind one that was cut short.
ghost use Rattle.std.specs.Prelude.{IfSome};
ghost use Rattle.dx_ast.specs.Lawful.{AreLawful};
ghost use Rattle.dx_ast.specs.Plain.{plain_stmts};
ghost use Rattle.dx_engine.specs.Keeping.{StateFits};

use crate::outcome::{Failing, NONE, devices, files};
use dx_ast::Stmts;
use dx_io::{MemExports, MemFiles, MemSink};
use dx_modules::Modules;
use dx_parser::parse;
use dx_sessions::{End, Listings, Session};
use std::alloc::{AllocError, Global};
use std::test::Fail;

// The statements of a text that is a script, and isn't too long.
fn statements_of(alloc: Global, text: &[u8]) -> Option<Stmts>
    ensures { IfSome result (λ statements. AreLawful (plain_stmts statements)) }
{
    if text.len() > 16_777_216 {
        return None;
    }
    match parse(alloc, text) {
        Ok(statements) => Some(statements),
        Err(_) => None,
    }
}

// How a statement ended, in a letter: well, with an error line, or cut short.
fn letter(ended: Result<bool, End>) -> u8 {
    match ended {
        Ok(false) => b'.',
        Ok(true) => b'e',
        Err(End::ReadFault) => b'r',
        Err(End::WriteFault) => b'w',
        Err(End::ExportFault) => b'x',
        Err(End::Memory) => b'm',
    }
}

// Performs the statements one after the other, also behind one that was cut short, and answers how each ended.
fn perform_each(
    alloc: Global,
    session: &mut Session,
    statements: Stmts,
    files: &mut MemFiles,
    exports: &mut MemExports,
    out: &mut MemSink,
    lib: &mut Modules,
) -> Result<Vec<u8>, AllocError>
    requires lawful { AreLawful (plain_stmts statements) }
    requires fits { StateFits session.old.state }
{
    let mut letters = Vec::new(alloc);
    'each: for s in statements.into_vec() {
        let ended = session.statement(alloc, s, files, exports, out, lib);
        letters.push(letter(ended))?;
    }
    Ok(letters)
}

// Performs the statements in a session of their own, and answers how each ended.
fn letters_of(
    alloc: Global,
    statements: Stmts,
    files: &mut MemFiles,
    exports: &mut MemExports,
    out: &mut MemSink,
) -> Result<Vec<u8>, AllocError>
    requires lawful { AreLawful (plain_stmts statements) }
{
    let listings = Listings {
        trace: false,
        links: false,
    };
    let mut session = Session::new(alloc, 1_000_000, listings);
    perform_each(
        alloc,
        &mut session,
        statements,
        files,
        exports,
        out,
        &mut Modules::new(),
    )
}

// A session over these files in which these calls of the devices fail: how each statement ended, and what was printed.
fn ends(
    alloc: Global,
    text: &str,
    texts: &[(&str, &str)],
    fail: Failing,
) -> Result<(Vec<u8>, Vec<u8>), Fail> {
    let statements = match statements_of(alloc, text.as_bytes()) {
        Some(statements) => statements,
        None => return Err(Fail::from("no script")),
    };
    let mut files = files(alloc, texts, fail.read)?;
    let (mut exports, mut out) = devices(alloc, fail)?;
    let letters = letters_of(alloc, statements, &mut files, &mut exports, &mut out)?;
    Ok((letters, out.bytes().to_vec(alloc)?))
}

const TEXT_T: &str = "object 1 class string \"t\"\n";

fn number(alloc: Global, n: i32) -> Result<String, Fail> {
    Ok(format!(in alloc; "array plain int rank 0 items 1\n{n}\n")?)
}

#[test]
fn a_session_goes_on_behind_a_fault(rt: HostRuntime) -> Result<(), Fail> {
    let alloc = rt.alloc();
    let (none, one) = (number(alloc, 0)?, number(alloc, 1)?);
    let linked =
        "macro m() { SetGlobal(1, \"n\"); Echo(Import(\"v.dx\")); } m(); Print(GetGlobal(0, \"n\"), \"d\"); m(); Print(GetGlobal(0, \"n\"), \"d\");";
    let linked_text = format!(in alloc; "{none}t\n{one}")?;
    let put = "Export(7, \"o\"); Echo(\"a\"); Export(8, \"o\"); Echo(\"b\");";
    let played =
        "@startframe = 1; @endframe = 3; sequence Echo(Import(\"v.dx\")); play; Echo(@frame); Echo(@nextframe); play; Echo(@frame);";
    let read = Failing { read: 1, ..NONE };
    let write = Failing { write: 1, ..NONE };
    let export = Failing { put: 2, ..NONE };
    for (text, fail, letters, printed) in [
        (linked, read, ".r...", linked_text.as_str()),
        (put, export, "..x.", "a\nb\n"),
        (put, write, ".w..", "b\n"),
        (played, read, "...r....", "1\n2\nt\nt\n3\n"),
        (played, write, "...w....", "1\n2\nt\nt\n3\n"),
    ] {
        let (got, bytes) = ends(alloc, text, &[("v.dx", TEXT_T)], fail)?;
        if got.as_slice() != letters.as_bytes() || bytes.as_slice() != printed.as_bytes() {
            return Err(Fail::from(text));
        }
    }
    Ok(())
}
