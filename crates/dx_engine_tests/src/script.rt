//! The graph of a statement of a text.
ghost use Rattle.std.specs.Prelude.{IfOk, IfSome};
ghost use Rattle.dx_ast.specs.Lawful.{IsLawful, AreLawful};
ghost use Rattle.dx_ast.specs.Plain.{plain_stmt, plain_stmts};

use dx_ast::{Frames, Stmt, Stmts};
use dx_expansion::check_and_expand;
use dx_graph::Graph;
use dx_macros::{CheckFail, Dictionary};
use dx_parser::{ParseFail, parse};
use std::alloc::{AllocError, Global};

/// The values of the variables of the sequencer.
fn frames() -> Frames {
    Frames {
        start: 1,
        end: 7,
        delta: 3,
        next: 5,
        frame: 4,
    }
}

/// A macro and an assignment join.
fn join(d: &mut Dictionary, s: Stmt) -> Result<(), AllocError>
    requires { IsLawful (plain_stmt s) }
{
    match s {
        Stmt::Macro(m) => d.define(m.into_inner()),
        Stmt::Assign(a) => d.add(a),
        _ => Ok(()),
    }
}

fn join_all(d: &mut Dictionary, statements: Stmts) -> Result<(), AllocError>
    requires { AreLawful (plain_stmts statements) }
{
    'each: for s in statements.into_vec() {
        join(d, s)?;
    }
    Ok(())
}

/// The statements of a text that is a script, and isn't too long.
fn statements_of(alloc: Global, text: &[u8]) -> Result<Option<Stmts>, AllocError>
    ensures { IfOk result (λ found. IfSome found (λ statements. AreLawful (plain_stmts statements))) }
{
    if text.len() > 16_777_216 {
        return Ok(None);
    }
    match parse(alloc, text) {
        Ok(statements) => Ok(Some(statements)),
        Err(ParseFail::Refused(_)) => Ok(None),
        Err(ParseFail::Memory) => Err(AllocError),
    }
}

/// The dictionary that has the macros and definitions of a text; None where that is no script.
fn taken(alloc: Global, text: &[u8]) -> Result<Option<Dictionary>, AllocError> {
    let Some(statements) = statements_of(alloc, text)? else {
        return Ok(None);
    };
    let mut d = Dictionary::new(alloc);
    join_all(&mut d, statements)?;
    Ok(Some(d))
}

fn expanded(alloc: Global, d: &Dictionary, s: &Stmt) -> Result<Option<Graph>, AllocError>
    requires { IsLawful (plain_stmt s.now) }
{
    match check_and_expand(alloc, d, s, &frames()) {
        Ok(g) => Ok(Some(g)),
        Err(CheckFail::Fault(_, _)) => Ok(None),
        Err(CheckFail::Memory) => Err(AllocError),
    }
}

fn first_expanded(
    alloc: Global,
    d: &Dictionary,
    statements: &Stmts,
) -> Result<Option<Graph>, AllocError>
    requires { AreLawful (plain_stmts statements.now) }
{
    match statements.as_slice().first() {
        None => Ok(None),
        Some(s) => expanded(alloc, d, s),
    }
}

fn graph_by(alloc: Global, d: &Dictionary, statement: &[u8]) -> Result<Option<Graph>, AllocError> {
    match statements_of(alloc, statement)? {
        None => Ok(None),
        Some(statements) => first_expanded(alloc, d, &statements),
    }
}

/// The graph of the first statement of a text by the macros and definitions of another; None where one of them is no script,
/// or the first has no statement, or one with a static fault.
pub fn graph_of(
    alloc: Global,
    before: &[u8],
    statement: &[u8],
) -> Result<Option<Graph>, AllocError> {
    match taken(alloc, before)? {
        None => Ok(None),
        Some(d) => graph_by(alloc, &d, statement),
    }
}
