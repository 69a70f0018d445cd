//! The effects of a script's statements, and the sizes of graphs.

ghost use Rattle.dx_ast.specs.Lawful.{IsLawful, AreLawful};
ghost use Rattle.dx_ast.specs.Plain.{plain_stmt, plain_stmts};

use crate::session::{is_executed, join, statements_of};
use crate::shown::write_effects;
use dx_ast::{Frames, Stmt, Stmts};
use dx_expansion::{check_and_expand, expand, expand_silent};
use dx_macros::{CheckFail, Dictionary};
use std::alloc::{AllocError, Global};

/// The values of the variables of the sequencer.
fn frames() -> Frames {
    Frames {
        start: 1,
        end: 7,
        delta: 3,
        next: 5,
        frame: 4,
    }
}

/// Writes the effects of a statement.
fn show(alloc: Global, d: &Dictionary, s: &Stmt, out: &mut Vec<u8>) -> Result<(), AllocError>
    requires { IsLawful (plain_stmt s.now) }
{
    match check_and_expand(alloc, d, s, &frames()) {
        Ok(g) => write_effects(alloc, &g, out),
        Err(CheckFail::Fault(_, _)) => out.extend_from_slice(b"fault\n"),
        Err(CheckFail::Memory) => Err(AllocError),
    }
}

fn perform(alloc: Global, d: &mut Dictionary, s: Stmt, out: &mut Vec<u8>) -> Result<(), AllocError>
    requires { IsLawful (plain_stmt s) }
{
    if is_executed(&s) {
        show(alloc, d, &s, out)?;
    }
    join(d, s)
}

fn perform_all(
    alloc: Global,
    d: &mut Dictionary,
    statements: Stmts,
    out: &mut Vec<u8>,
) -> Result<(), AllocError>
    requires { AreLawful (plain_stmts statements) }
{
    'each: for s in statements.into_vec() {
        perform(alloc, d, s, out)?;
    }
    Ok(())
}

/// Performs the statements of a text, and writes the effects of each.
pub fn read(
    alloc: Global,
    d: &mut Dictionary,
    text: &[u8],
    out: &mut Vec<u8>,
) -> Result<(), AllocError> {
    match statements_of(alloc, text)? {
        Some(statements) => perform_all(alloc, d, statements, out),
        None => out.extend_from_slice(b"no script\n"),
    }
}

fn nodes_of(alloc: Global, d: &Dictionary, s: &Stmt) -> Result<u32, AllocError>
    requires { IsLawful (plain_stmt s.now) }
{
    match d.check(alloc, s) {
        Ok(()) => {
            let g = expand(alloc, d, s, &frames())?;
            Ok(g.len())
        }
        Err(CheckFail::Fault(_, _)) => Ok(0),
        Err(CheckFail::Memory) => Err(AllocError),
    }
}

/// How many nodes the graph of the first statement of a text has, if that is executed and has no fault.
pub fn count_nodes(alloc: Global, d: &Dictionary, text: &[u8]) -> Result<u32, AllocError> {
    match statements_of(alloc, text)? {
        None => Ok(0),
        Some(statements) => match statements.as_slice().first() {
            None => Ok(0),
            Some(s) => {
                if is_executed(s) {
                    nodes_of(alloc, d, s)
                } else {
                    Ok(0)
                }
            }
        },
    }
}

fn is_silent(alloc: Global, d: &Dictionary, s: &Stmt) -> bool {
    match expand_silent(alloc, d, s, &frames()) {
        Some(g) => g.effects().is_empty(),
        None => false,
    }
}

/// Whether the first statement of a text is expanded as one that can have no effect, to a graph without effects; None where there is
/// no statement.
pub fn is_first_silent(
    alloc: Global,
    d: &Dictionary,
    text: &[u8],
) -> Result<Option<bool>, AllocError> {
    let Some(statements) = statements_of(alloc, text)? else {
        return Ok(None);
    };
    match statements.as_slice().first() {
        None => Ok(None),
        Some(s) => Ok(Some(is_silent(alloc, d, s))),
    }
}
