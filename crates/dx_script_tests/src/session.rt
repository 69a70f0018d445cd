//! Statements of a text, and how they join a dictionary.

ghost use Rattle.std.specs.Prelude.{◌≡◌, true, IfOk, IfSome};
ghost use Rattle.dx_ast.specs.Lawful.{IsLawful, AreLawful};
ghost use Rattle.dx_ast.specs.Plain.{plain_stmt, plain_stmts};
ghost use Rattle.dx_macros.specs.Dictionary.{IsExecuted};

use dx_ast::{Expr, Stmt, Stmts};
use dx_macros::Dictionary;
use dx_parser::{ParseFail, parse};
use std::alloc::{AllocError, Global};

/// A call, a sequence call, or an assignment whose text has a call.
pub fn is_executed(s: &Stmt) -> bool
    ensures { result ≡ true → IsExecuted (plain_stmt s.now) }
{
    match s {
        Stmt::Call(_) => true,
        Stmt::Sequence(_) => true,
        Stmt::Assign(a) => is_call(&a.value),
        _ => false,
    }
}

fn is_call(e: &Expr) -> bool {
    matches!(e, Expr::Call(_))
}

/// A macro and an assignment join.
pub fn join(d: &mut Dictionary, s: Stmt) -> Result<(), AllocError>
    requires { IsLawful (plain_stmt s) }
{
    match s {
        Stmt::Macro(m) => d.define(m.into_inner()),
        Stmt::Assign(a) => d.add(a),
        _ => Ok(()),
    }
}

fn join_all(d: &mut Dictionary, statements: Stmts) -> Result<(), AllocError>
    requires { AreLawful (plain_stmts statements) }
{
    'each: for s in statements.into_vec() {
        join(d, s)?;
    }
    Ok(())
}

/// The statements of a text that is a script, and isn't too long.
pub fn statements_of(alloc: Global, text: &[u8]) -> Result<Option<Stmts>, AllocError>
    ensures { IfOk result (λ found. IfSome found (λ statements. AreLawful (plain_stmts statements))) }
{
    if text.len() > 16_777_216 {
        return Ok(None);
    }
    match parse(alloc, text) {
        Ok(statements) => Ok(Some(statements)),
        Err(ParseFail::Refused(_)) => Ok(None),
        Err(ParseFail::Memory) => Err(AllocError),
    }
}

/// The dictionary that has the macros and definitions of a text, which join unchecked; None where that is no script.
pub fn taken(alloc: Global, text: &[u8]) -> Result<Option<Dictionary>, AllocError> {
    let Some(statements) = statements_of(alloc, text)? else {
        return Ok(None);
    };
    let mut d = Dictionary::new(alloc);
    join_all(&mut d, statements)?;
    Ok(Some(d))
}
