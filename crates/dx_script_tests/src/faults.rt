//! What the checks of a script's statements answer.

ghost use Rattle.dx_ast.specs.Lawful.{IsLawful, AreLawful};
ghost use Rattle.dx_ast.specs.Plain.{plain_stmt, plain_stmts};
ghost use Rattle.dx_macros.specs.Dictionary.{IsExecuted};

use crate::session::{is_executed, join, statements_of};
use dx_ast::{Stmt, Stmts};
use dx_macros::{CheckFail, Dictionary};
use std::alloc::{AllocError, Global};

/// Writes what the check of a statement answers, `ok` or `SITE: FAULT`, and whether it has no fault.
fn is_faultless(
    alloc: Global,
    d: &Dictionary,
    s: &Stmt,
    out: &mut Vec<u8>,
) -> Result<bool, AllocError>
    requires lawful { IsLawful (plain_stmt s.now) }
    requires executed { IsExecuted (plain_stmt s.now) }
{
    match d.check(alloc, s) {
        Ok(()) => {
            out.extend_from_slice(b"ok|")?;
            Ok(true)
        }
        Err(CheckFail::Fault(site, fault)) => {
            out.extend_from_slice(site.bytes())?;
            let name = format!(in alloc; ": {fault:?}|")?;
            out.extend_from_slice(name.as_bytes())?;
            Ok(false)
        }
        Err(CheckFail::Memory) => Err(AllocError),
    }
}

/// A statement that is executed is checked before, and joins where it has no fault.
fn perform(alloc: Global, d: &mut Dictionary, s: Stmt, out: &mut Vec<u8>) -> Result<(), AllocError>
    requires { IsLawful (plain_stmt s) }
{
    let joins = if is_executed(&s) {
        is_faultless(alloc, d, &s, out)?
    } else {
        true
    };
    if joins { join(d, s) } else { Ok(()) }
}

fn perform_all(
    alloc: Global,
    d: &mut Dictionary,
    statements: Stmts,
    out: &mut Vec<u8>,
) -> Result<(), AllocError>
    requires { AreLawful (plain_stmts statements) }
{
    'each: for s in statements.into_vec() {
        perform(alloc, d, s, out)?;
    }
    Ok(())
}

/// Performs the statements of a text, and writes what their checks answer with a bar behind each.
pub fn read(
    alloc: Global,
    d: &mut Dictionary,
    text: &[u8],
    out: &mut Vec<u8>,
) -> Result<(), AllocError> {
    match statements_of(alloc, text)? {
        Some(statements) => perform_all(alloc, d, statements, out),
        None => {
            out.extend_from_slice(b"no script")?;
            Ok(())
        }
    }
}
