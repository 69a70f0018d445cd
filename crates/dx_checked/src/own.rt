//! The calls of a text by itself: how many there are, where none has a fault and whatever the names mean.
ghost use Rattle.std.specs.Prelude.{◌≡◌, ◌≤◌, ◌+◌, IfSome};
ghost use Rattle.dx_ast.specs.Limits.{max_walk_calls};
ghost use Rattle.dx_ast.specs.Plain.{plain_expr, plain_call, plain_args, plain_stmt, plain_stmts};
ghost use Rattle.dx_definitions.specs.Index.{text_of};
ghost use Rattle.dx_macros.specs.Dictionary as names;
ghost use Rattle.dx_macros.specs.DictionaryView.{dictionary_of};
ghost use Rattle.dx_signatures.specs.CalleeView.{plain_callee};
ghost use Rattle.dx_checked.specs.Own.{Reaches, ExprFits, CallFits, ArgsFit, CalleeFits, StatementFits, BodyFits};
ghost use Rattle.dx_checked.specs.Known.{DefinitionFits};

use dx_ast::{Arg, Assign, Call, Expr, Stmt};
use dx_macros::{Callee, Dictionary, MAX_STEPS, called};
use dx_signatures::fault_of_call;
use std::alloc::Global;

// Each of the following takes the number of calls before, and answers that with the calls here. It answers None where one of
// them has a fault, where there are more than a walk may have, where no look is left, and where memory ran out.

/// A look at something, of so many that are left; None where none is.
pub(crate) fn look(looks: &mut u64) -> Option<()> {
    *looks = looks.checked_sub(1)?;
    Some(())
}

#[cycle(own)]
fn expr_calls(
    alloc: Global,
    d: &Dictionary,
    left: u8,
    e: &Expr,
    targets: usize,
    calls: u32,
    looks: &mut u64,
) -> Option<u32>
    requires { calls ≤ max_walk_calls }
    ensures { IfSome result (λ n. Reaches calls n (ExprFits (dictionary_of d.now).macros left targets (plain_expr e.now))) }
{
    match e {
        Expr::Call(c) => call_calls(alloc, d, left, c.get(), targets, calls, looks),
        Expr::Constant(_) => Some(calls),
        Expr::Name(_) => Some(calls),
        Expr::Frame(_) => Some(calls),
    }
}

#[cycle(own)]
fn call_calls(
    alloc: Global,
    d: &Dictionary,
    left: u8,
    c: &Call,
    targets: usize,
    calls: u32,
    looks: &mut u64,
) -> Option<u32>
    requires { calls ≤ max_walk_calls }
    ensures { IfSome result (λ n. Reaches calls n (CallFits (dictionary_of d.now).macros left targets (plain_call c.now))) }
{
    look(looks)?;
    let callee = called(d, c.name.bytes());
    let args = c.args.as_slice();
    match fault_of_call(alloc, calls, callee, left, args, targets) {
        Ok(None) => {
            let calls = args_calls(alloc, d, left, args, calls + 1, looks)?;
            callee_calls(alloc, d, left, c.name.bytes(), callee, calls, looks)
        }
        _ => None,
    }
}

#[cycle(own)]
fn args_calls(
    alloc: Global,
    d: &Dictionary,
    left: u8,
    args: &[Arg],
    before: u32,
    looks: &mut u64,
) -> Option<u32>
    requires { before ≤ max_walk_calls }
    ensures { IfSome result (λ n. Reaches before n (ArgsFit (dictionary_of d.now).macros left (plain_args args.now))) }
{
    let mut calls = before;
    for arg in args {
        calls = expr_calls(alloc, d, left, &arg.value, 0, calls, looks)?;
    }
    Some(calls)
}

// What is called by this name, beside the call itself and its arguments.
#[cycle(own)]
fn callee_calls(
    alloc: Global,
    d: &Dictionary,
    left: u8,
    name: &[u8],
    callee: Callee<'_>,
    calls: u32,
    looks: &mut u64,
) -> Option<u32>
    requires named { plain_callee callee ≡ names.callee (dictionary_of d.now).macros name.now }
    requires bound { calls ≤ max_walk_calls }
    ensures { IfSome result (λ n. Reaches calls n (CalleeFits (dictionary_of d.now).macros left (names.callee (dictionary_of d.now).macros name.now))) }
{
    match callee {
        Callee::Unknown => Some(calls),
        Callee::Function(_) => Some(calls),
        Callee::Macro(m) => {
            if left == 0 {
                return Some(calls);
            }
            body_calls(alloc, d, left - 1, m.body.as_slice(), calls, looks)
        }
    }
}

#[cycle(own)]
fn body_calls(
    alloc: Global,
    d: &Dictionary,
    left: u8,
    body: &[Stmt],
    before: u32,
    looks: &mut u64,
) -> Option<u32>
    requires { before ≤ max_walk_calls }
    ensures { IfSome result (λ n. Reaches before n (BodyFits (dictionary_of d.now).macros left (plain_stmts body.now))) }
{
    let mut calls = before;
    for s in body {
        look(looks)?;
        calls = statement_calls(alloc, d, left, s, calls, looks)?;
    }
    Some(calls)
}

#[cycle(own)]
fn statement_calls(
    alloc: Global,
    d: &Dictionary,
    left: u8,
    s: &Stmt,
    calls: u32,
    looks: &mut u64,
) -> Option<u32>
    requires { calls ≤ max_walk_calls }
    ensures { IfSome result (λ n. Reaches calls n (StatementFits (dictionary_of d.now).macros left (plain_stmt s.now))) }
{
    match s {
        Stmt::Call(c) => call_calls(alloc, d, left, c, 0, calls, looks),
        Stmt::Assign(a) => expr_calls(alloc, d, left, &a.value, a.targets.len(), calls, looks),
        _ => None,
    }
}

/// The calls of an assignment at the top level, beside those of what its names mean, by no more looks than are left: one for
/// each call and for each statement of a macro's body that is entered.
pub(crate) fn definition_calls(
    alloc: Global,
    d: &Dictionary,
    a: &Assign,
    calls: u32,
    looks: &mut u64,
) -> Option<u32>
    requires { calls ≤ max_walk_calls }
    ensures { IfSome result (λ n. Reaches calls n (DefinitionFits (dictionary_of d.now).macros (text_of a.now))) }
{
    expr_calls(alloc, d, MAX_STEPS, &a.value, a.targets.len(), calls, looks)
}
