//! Whether a statement can have no effect, as is seen without what its names mean.
ghost use Rattle.std.specs.Prelude.{◌≡◌, [], ℕ, true};
ghost use Rattle.dx_base.specs.declared.function.Function.{Function};
ghost use Rattle.dx_ast.specs.Plain.{plain_expr, plain_call, plain_args, plain_stmt, plain_stmts};
ghost use Rattle.dx_macros.specs.Dictionary.{top_text, callee};
ghost use Rattle.dx_macros.specs.Expansion.{is_effect};
ghost use Rattle.dx_expansion.specs.Driving.{effects_in};
ghost use Rattle.dx_texts.specs.Expanding.{dictionary_in};
ghost use Rattle.dx_expansion.specs.Silence.{IsSilentExpr, IsSilentCall, AreSilentArgs, IsSilentCallee, IsSilentStatement, IsSilentBody};

use dx_ast::{Arg, Call, Expr, Stmt};
use dx_base::Function;
use dx_macros::{Callee, MAX_STEPS, called};
use dx_texts::World;

fn is_effect(f: Function) -> bool
    ensures { result ≡ is_effect f }
{
    match f {
        Function::Effect(_) => true,
        _ => false,
    }
}

#[cycle(silent)]
fn is_silent_expr(w: &World<'_>, left: u8, e: &Expr) -> bool
    ensures { result ≡ true → IsSilentExpr (dictionary_in w.now).macros left (plain_expr e.now) }
{
    match e {
        Expr::Call(c) => is_silent_call(w, left, c.get()),
        _ => true,
    }
}

#[cycle(silent)]
fn is_silent_call(w: &World<'_>, left: u8, c: &Call) -> bool
    ensures { result ≡ true → IsSilentCall (dictionary_in w.now).macros left (plain_call c.now) }
{
    is_silent_callee(w, left, c.name.bytes()) && are_silent_args(w, left, c.args.as_slice())
}

#[cycle(silent)]
fn are_silent_args(w: &World<'_>, left: u8, args: &[Arg]) -> bool
    ensures { result ≡ true → AreSilentArgs (dictionary_in w.now).macros left (plain_args args.now) }
{
    for arg in args {
        if !is_silent_expr(w, left, &arg.value) {
            return false;
        }
    }
    true
}

/// What a name calls, beside the arguments of the call. A macro that no step is left for comes to nothing.
#[cycle(silent)]
fn is_silent_callee(w: &World<'_>, left: u8, name: &[u8]) -> bool
    ensures { result ≡ true → IsSilentCallee (dictionary_in w.now).macros left (callee (dictionary_in w.now).macros name.now) }
{
    match called(w.dictionary, name) {
        Callee::Unknown => true,
        Callee::Function(f) => !is_effect(f),
        Callee::Macro(m) => left == 0 || is_silent_body(w, left - 1, m.body.as_slice()),
    }
}

#[cycle(silent)]
fn is_silent_body(w: &World<'_>, left: u8, body: &[Stmt]) -> bool
    ensures { result ≡ true → IsSilentBody (dictionary_in w.now).macros left (plain_stmts body.now) }
{
    for s in body {
        if !is_silent_statement(w, left, s) {
            return false;
        }
    }
    true
}

#[cycle(silent)]
fn is_silent_statement(w: &World<'_>, left: u8, s: &Stmt) -> bool
    ensures { result ≡ true → IsSilentStatement (dictionary_in w.now).macros left (plain_stmt s.now) }
{
    match s {
        Stmt::Call(c) => is_silent_call(w, left, c),
        Stmt::Assign(a) => is_silent_expr(w, left, &a.value),
        _ => false,
    }
}

/// Whether a statement is an assignment without an effect, whatever its names mean.
pub fn is_silent(w: &World<'_>, s: &Stmt) -> bool
    ensures { (position : ℕ) → result ≡ true → effects_in (top_text (plain_stmt s.now)) w.now position ≡ [] }
{
    match s {
        Stmt::Assign(a) => is_silent_expr(w, MAX_STEPS, &a.value),
        _ => false,
    }
}
