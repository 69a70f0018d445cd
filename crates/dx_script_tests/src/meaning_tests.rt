//! What is seen at once behind a script: the constant that a name means, and that an assignment has no effect.

use crate::effects::is_first_silent;
use crate::session::taken;
use crate::shown::write_const;
use dx_macros::Dictionary;
use std::alloc::{AllocError, Global};
use std::test::Fail;

/// Writes the constant that a name means, if that is seen at once.
fn put_constant(
    alloc: Global,
    d: &Dictionary,
    name: &str,
    out: &mut Vec<u8>,
) -> Result<(), AllocError> {
    match d.constant(name.as_bytes()) {
        Some(c) => write_const(alloc, c, out),
        None => out.extend_from_slice(b"none"),
    }
}

/// Behind the definitions of a text this is the constant that a name means.
fn constant_is(alloc: Global, text: &str, name: &str, want: &str) -> Result<bool, AllocError> {
    let Some(d) = taken(alloc, text.as_bytes())? else {
        return Ok(false);
    };
    let mut out = Vec::new(alloc);
    put_constant(alloc, &d, name, &mut out)?;
    Ok(out.as_slice() == want.as_bytes())
}

/// Definitions, a name, and the constant that it means behind them.
const CONSTANTS: [(&str, &str, &str); 16] = [
    ("x = 1; y = x;", "x", "1"),
    ("x = 1; y = x;", "y", "1"),
    ("x = 1; y = x; z = y;", "z", "1"),
    ("x = \"a\"; y = x;", "y", "\"a\""),
    ("x = NULL; y = x;", "y", "NULL"),
    // A later definition of x changes what x means, and not what y means.
    ("x = 1; y = x; x = 2;", "x", "2"),
    ("x = 1; y = x; x = 2;", "y", "1"),
    ("x = 1; y = x; x = Compute(\"2\");", "y", "1"),
    ("x = 1; y = x; x = 2; y = x;", "y", "2"),
    // A call, and a name that leads to one.
    ("x = Compute(\"1\"); y = x;", "x", "none"),
    ("x = Compute(\"1\"); y = x;", "y", "none"),
    ("x = 1; y = x; y = Compute(\"1\");", "y", "none"),
    ("macro m() -> (r) { r = 1; } x = m(); y = x;", "y", "none"),
    (
        "macro m() -> (r, s) { r = 1; s = 2; } x = 1; x, y = m();",
        "x",
        "none",
    ),
    // What isn't defined before.
    ("x = 1;", "y", "none"),
    ("y = x; x = 1;", "y", "none"),
];

#[test]
fn names_that_mean_constants(rt: HostRuntime) -> Result<(), Fail> {
    for (text, name, want) in &CONSTANTS {
        if !constant_is(rt.alloc(), text, name, want)? {
            return Err(Fail::from(*text));
        }
    }
    Ok(())
}

/// Behind the macros and definitions of a text a statement is silent, or may have an effect.
fn silent_is(alloc: Global, text: &str, statement: &str, want: bool) -> Result<bool, AllocError> {
    match taken(alloc, text.as_bytes())? {
        Some(d) => Ok(is_first_silent(alloc, &d, statement.as_bytes())? == Some(want)),
        None => Ok(false),
    }
}

const ECHOES: &str = "macro e(a) -> (r) { Echo(a); r = a; } x = e(1);";

const QUIET: &str = "macro q(a) -> (r) { r = Compute(\"1\", a); }";

/// Macros and definitions, a statement, and whether it is an assignment that can have no effect.
const STATEMENTS: [(&str, &str, bool); 8] = [
    ("", "y = 1;", true),
    ("", "y = Compute(\"1\");", true),
    (QUIET, "y = q(Compute(\"2\"));", true),
    // What is read has no effects, and what is called has its own.
    (ECHOES, "y = x;", true),
    (ECHOES, "y = e(1);", false),
    (ECHOES, "y = Compute(\"$0\", e(1));", false),
    ("", "y = Compute(\"1\", Echo(1));", false),
    ("", "Echo(1);", false),
];

#[test]
fn assignments_without_an_effect(rt: HostRuntime) -> Result<(), Fail> {
    for (text, statement, want) in &STATEMENTS {
        if !silent_is(rt.alloc(), text, statement, *want)? {
            return Err(Fail::from(*statement));
        }
    }
    Ok(())
}
