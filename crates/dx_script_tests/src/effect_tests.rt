//! Tables of scripts with the effects of their statements, and the sizes of graphs.

use crate::effects::{count_nodes, read};
use crate::session::taken;
use crate::texts::{put, put_numbered, put_repeated};
use dx_macros::Dictionary;
use std::alloc::{AllocError, Global};
use std::test::Fail;

/// Writes the effects of a script's statements, a line for each.
fn effects(alloc: Global, text: &[u8], out: &mut Vec<u8>) -> Result<(), AllocError> {
    let mut d = Dictionary::new(alloc);
    read(alloc, &mut d, text, out)
}

/// These are the effects of a script's statements.
fn effects_are(alloc: Global, text: &[u8], want: &[u8]) -> Result<bool, AllocError> {
    let mut out = Vec::new(alloc);
    effects(alloc, text, &mut out)?;
    Ok(out.as_slice() == want)
}

/// The first script that has other effects than these.
fn first_miss<'a>(
    alloc: Global,
    cases: &[(&'a str, &'a str)],
) -> Result<Option<&'a str>, AllocError> {
    for case in cases {
        if !effects_are(alloc, case.0.as_bytes(), case.1.as_bytes())? {
            return Ok(Some(case.0));
        }
    }
    Ok(None)
}

const INPUTS: [(&str, &str); 7] = [
    // By place, by name, and omitted.
    (
        "Print(1, \"r\"); Print(component = \"c\", object = 1);",
        "Print:1 in  cache 1: 1 \"r\" NULL\nPrint:1 in  cache 1: 1 NULL \"c\"\n",
    ),
    (
        "Echo(); Echo(1, 2, 3);",
        "Echo:1 in  cache 1: NULL\nEcho:1 in  cache 1: 1 2 3\n",
    ),
    // Parameters of macros, their defaults, and several results.
    (
        "macro m(a, b = 2) -> (r, s) { r = b; s = a; } x, y = m(7); Echo(x, y); Echo(m(b = 9, a = 1));",
        "Echo:1 in  cache 1: 2 7\nEcho:1 in  cache 1: 9\n",
    ),
    (
        "macro m(a) -> (r) { r = a; } Echo(m());",
        "Echo:1 in  cache 1: NULL\n",
    ),
    // What has no results and what has no meaning is NULL.
    (
        "macro m() { } Echo(m(), u);",
        "Echo:1 in  cache 1: NULL NULL\n",
    ),
    (
        "Echo(@startframe, @endframe, @deltaframe, @nextframe, @frame);",
        "Echo:1 in  cache 1: 1 7 3 5 4\n",
    ),
    ("Echo({1 2}) [cache: 0];", "Echo:1 in  cache 0: list\n"),
];

#[test]
fn inputs(rt: HostRuntime) -> Result<(), Fail> {
    assert!(rt; first_miss(rt.alloc(), &INPUTS)?.is_none());
    Ok(())
}

const WHAT_NAMES_MEAN: [(&str, &str); 5] = [
    // The names in a definition mean what they meant where it was made, whatever is assigned to them later.
    (
        "p = 3; q = p; p = 100; Echo(q, p);",
        "Echo:1 in  cache 1: 3 100\n",
    ),
    // It is read again with the macros of the moment.
    (
        "macro m() -> (r) { r = 1; } y = m(); Echo(y); macro m() -> (r) { r = 2; } Echo(y);",
        "Echo:1 in  cache 1: 1\nEcho:1 in  cache 1: 2\n",
    ),
    // In a body: what it assigned, the parameter, and the name at the place of the statement.
    (
        "t = 4; macro m(a) { Echo(t, a); a = 7; t = 8; Echo(t, a); } m(6); t = 5; m(6);",
        "m:1/Echo:1 in m:1 cache 1: 4 6\nm:1/Echo:2 in m:1 cache 1: 8 7\nm:1/Echo:1 in m:1 cache 1: 5 6\nm:1/Echo:2 in m:1 cache 1: 8 7\n",
    ),
    // The effects of a definition that is only read are not performed.
    (
        "macro m() -> (r) { Echo(\"made\"); r = 5; } y = m(); Echo(y);",
        "y/m:1/Echo:1 in m:1 cache 1: \"made\"\nEcho:1 in  cache 1: 5\n",
    ),
    // A macro hides a function of its name.
    (
        "macro Echo(a) { Print(a); } Echo(1);",
        "Echo:1/Print:1 in Echo:1 cache 1: 1 NULL NULL\n",
    ),
];

#[test]
fn what_names_mean(rt: HostRuntime) -> Result<(), Fail> {
    assert!(rt; first_miss(rt.alloc(), &WHAT_NAMES_MEAN)?.is_none());
    Ok(())
}

const ORDER_AND_SITES: [(&str, &str); 5] = [
    // Arguments come before their call, and k counts by the place of the name in the text.
    (
        "Echo(Echo(1), Echo(2));",
        "Echo:2 in  cache 1: 1\nEcho:3 in  cache 1: 2\nEcho:1 in  cache 1: NULL NULL\n",
    ),
    // The order is that of the text, not of the parameters.
    (
        "macro e(a) -> (r) { Echo(a); r = a; } Print(component = e(3), object = e(1));",
        "e:1/Echo:1 in e:1 cache 1: 3\ne:2/Echo:1 in e:2 cache 1: 1\nPrint:1 in  cache 1: 1 NULL 3\n",
    ),
    (
        "macro inner(a) { Echo(a) [cache: 2]; Echo(a); } macro outer() -> (r) { inner(1); r = 2; inner(r); } y = outer();",
        "y/outer:1/inner:1/Echo:1 in outer:1/inner:1 cache 2: 1\ny/outer:1/inner:1/Echo:2 in outer:1/inner:1 cache 1: 1\ny/outer:1/inner:2/Echo:1 in outer:1/inner:2 cache 2: 2\ny/outer:1/inner:2/Echo:2 in outer:1/inner:2 cache 1: 2\n",
    ),
    // What is assigned may have effects in its arguments alone, or none.
    (
        "macro e(a) -> (r) { Echo(a); r = a; } y = Compute(\"$0\", e(3));",
        "y/e:1/Echo:1 in e:1 cache 1: 3\n",
    ),
    (
        "macro q(a) -> (r) { r = Compute(\"1\", a); } y = q(Compute(\"2\"));",
        "",
    ),
];

#[test]
fn order_and_sites(rt: HostRuntime) -> Result<(), Fail> {
    assert!(rt; first_miss(rt.alloc(), &ORDER_AND_SITES)?.is_none());
    Ok(())
}

// ---- sizes of graphs

/// Behind a script whose macros and definitions join unchecked, the graph of a statement has so many nodes.
fn nodes_are(alloc: Global, before: &[u8], text: &str, want: u32) -> Result<bool, AllocError> {
    match taken(alloc, before)? {
        Some(d) => Ok(count_nodes(alloc, &d, text.as_bytes())? == want),
        None => Ok(false),
    }
}

#[test]
fn a_definition_that_is_read_twice_has_its_nodes_once(rt: HostRuntime) -> Result<(), Fail> {
    let alloc = rt.alloc();
    let before =
        b"macro m() -> (r, s) { Echo(1); r = 2; s = 3; } x, y = m(); z = x; v = m();".as_slice();
    assert!(rt; nodes_are(alloc, before, "Echo(x, y, z, x);", 2)?);
    assert!(rt; nodes_are(alloc, before, "Echo(m(), m());", 3)?);
    assert!(rt; nodes_are(alloc, before, "Echo(x, v);", 3)?);
    Ok(())
}

/// `x0` to the last are calls of `one`, and a macro `main` echoes each.
fn put_echoes(alloc: Global, text: &mut Vec<u8>, count: usize) -> Result<(), AllocError> {
    put(text, "macro one() -> (r) { r = 1; } ")?;
    for i in 0..count {
        put_numbered(alloc, text, "x", i, " = one(); ")?;
    }
    put(text, "macro main() { ")?;
    for i in 0..count {
        put_numbered(alloc, text, "Echo(x", i, "); ")?;
    }
    put(text, "} ")
}

#[test]
fn a_text_that_reads_4000_definitions(rt: HostRuntime) -> Result<(), Fail> {
    let alloc = rt.alloc();
    let mut text = Vec::new(alloc);
    put_echoes(alloc, &mut text, 4000)?;
    assert!(rt; nodes_are(alloc, &text, "main();", 4000)?);
    Ok(())
}

// ---- long scripts

/// Macros `m1` to `m64`, each of which calls the next, and the last `Echo`; and then a call of the first.
fn put_sixty_four(alloc: Global, text: &mut Vec<u8>) -> Result<(), AllocError> {
    put(text, "macro m64() { Echo(\"x\"); } ")?;
    for i in 1..64 {
        put_numbered(alloc, text, "macro m", i, "() { m")?;
        put_numbered(alloc, text, "", i + 1, "(); } ")?;
    }
    put(text, "m1();")
}

/// The steps `m1:1/` to `m63:1/`, and an end.
fn put_steps(alloc: Global, text: &mut Vec<u8>, end: &str) -> Result<(), AllocError> {
    for i in 1..64 {
        put_numbered(alloc, text, "m", i, ":1/")?;
    }
    put(text, end)
}

#[test]
fn sixty_four_steps(rt: HostRuntime) -> Result<(), Fail> {
    let alloc = rt.alloc();
    let mut text = Vec::new(alloc);
    put_sixty_four(alloc, &mut text)?;
    let mut want = Vec::new(alloc);
    put_steps(alloc, &mut want, "m64:1/Echo:1 in ")?;
    put_steps(alloc, &mut want, "m64:1 cache 1: \"x\"\n")?;
    assert!(rt; effects_are(alloc, &text, &want)?);
    Ok(())
}

/// Behind a script whose macros and definitions join unchecked, these are the effects of another.
fn effects_behind_are(
    alloc: Global,
    before: &[u8],
    text: &str,
    want: &str,
) -> Result<bool, AllocError> {
    let Some(mut d) = taken(alloc, before)? else {
        return Ok(false);
    };
    let mut out = Vec::new(alloc);
    read(alloc, &mut d, text.as_bytes(), &mut out)?;
    Ok(out.as_slice() == want.as_bytes())
}

/// `x0` is 5, and each of so many further definitions passes the one before through a macro.
fn put_chain(alloc: Global, text: &mut Vec<u8>, count: usize) -> Result<(), AllocError> {
    put(text, "macro m(a) -> (r) { r = a; } x0 = 5; ")?;
    for i in 0..count {
        put_numbered(alloc, text, "x", i + 1, " = m(x")?;
        put_numbered(alloc, text, "", i, "); ")?;
    }
    Ok(())
}

#[test]
fn a_chain_of_20000_definitions(rt: HostRuntime) -> Result<(), Fail> {
    let alloc = rt.alloc();
    let mut text = Vec::new(alloc);
    put_chain(alloc, &mut text, 20000)?;
    assert!(rt;
        effects_behind_are(
            alloc,
            &text,
            "Echo(x20000, x0);",
            "Echo:1 in  cache 1: 5 5\n"
        )?
    );
    Ok(())
}

#[test]
fn a_name_that_is_defined_again_4000_times(rt: HostRuntime) -> Result<(), Fail> {
    let alloc = rt.alloc();
    let mut text = Vec::new(alloc);
    put_repeated(
        &mut text,
        "macro m(a) -> (r) { r = a; } first = 1; x = 5; ",
        "x = m(x); ",
        4000,
        "y = x; x = 6; first = x;",
    )?;
    assert!(rt;
        effects_behind_are(
            alloc,
            &text,
            "Echo(x, y, first);",
            "Echo:1 in  cache 1: 6 5 6\n"
        )?
    );
    Ok(())
}

/// Macros `m0` to `m62`, each of which calls the next one within 63 calls of `f`, and then `Echo` of the first within 62.
fn put_wrapped(alloc: Global, text: &mut Vec<u8>) -> Result<(), AllocError> {
    put(
        text,
        "macro f(a) -> (r) { r = a; } macro m63() -> (r) { Echo(1); r = 5; } ",
    )?;
    for i in 0..63 {
        put_numbered(alloc, text, "macro m", i, "() -> (r) { r = ")?;
        put_repeated(text, "", "f(", 63, "m")?;
        put_numbered(alloc, text, "", i + 1, "()")?;
        put_repeated(text, "", ")", 63, "; } ")?;
    }
    put_repeated(text, "Echo(", "f(", 62, "m0()")?;
    put_repeated(text, "", ")", 62, ");")
}

#[test]
fn calls_in_calls_in_macros_in_macros(rt: HostRuntime) -> Result<(), Fail> {
    let alloc = rt.alloc();
    let mut text = Vec::new(alloc);
    put_wrapped(alloc, &mut text)?;
    let mut out = Vec::new(alloc);
    effects(alloc, &text, &mut out)?;
    assert!(rt; out.as_slice().ends_with(b"Echo:1 in  cache 1: 5\n"));
    Ok(())
}
