//! Tables of scripts with the answers of the checks, and of what the dictionary has behind them.

use crate::faults::read;
use crate::session::taken;
use crate::texts::{put, put_number, put_repeated};
use dx_macros::Dictionary;
use std::alloc::{AllocError, Global};
use std::test::Fail;

/// Writes what the checks of a script's statements answer, with a bar behind each.
fn answers(alloc: Global, text: &[u8], out: &mut Vec<u8>) -> Result<(), AllocError> {
    let mut d = Dictionary::new(alloc);
    read(alloc, &mut d, text, out)
}

/// These are the answers to a script.
fn answers_are(alloc: Global, text: &str, want: &str) -> Result<bool, AllocError> {
    let mut out = Vec::new(alloc);
    answers(alloc, text.as_bytes(), &mut out)?;
    Ok(out.as_slice() == want.as_bytes())
}

/// The first script that has other answers than these.
fn first_miss<'a>(
    alloc: Global,
    cases: &[(&'a str, &'a str)],
) -> Result<Option<&'a str>, AllocError> {
    for case in cases {
        if !answers_are(alloc, case.0, case.1)? {
            return Ok(Some(case.0));
        }
    }
    Ok(None)
}

// ---- what the dictionary has

/// Writes how many parameters, results and statements a macro has.
fn put_macro(
    alloc: Global,
    d: &Dictionary,
    name: &str,
    out: &mut Vec<u8>,
) -> Result<(), AllocError> {
    put(out, name)?;
    let Some(m) = d.macro_of(name.as_bytes()) else {
        return put(out, " none;");
    };
    for number in [m.params.len(), m.results.len(), m.body.len()] {
        put(out, " ")?;
        put_number(alloc, out, number)?;
    }
    put(out, ";")
}

/// Writes the first target of each definition.
fn put_targets(d: &Dictionary, out: &mut Vec<u8>) -> Result<(), AllocError> {
    for i in 0..d.len() {
        if let Some(target) = d.definition(i).targets.as_slice().first() {
            out.extend_from_slice(target.bytes())?;
        }
        put(out, " ")?;
    }
    put(out, ";")
}

/// Writes the last definition of a name before each place, from the first place to the end.
fn put_lasts(
    alloc: Global,
    d: &Dictionary,
    name: &str,
    out: &mut Vec<u8>,
) -> Result<(), AllocError> {
    put(out, name)?;
    for place in 0..=d.len() {
        put(out, " ")?;
        match d.last_before(place, name.as_bytes()) {
            Some(last) => put_number(alloc, out, last)?,
            None => put(out, "-")?,
        }
    }
    put(out, ";")
}

fn put_parts(alloc: Global, d: &Dictionary, out: &mut Vec<u8>) -> Result<(), AllocError> {
    put_macro(alloc, d, "m", out)?;
    put_macro(alloc, d, "y", out)?;
    put_targets(d, out)?;
    put_lasts(alloc, d, "p", out)?;
    put_lasts(alloc, d, "q", out)
}

/// Writes what the dictionary has when all macros and definitions of a script have joined.
fn parts_after(alloc: Global, text: &str, out: &mut Vec<u8>) -> Result<(), AllocError> {
    match taken(alloc, text.as_bytes())? {
        Some(d) => put_parts(alloc, &d, out),
        None => put(out, "no script"),
    }
}

fn parts_are(alloc: Global, text: &str, want: &str) -> Result<bool, AllocError> {
    let mut out = Vec::new(alloc);
    parts_after(alloc, text, &mut out)?;
    Ok(out.as_slice() == want.as_bytes())
}

#[test]
fn what_the_dictionary_has(rt: HostRuntime) -> Result<(), Fail> {
    let text = "macro m(a) -> (r) { r = a; } p = 3; y = m(5); p = 100;";
    assert!(rt;
        parts_are(
            rt.alloc(),
            text,
            "m 1 1 1;y none;p y p ;p - 0 0 2;q - - - -;"
        )?
    );
    let redefined = "macro m(a) -> (r) { r = a; } p = 3; y = m(5); p = 100;
        macro m(a, b) -> (r, s) { r = a; s = b; Echo(a); } p, q = m(1, 2);";
    assert!(rt;
        parts_are(
            rt.alloc(),
            redefined,
            "m 2 2 3;y none;p y p p ;p - 0 0 2 3;q - - - - 3;"
        )?
    );
    Ok(())
}

// ---- the fault of one call

const FAULTS_OF_ONE_CALL: [(&str, &str); 13] = [
    (
        "macro m(a, b = 2) -> (r, s) { r = b; s = a; } x, y = m(7); Echo(x, y); Echo(m(b = 9, a = 1));",
        "ok|ok|ok|",
    ),
    (
        "macro m(a, b = 2) -> (r, s) { r = b; s = a; } Echo(m(1, 2, 3)); Echo(m(c = 1)); z, w = Echo(\"q\"); Echo(z);",
        "m:1: TooManyArguments|m:1: NoSuchParameter|z/Echo:1: TooManyResults|ok|",
    ),
    (
        "Foo(); echo(1); x = Foo();",
        "Foo:1: UnknownFunction|echo:1: UnknownFunction|x/Foo:1: UnknownFunction|",
    ),
    // An earlier fault of the list comes first.
    ("x, y = Foo(1, a = 2);", "x/Foo:1: UnknownFunction|"),
    (
        "macro m(a) -> (r) { r = a; } m(1, a = 2); x, y = m(1, b = 2);",
        "m:1: TooManyArguments|x/m:1: TooManyArguments|",
    ),
    (
        "macro m(a, b) -> (r) { r = a; } m(1, a = 2); x, y = m(1, c = 2);",
        "m:1: NoSuchParameter|x/m:1: NoSuchParameter|",
    ),
    (
        "macro m(a, b) -> (r) { r = a; } m(1, b = 2); x, y = m(b = 2, a = 1);",
        "ok|x/m:1: TooManyResults|",
    ),
    // Functions.
    (
        "Print(1, component = \"c\", options = \"d\"); Print(); Print(1, 2, 3, 4);",
        "ok|ok|Print:1: TooManyArguments|",
    ),
    (
        "Print(object = 1, object = 2); Print(1, object = 2); Print(x = 1);",
        "Print:1: NoSuchParameter|Print:1: NoSuchParameter|Print:1: NoSuchParameter|",
    ),
    (
        "Echo(1, string = 2); Echo(string = 1); x = Echo(1);",
        "Echo:1: NoSuchParameter|ok|x/Echo:1: TooManyResults|",
    ),
    // A macro hides a function of its name.
    (
        "Echo(1, 2); macro Echo(a) -> (r) { r = a; } Echo(1, 2); x = Echo(1);",
        "ok|Echo:1: TooManyArguments|ok|",
    ),
    // A sequence call is checked as a call.
    (
        "macro f() {} sequence f(); sequence f(1);",
        "ok|f:1: TooManyArguments|",
    ),
    // What has a fault doesn't join.
    (
        "macro f() -> (r) { r = Foo(); } x = 1; x = f(); Echo(x);",
        "x/f:1/Foo:1: UnknownFunction|ok|",
    ),
];

#[test]
fn faults_of_one_call(rt: HostRuntime) -> Result<(), Fail> {
    assert!(rt; first_miss(rt.alloc(), &FAULTS_OF_ONE_CALL)?.is_none());
    Ok(())
}

/// These are the answers to a call of Echo with an argument and so many more.
fn further_are(alloc: Global, count: u32, want: &str) -> Result<bool, AllocError> {
    let mut text = Vec::new(alloc);
    put_repeated(&mut text, "Echo(1", ", 2", count, ");")?;
    let mut out = Vec::new(alloc);
    answers(alloc, &text, &mut out)?;
    Ok(out.as_slice() == want.as_bytes())
}

#[test]
fn further_arguments(rt: HostRuntime) -> Result<(), Fail> {
    assert!(rt; further_are(rt.alloc(), 63, "ok|")?);
    assert!(rt; further_are(rt.alloc(), 64, "Echo:1: TooManyArguments|")?);
    Ok(())
}

// ---- the order of a walk, and sites

const FIRST_FAULTS: [(&str, &str); 7] = [
    // A call is checked before its arguments, these in order, and then a macro's body.
    (
        "Print(1, 2, 3, Foo()); Echo(Foo(), Bar()); Echo(1, Bar());",
        "Print:1: TooManyArguments|Foo:1: UnknownFunction|Bar:1: UnknownFunction|",
    ),
    (
        "macro m(a) { Bar(); Foo(); } m(Foo()); m(1);",
        "Foo:1: UnknownFunction|m:1/Bar:1: UnknownFunction|",
    ),
    // The calls of a name are counted in one text, by the place of the name.
    (
        "macro m(a) -> (r) { r = a; } Echo(m(1), m(1, 2)); Echo(m(m(1, 2))); m(Echo(1), 2);",
        "m:2: TooManyArguments|m:2: TooManyArguments|m:1: TooManyArguments|",
    ),
    (
        "macro m(a) -> (r) { r = a; } macro b() { x = m(1); Echo(x); Echo(m(1, 2)); } m(1); b();",
        "ok|b:1/m:2: TooManyArguments|",
    ),
    (
        "macro m(a) -> (r) { r = a; } macro b(c) -> (r) { r = m(c, 2); } x, y = m(b(1), 2); x = m(b(1));",
        "x/m:1: TooManyArguments|x/b:1/m:1: TooManyArguments|",
    ),
    (
        "macro e() { Executive(f(2)); f(1); } macro f() {} Executive(Foo()); e();",
        "e:1/f:1: TooManyArguments|",
    ),
    // An argument is no deeper than its call.
    (
        "macro m(a) -> (r) { r = Foo(a); } macro n(a) {} n(m(1));",
        "m:1/Foo:1: UnknownFunction|",
    ),
];

#[test]
fn the_first_fault_and_its_site(rt: HostRuntime) -> Result<(), Fail> {
    assert!(rt; first_miss(rt.alloc(), &FIRST_FAULTS)?.is_none());
    Ok(())
}

// ---- where names lead

/// `p` is defined by `a`, and `y` and `z` read it; then `p` is defined by `b`. The scripts behind give both macros new
/// bodies.
const TWO_PLACES: &str =
    "macro a() -> (r) { r = 1; } macro b() -> (r) { r = 1; } macro reads() -> (r) { r = p; }
    p = a(); y = p; z = reads(); p = b(); ";

/// The answers to scripts behind the assignments, of which three are executed.
const BEHIND: [(&str, &str); 13] = [
    ("Echo(p, y, z);", "ok|ok|ok|ok|"),
    // The names in a definition mean what they meant where it was made; its macros are read as they are now.
    (
        "macro b() -> (r) { r = Foo(); } Echo(y); Echo(z); Echo(p); Echo(reads());",
        "ok|ok|ok|ok|ok|p/b:1/Foo:1: UnknownFunction|p/b:1/Foo:1: UnknownFunction|",
    ),
    (
        "macro a() -> (r) { r = Foo(); } Echo(y); Echo(z); Echo(p); Echo(reads());",
        "ok|ok|ok|p/a:1/Foo:1: UnknownFunction|p/a:1/Foo:1: UnknownFunction|ok|ok|",
    ),
    (
        "macro a(x) {} Echo(y); macro a() {} Echo(p, y);",
        "ok|ok|ok|p/a:1: TooManyResults|p/a:1: TooManyResults|",
    ),
    (
        "macro b() -> (r) { r = Foo(); } q = p; Echo(q); p = a(); Echo(q); Echo(p);",
        "ok|ok|ok|p/b:1/Foo:1: UnknownFunction|ok|p/b:1/Foo:1: UnknownFunction|ok|",
    ),
    // In a body a name means what was assigned to it, or a parameter, or what it means at the top level.
    (
        "macro b() -> (r) { r = Foo(); } macro m(p) -> (r) { r = p; } m(1);",
        "ok|ok|ok|ok|",
    ),
    (
        "macro b() -> (r) { r = Foo(); } macro m() -> (r) { p = 1; r = p; } m();",
        "ok|ok|ok|ok|",
    ),
    (
        "macro b() -> (r) { r = Foo(); } macro m() -> (r) { r = p; p = 1; } m();",
        "ok|ok|ok|p/b:1/Foo:1: UnknownFunction|",
    ),
    (
        "macro b() -> (r) { r = Foo(); } macro m() -> (r) { p = p; r = p; } m();",
        "ok|ok|ok|p/b:1/Foo:1: UnknownFunction|",
    ),
    // Results are read at the end of a body, and arguments where they stand.
    (
        "macro b() -> (r) { r = Foo(); } macro m() -> (r, p) { r = 1; } m();",
        "ok|ok|ok|p/b:1/Foo:1: UnknownFunction|",
    ),
    (
        "macro b() -> (r) { r = Foo(); } macro m() -> (p) { p = 1; } m();",
        "ok|ok|ok|ok|",
    ),
    (
        "macro b() -> (r) { r = Foo(); } macro m(a) {} m(p);",
        "ok|ok|ok|p/b:1/Foo:1: UnknownFunction|",
    ),
    // A name that is defined nowhere before leads nowhere.
    (
        "Echo(later); later = 1; own = reads(own); Echo(own);",
        "ok|ok|ok|ok|own/reads:1: TooManyArguments|ok|",
    ),
];

fn behind_are(alloc: Global, text: &str, want: &str) -> Result<bool, AllocError> {
    let mut whole = Vec::new(alloc);
    put(&mut whole, TWO_PLACES)?;
    put(&mut whole, text)?;
    let mut out = Vec::new(alloc);
    answers(alloc, &whole, &mut out)?;
    Ok(out.as_slice() == want.as_bytes())
}

fn first_miss_behind<'a>(
    alloc: Global,
    cases: &[(&'a str, &'a str)],
) -> Result<Option<&'a str>, AllocError> {
    for case in cases {
        if !behind_are(alloc, case.0, case.1)? {
            return Ok(Some(case.0));
        }
    }
    Ok(None)
}

#[test]
fn where_names_lead(rt: HostRuntime) -> Result<(), Fail> {
    assert!(rt; first_miss_behind(rt.alloc(), &BEHIND)?.is_none());
    Ok(())
}

// ---- macro steps

/// The beginning of a macro of this number: `macro m7() -> (r) { `.
fn put_head(alloc: Global, text: &mut Vec<u8>, number: usize) -> Result<(), AllocError> {
    put(text, "macro m")?;
    put_number(alloc, text, number)?;
    put(text, "() -> (r) { ")
}

/// Macros `m1` to the last, each calling the next one, and what the last does.
fn put_macros(
    alloc: Global,
    text: &mut Vec<u8>,
    last: usize,
    does: &str,
) -> Result<(), AllocError> {
    for number in 2..=last {
        put_head(alloc, text, number - 1)?;
        put(text, "r = m")?;
        put_number(alloc, text, number)?;
        put(text, "(); } ")?;
    }
    put_head(alloc, text, last)?;
    put(text, does)?;
    put(text, " } ")
}

/// The steps `m1:1` to the last, joined by `/`.
fn put_steps(alloc: Global, text: &mut Vec<u8>, last: usize) -> Result<(), AllocError> {
    put(text, "m1:1")?;
    for number in 2..=last {
        put(text, "/m")?;
        put_number(alloc, text, number)?;
        put(text, ":1")?;
    }
    Ok(())
}

/// Writes the answers to a script behind so many macros, the last of which does this.
fn nested(
    alloc: Global,
    last: usize,
    does: &str,
    text: &str,
    out: &mut Vec<u8>,
) -> Result<(), AllocError> {
    let mut whole = Vec::new(alloc);
    put_macros(alloc, &mut whole, last, does)?;
    put(&mut whole, text)?;
    answers(alloc, &whole, out)
}

/// The answer to a script behind so many macros is a fault: in front of so many steps and behind them stand these.
fn is_nested_fault(
    alloc: Global,
    last: usize,
    does: &str,
    text: &str,
    front: &str,
    steps: usize,
    end: &str,
) -> Result<bool, AllocError> {
    let mut want = Vec::new(alloc);
    put(&mut want, front)?;
    put_steps(alloc, &mut want, steps)?;
    put(&mut want, end)?;
    let mut out = Vec::new(alloc);
    nested(alloc, last, does, text, &mut out)?;
    Ok(out.as_slice() == want.as_slice())
}

/// These are the answers to a script behind so many macros, the last of which does this.
fn is_nested_well(
    alloc: Global,
    last: usize,
    does: &str,
    text: &str,
    want: &str,
) -> Result<bool, AllocError> {
    let mut out = Vec::new(alloc);
    nested(alloc, last, does, text, &mut out)?;
    Ok(out.as_slice() == want.as_bytes())
}

#[test]
fn at_most_64_macro_steps(rt: HostRuntime) -> Result<(), Fail> {
    let alloc = rt.alloc();
    let echo = "Echo(\"x\");";
    assert!(rt; is_nested_well(alloc, 64, echo, "m1();", "ok|")?);
    assert!(rt; is_nested_fault(alloc, 65, echo, "m1();", "", 65, ": Nesting|")?);
    assert!(rt; is_nested_fault(alloc, 65, echo, "y = m1();", "y/", 65, ": Nesting|")?);
    assert!(rt;
        is_nested_fault(
            alloc,
            64,
            "Foo();",
            "m1();",
            "",
            64,
            "/Foo:1: UnknownFunction|"
        )?
    );
    Ok(())
}

/// Nesting is the last fault of a call, and comes before those of its arguments.
#[test]
fn nesting_among_faults(rt: HostRuntime) -> Result<(), Fail> {
    let alloc = rt.alloc();
    let text = "macro last() {} m1();";
    assert!(rt;
        is_nested_fault(
            alloc,
            64,
            "last(1);",
            text,
            "",
            64,
            "/last:1: TooManyArguments|"
        )?
    );
    let text = "macro last(a) {} m1();";
    assert!(rt; is_nested_fault(alloc, 64, "last(Foo());", text, "", 64, "/last:1: Nesting|")?);
    // A definition is walked with all its macro steps, wherever it is read.
    let text = "macro reads() { Echo(y); } y = m1(); reads();";
    assert!(rt; is_nested_well(alloc, 64, "r = 1;", text, "ok|ok|")?);
    Ok(())
}

/// The answer to a script is `Nesting` at the 65th step of this name.
fn is_endless(alloc: Global, text: &str, first: &str, further: &str) -> Result<bool, AllocError> {
    let mut want = Vec::new(alloc);
    put_repeated(&mut want, first, further, 64, ": Nesting|")?;
    let mut out = Vec::new(alloc);
    answers(alloc, text.as_bytes(), &mut out)?;
    Ok(out.as_slice() == want.as_slice())
}

#[test]
fn macros_that_call_themselves(rt: HostRuntime) -> Result<(), Fail> {
    let alloc = rt.alloc();
    assert!(rt; is_endless(alloc, "macro r() { r(); } r();", "r:1", "/r:1")?);
    assert!(rt; is_endless(alloc, "macro r() { r(); Foo(); } r();", "r:1", "/r:1")?);
    assert!(rt;
        is_endless(
            alloc,
            "macro Echo(a) { Echo(a); } Echo(1);",
            "Echo:1",
            "/Echo:1"
        )?
    );
    Ok(())
}

// ---- calls

/// A macro of this number that calls the one before twice.
fn put_doubling(
    alloc: Global,
    text: &mut Vec<u8>,
    number: usize,
    before: usize,
) -> Result<(), AllocError> {
    put(text, "macro c")?;
    put_number(alloc, text, number)?;
    for front in ["() { c", "(); c"] {
        put(text, front)?;
        put_number(alloc, text, before)?;
    }
    put(text, "(); } ")
}

/// Macros `c0` to `c16`, so that a call of number n counts `2^(n+1) - 1`; and `b` and `h`, which have a result and count as
/// much as `c15` and `c14`.
fn put_macros_of_calls(alloc: Global, text: &mut Vec<u8>) -> Result<(), AllocError> {
    put(text, "macro c0() {} ")?;
    for before in 0..16 {
        put_doubling(alloc, text, before + 1, before)?;
    }
    put(
        text,
        "macro b() -> (r) { r = 1; c14(); c14(); } macro h() -> (r) { r = 1; c13(); c13(); } ",
    )
}

fn of_many_are(alloc: Global, text: &str, want: &str) -> Result<bool, AllocError> {
    let mut whole = Vec::new(alloc);
    put_macros_of_calls(alloc, &mut whole)?;
    put(&mut whole, text)?;
    let mut out = Vec::new(alloc);
    answers(alloc, &whole, &mut out)?;
    Ok(out.as_slice() == want.as_bytes())
}

#[test]
fn at_most_65536_calls(rt: HostRuntime) -> Result<(), Fail> {
    let alloc = rt.alloc();
    assert!(rt; of_many_are(alloc, "Echo(c15()); c15();", "ok|ok|")?);
    assert!(rt; of_many_are(alloc, "Echo(c15(), c0());", "c0:1: Calls|")?);
    assert!(rt; of_many_are(alloc, "c16();", "c16:1/c15:2: Calls|")?);
    // It is the first fault of a call.
    assert!(rt; of_many_are(alloc, "Echo(c15(), Foo());", "Foo:1: Calls|")?);
    Ok(())
}

/// A definition is walked once, and two of one name apart.
#[test]
fn calls_of_definitions(rt: HostRuntime) -> Result<(), Fail> {
    let alloc = rt.alloc();
    let text = "y = b(); Echo(y, y); Echo(y, y, Echo());";
    assert!(rt; of_many_are(alloc, text, "ok|ok|Echo:2: Calls|")?);
    let text = "p = h(); q = p; p = h(); Echo(q, p, c0()); Echo(q, p, c0(), c0());";
    assert!(rt; of_many_are(alloc, text, "ok|ok|ok|c0:2: Calls|")?);
    Ok(())
}

// ---- long chains of definitions

/// A definition of this number that reads the one before.
fn put_definition(
    alloc: Global,
    text: &mut Vec<u8>,
    number: usize,
    before: usize,
    (front, end): (&str, &str),
) -> Result<(), AllocError> {
    put(text, "x")?;
    put_number(alloc, text, number)?;
    put(text, front)?;
    put_number(alloc, text, before)?;
    put(text, end)
}

/// `x0 = first();` and then 20,000 definitions, each of which reads the one before.
fn put_chain(alloc: Global, text: &mut Vec<u8>, reads: (&str, &str)) -> Result<(), AllocError> {
    put(
        text,
        "macro first() -> (r) { r = 1; } macro m(a) -> (r) { r = a; } x0 = first(); ",
    )?;
    for before in 0..20000 {
        put_definition(alloc, text, before + 1, before, reads)?;
    }
    Ok(())
}

/// Writes the answers to a script behind the definitions of a text, which join unchecked.
fn answers_behind(
    alloc: Global,
    before: &[u8],
    text: &str,
    out: &mut Vec<u8>,
) -> Result<(), AllocError> {
    match taken(alloc, before)? {
        Some(mut d) => read(alloc, &mut d, text.as_bytes(), out),
        None => put(out, "no script"),
    }
}

/// These are the answers to a script behind a chain of definitions.
fn of_chain_are(
    alloc: Global,
    reads: (&str, &str),
    text: &str,
    want: &str,
) -> Result<bool, AllocError> {
    let mut chain = Vec::new(alloc);
    put_chain(alloc, &mut chain, reads)?;
    let mut out = Vec::new(alloc);
    answers_behind(alloc, &chain, text, &mut out)?;
    Ok(out.as_slice() == want.as_bytes())
}

#[test]
fn chains_of_20000_definitions(rt: HostRuntime) -> Result<(), Fail> {
    let alloc = rt.alloc();
    let text = "Echo(x20000); macro first() -> (r) { r = Foo(); } Echo(x20000);";
    let want = "ok|x0/first:1/Foo:1: UnknownFunction|";
    assert!(rt; of_chain_are(alloc, (" = x", "; "), text, want)?);
    assert!(rt; of_chain_are(alloc, (" = m(x", "); "), text, want)?);
    Ok(())
}
