//! Sessions with macros and definitions, and with static faults.
use crate::outcome::all_print;
use itoa::Buffer;
use std::alloc::Global;
use std::test::Fail;

#[test]
fn macros_and_definitions(rt: HostRuntime) -> Result<(), Fail> {
    let rows = [
        (
            "macro m(a, b = 2) -> (r, s) { r = b; s = a; } x, y = m(7); Echo(x, y); Echo(m(b = 9, a = 1));",
            "2 7\n9\n",
            0,
        ),
        (
            "macro m(a, b = 2) -> (r, s) { r = b; s = a; } Echo(m(1, 2, 3)); Echo(m(c = 1)); z, w = Echo(\"q\"); Echo(z);",
            "error m:1: TooManyArguments\nerror m:1: NoSuchParameter\nerror z/Echo:1: TooManyResults\nNULL\n",
            1,
        ),
        (
            "macro m(a) -> (r) { r = a; } y = m(5); Echo(y); macro m(a) -> (r) { r = \"new\"; } Echo(y);",
            "5\nnew\n",
            0,
        ),
        ("p = 3; y = p; p = 100; Echo(y);", "3\n", 0),
        // An assignment is executed before it joins.
        (
            "macro m(a) -> (r) { Echo(a); r = \"new\"; } x = \"old\"; x = m(x); Echo(x);",
            "old\nnew\n",
            0,
        ),
        ("z = @frame; @frame = 8; Echo(z);", "8\n", 0),
        // A definition that got a fault behind its joining.
        (
            "macro f() -> (r) { r = 1; } x = f(); macro f() -> (r) { r = Foo(); } macro m(a) { Echo(\"in\"); } m(x);",
            "error x/f:1/Foo:1: UnknownFunction\n",
            1,
        ),
        (
            "macro m() -> (r) { } x = m(); macro m() { } Print(x);",
            "error x/m:1: TooManyResults\n",
            1,
        ),
        // A NULL that is given isn't left out, and effects are in the order of the text.
        (
            "macro m(a, b = 2) { Echo(a, b); } macro e(a) -> (r) { Echo(a); r = a; } m(1, NULL); m(b = e(3), a = e(1));",
            "1 NULL\n3\n1\n1 3\n",
            0,
        ),
        // What a call comes to, or that it comes to nothing.
        ("Foo();", "error Foo:1: UnknownFunction\n", 1),
        ("a, b = c();", "error a/c:1: UnknownFunction\n", 1),
        ("print(a, \"d\");", "error print:1: UnknownFunction\n", 1),
        (
            "a = 1; a = Foo(); Echo(a);",
            "error a/Foo:1: UnknownFunction\n1\n",
            1,
        ),
        (
            "macro m() -> (r) { r = 2; Print(1, 5); } a = m(); Echo(a);",
            "error a/m:1/Print:1: BadArgument\n2\n",
            1,
        ),
        (
            "macro m() { Echo(1); Print(1, \"x\"); Echo(2); } m(); Echo(3);",
            "1\nerror m:1/Print:1: Unsupported\n3\n",
            1,
        ),
    ];
    all_print(rt.alloc(), &rows)
}

fn push_number(text: &mut String, n: u32) -> Result<(), Fail> {
    let mut buffer = Buffer::new();
    text.push_str(buffer.format(n))?;
    Ok(())
}

// Macros m1 to m`last`, each of which calls the next one, and the last one Echo; and a call of m1.
fn chain(alloc: Global, last: u32) -> Result<String, Fail> {
    let mut text = String::new(alloc);
    for i in 1..last {
        text.push_str("macro m")?;
        push_number(&mut text, i)?;
        text.push_str("() { m")?;
        push_number(&mut text, i + 1)?;
        text.push_str("(); } ")?;
    }
    text.push_str("macro m")?;
    push_number(&mut text, last)?;
    text.push_str("() { Echo(\"x\"); } m1();")?;
    Ok(text)
}

// The line of a call that is nested too deep: the 65 steps, each of them this one or numbered.
fn nested(alloc: Global, step: &str, numbered: bool) -> Result<String, Fail> {
    let mut line = String::from_str(alloc, "error ")?;
    for i in 1..66 {
        if i > 1 {
            line.push_str("/")?;
        }
        line.push_str(step)?;
        if numbered {
            push_number(&mut line, i)?;
        }
        line.push_str(":1")?;
    }
    line.push_str(": Nesting\n")?;
    Ok(line)
}

#[test]
fn macros_are_nested_64_deep(rt: HostRuntime) -> Result<(), Fail> {
    let alloc = rt.alloc();
    let rows = [
        (&*chain(alloc, 64)?, "x\n", 0),
        (&*chain(alloc, 65)?, &*nested(alloc, "m", true)?, 1),
        ("macro r() { r(); } r();", &*nested(alloc, "r", false)?, 1),
    ];
    all_print(alloc, &rows)
}
