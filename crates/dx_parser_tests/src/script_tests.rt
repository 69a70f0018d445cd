//! Texts with their statements, and texts with their first errors.

use crate::trees::{put_judged, put_parsed};
use crate::writing::put;
use std::alloc::{AllocError, Global};
use std::test::Fail;

/// A text is read so.
fn parsed_is(alloc: Global, text: &str, want: &str) -> Result<bool, AllocError> {
    let mut out = Vec::new(alloc);
    put_parsed(alloc, &mut out, text.as_bytes())?;
    Ok(out.as_slice() == want.as_bytes())
}

fn judged_is(alloc: Global, text: &[u8], want: &str) -> Result<bool, AllocError> {
    let mut out = Vec::new(alloc);
    put_judged(alloc, &mut out, text)?;
    Ok(out.as_slice() == want.as_bytes())
}

/// Each text of a table is read so. One that isn't is the failure.
fn all_are_parsed(alloc: Global, rows: &[(&str, &str)]) -> Result<(), Fail> {
    for row in rows {
        if !parsed_is(alloc, row.0, row.1)? {
            return Err(Fail::from(row.0));
        }
    }
    Ok(())
}

const STATEMENTS: [(&str, &str); 21] = [
    ("", ""),
    (";; ;", ""),
    ("x = 1; x = \"a\\n\";", "x = 1|x = 'a\n'|"),
    ("v = [1 2, -3];", "v = vector [1, 2, -3]|"),
    ("l = {}; l = {1, 2 3};", "l = []|l = [1, 2, 3]|"),
    ("l = {\"a\", \"b\"};", "l = texts a b |"),
    ("l = {[1 2] [3, 4]};", "l = by 2 [1, 2, 3, 4]|"),
    ("r = {1 .. 7 : 3};", "r = [1, 4, 7]|"),
    ("r = {7 .. 2 : -2};", "r = [7, 5, 3]|"),
    ("r = {2 .. 1};", "r = []|"),
    (
        "p, q = f(a, b = NULL)[cache: 2, instance: \"i\", cache: 0];",
        "p q = f(2)[0]|",
    ),
    ("f(g(h()), @frame, x = y);", "f g(1)[1] @Frame x: y [1]|"),
    (
        "play = 1; step(); stop, loop = on();",
        "play = 1|step [1]|stop loop = on(0)[1]|",
    ),
    (
        "play; step; stop; forward; backward;",
        "Play|Step|Stop|Forward|Backward|",
    ),
    (
        "loop on; loop off; palindrome on; palindrome off;",
        "LoopOn|LoopOff|PalindromeOn|PalindromeOff|",
    ),
    (
        "sequence main(); sequence = 2; sequence(1);",
        "sequence main|sequence = 2|sequence 1 [1]|",
    ),
    (
        "@startframe = -1; @endframe = @nextframe;",
        "@Start = -1|@End = @Next|",
    ),
    (
        "include \"a.net\" include \"b\";",
        "include a.net|include b|",
    ),
    (
        "Executive(\"version\"); Executive = 1; x = Executive();",
        "Executive = 1|x = Executive(0)[1]|",
    ),
    (
        "macro m(a, b = 3) -> (r, s) { r = a; ; f(r); Executive(); }",
        "macro m 2 -> r s 2|",
    ),
    ("macro m() {}", "macro m 0 -> 0|"),
];

#[test]
fn statements(rt: HostRuntime) -> Result<(), Fail> {
    all_are_parsed(rt.alloc(), &STATEMENTS)
}

const REFUSALS: [(&str, &str); 31] = [
    ("Print(1,\"d\")", "1:13 Syntax"),
    ("x = {1 \"a\"};", "1:8 MixedList"),
    ("x = 1.5;", "1:5 FloatNumber"),
    ("x = 2147483648;", "1:5 NumberRange"),
    ("Print(1) 1.5;", "1:10 FloatNumber"),
    ("x = 1e;", "1:6 Syntax"),
    ("x = \"open", "1:5 Syntax"),
    ("x = {\"a\" [1 y]};", "1:13 Syntax"),
    ("x = {\"a\" [1]};", "1:10 MixedList"),
    ("x = {[1 2] [3]};", "1:12 MixedList"),
    ("x = {1 .. 100000 y};", "1:18 Syntax"),
    ("x = {1 .. 100000};", "1:11 ListTooLong"),
    ("x = {1 .. 100000 : 1};", "1:20 ListTooLong"),
    ("x = {1 .. 9 : 0};", "1:15 NumberRange"),
    ("f()[cache: 3];", "1:12 NumberRange"),
    ("f()[cache: \"1\"];", "1:12 NumberRange"),
    ("f(a = 1, 2);", "1:10 Syntax"),
    ("f(a = 1, b);", "1:11 Syntax"),
    ("f(1\n2);", "2:1 Syntax"),
    ("macro m(a, a) {}", "1:12 Syntax"),
    ("macro m() -> (r, r) {}", "1:18 Syntax"),
    ("macro m() { macro n() {} }", "1:13 Syntax"),
    ("macro m() { play; }", "1:17 Syntax"),
    ("macro = 1;", "1:7 Syntax"),
    ("p, q = 1;", "1:8 Syntax"),
    ("x = [];", "1:6 Syntax"),
    ("foo;", "1:4 Syntax"),
    ("play", "1:5 Syntax"),
    ("loop maybe;", "1:6 Syntax"),
    ("@frame = x;", "1:10 Syntax"),
    ("include x;", "1:9 Syntax"),
];

#[test]
fn refusals(rt: HostRuntime) -> Result<(), Fail> {
    all_are_parsed(rt.alloc(), &REFUSALS)
}

/// Writes a front, a piece so many times, and an end.
fn put_repeated(
    text: &mut Vec<u8>,
    front: &str,
    piece: &str,
    count: u32,
    end: &str,
) -> Result<(), AllocError> {
    put(text, front)?;
    for _ in 0..count {
        put(text, piece)?;
    }
    put(text, end)
}

fn repeated_is(alloc: Global, row: &(&str, &str, u32, &str, &str)) -> Result<bool, AllocError> {
    let mut text = Vec::new(alloc);
    put_repeated(&mut text, row.0, row.1, row.2, row.3)?;
    judged_is(alloc, &text, row.4)
}

const LIMITS: [(&str, &str, u32, &str, &str); 9] = [
    ("x = {", "1 ", 65536, "};", "ok"),
    ("x = {", "1 ", 65537, "};", "1:131078 ListTooLong"),
    ("x = {", "1 ", 65536, "\"a\"};", "1:131078 MixedList"),
    ("x = {0 .. ", "", 0, "65535};", "ok"),
    ("x = {0 .. ", "", 0, "65536};", "1:11 ListTooLong"),
    ("x = [", "1 ", 256, "];", "ok"),
    ("x = [", "1 ", 257, "];", "1:518 Syntax"),
    ("", "f(", 64, ")", "1:130 Syntax"),
    ("", "f(", 65, ")", "1:130 Syntax"),
];

#[test]
fn limits(rt: HostRuntime) -> Result<(), Fail> {
    for row in &LIMITS {
        if !repeated_is(rt.alloc(), row)? {
            return Err(Fail::from(row.0));
        }
    }
    Ok(())
}

#[test]
fn deepest_calls(rt: HostRuntime) -> Result<(), Fail> {
    let mut deep = Vec::new(rt.alloc());
    put_repeated(&mut deep, "", "f(", 64, "1")?;
    put_repeated(&mut deep, "", ")", 64, ";")?;
    assert!(rt; judged_is(rt.alloc(), &deep, "ok")?);
    Ok(())
}

/// A program as the original system's editor saves it.
const SAVED: &str = "// MODULE main
macro main(
) -> (
) {
main_Import_1_out_1 =
    Import(
    main_Import_1_in_1, main_Import_1_in_2, main_Import_1_in_3,
    main_Import_1_in_4, main_Import_1_in_5, main_Import_1_in_6
    ) [instance: 1, cache: 1];
main_Compute_1_out_1 =
    Compute(
    main_Compute_1_in_1, main_Import_1_out_1
    ) [instance: 1, cache: 1];
main_Statistics_1_out_1, main_Statistics_1_out_2 =
    Statistics(
    main_Compute_1_out_1
    ) [instance: 1, cache: 1];
    Print(
    main_Statistics_1_out_1, main_Print_1_in_2
    ) [instance: 1, cache: 1];
}
main_Import_1_in_1 = \"d.dx\";
main_Import_1_in_2 = NULL;
main_Compute_1_in_1 = \"$0 * 2 + 1\";
main_Print_1_in_2 = \"d\";
Executive(\"product version 4 4 4\");
$sync

main();
";

#[test]
fn saved_program(rt: HostRuntime) -> Result<(), Fail> {
    let want =
        "macro main 0 -> 4|main_Import_1_in_1 = 'd.dx'|main_Import_1_in_2 = NULL|main_Compute_1_in_1 = '$0 * 2 + 1'|main_Print_1_in_2 = 'd'|main [1]|";
    assert!(rt; parsed_is(rt.alloc(), SAVED, want)?);
    Ok(())
}
