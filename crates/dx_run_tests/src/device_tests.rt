//! Words, files and devices that fail.
use crate::outcome::outcome;
use std::test::Fail;

const USAGE: &str = "usage: dxi [--memory BYTES] [--trace] [--links] (SESSION | --workload N)\n";

#[test]
fn includes_are_loaded_before_anything_is_performed(rt: HostRuntime) -> Result<(), Fail> {
    let alloc = rt.alloc();
    let four = "array plain int rank 0 items 1\n4\n";
    for (included, printed, status, reads) in [
        ("a = 4;", four, 0, 2),
        ("include \"b.net\";", "error b.net: Nested\n", 2, 16),
        ("include \"none.net\"", "error none.net: Missing\n", 2, 3),
        (
            "Print(a, \"d\"); a = {1 \"x\"};",
            "error b.net:1:23: MixedList\n",
            2,
            2,
        ),
        ("a = NULL;", "NULL\n", 0, 2),
    ] {
        let texts = [
            ("s.net", "include \"b.net\"; Print(a, \"d\");"),
            ("b.net", included),
        ];
        let (got, bytes, asked) = outcome(alloc, &["s.net"], &texts, 0, 0)?;
        if got != status || bytes.as_slice() != printed.as_bytes() || asked != reads {
            return Err(Fail::from(included));
        }
    }
    Ok(())
}

#[test]
fn a_session_whose_include_is_missing(rt: HostRuntime) -> Result<(), Fail> {
    let text = [("s.net", "include \"none.net\"")];
    let (got, bytes, asked) = outcome(rt.alloc(), &["s.net"], &text, 0, 0)?;
    assert!(rt; got == 2 && asked == 2);
    assert!(rt; bytes.as_slice() == b"error none.net: Missing\n".as_slice());
    Ok(())
}

#[test]
fn words_and_missing_files(rt: HostRuntime) -> Result<(), Fail> {
    let alloc = rt.alloc();
    for (line, printed, status, reads) in [
        (["t.net"].as_slice(), "error t.net: Missing\n", 2, 1),
        (["-"].as_slice(), "error -: Missing\n", 2, 1),
        ([].as_slice(), USAGE, 3, 0),
        (["--trace"].as_slice(), USAGE, 3, 0),
        (["-x"].as_slice(), USAGE, 3, 0),
        (["s.net", "s.net"].as_slice(), USAGE, 3, 0),
    ] {
        let (got, bytes, asked) = outcome(alloc, line, &[("s.net", "Echo(1);")], 0, 0)?;
        if got != status || bytes.as_slice() != printed.as_bytes() || asked != reads {
            return Err(Fail::from(printed));
        }
    }
    Ok(())
}

#[test]
fn each_call_of_a_device_fails_in_turn(rt: HostRuntime) -> Result<(), Fail> {
    let alloc = rt.alloc();
    let texts = [
        (
            "s.net",
            "include \"b.net\"; Echo(1); Foo(); play; @deltaframe = 0;",
        ),
        (
            "b.net",
            "@endframe = 2; macro f() { Echo(@frame); } sequence f();",
        ),
        ("p.net", "@endframe = 65537; play;"),
    ];
    for (name, read, write, printed, status) in [
        ("s.net", 1, 0, "", 4),
        ("s.net", 2, 0, "", 4),
        ("s.net", 3, 1, "", 5),
        ("s.net", 3, 2, "1\n", 5),
        ("s.net", 3, 3, "1\nerror Foo:1: UnknownFunction\n", 5),
        ("s.net", 3, 4, "1\nerror Foo:1: UnknownFunction\n1\n", 5),
        ("s.net", 3, 5, "1\nerror Foo:1: UnknownFunction\n1\n2\n", 5),
        (
            "s.net",
            3,
            6,
            "1\nerror Foo:1: UnknownFunction\n1\n2\nerror @deltaframe: FrameRange\n",
            1,
        ),
        ("p.net", 0, 1, "", 5),
        ("t.net", 1, 0, "", 4),
        ("t.net", 0, 1, "", 5),
        ("--trace", 1, 0, USAGE, 3),
        ("--trace", 0, 1, "", 5),
    ] {
        let (got, bytes, _) = outcome(alloc, &[name], &texts, read, write)?;
        if got != status || bytes.as_slice() != printed.as_bytes() {
            return Err(Fail::from(printed));
        }
    }
    Ok(())
}
