//! Sessions with modules, links, exports and a cache.
use crate::outcome::{Failing, NONE, run_line};
use std::alloc::Global;
use std::test::Fail;

const TWICE: &str = "x = Compute(\"1 + 1\"); Print(x, \"d\"); Print(x, \"d\");";

#[test]
fn a_budget_changes_no_text(rt: HostRuntime) -> Result<(), Fail> {
    let alloc = rt.alloc();
    let two = "array plain int rank 0 items 1\n2\n";
    for (line, first, second) in [
        (["s.net"].as_slice(), "", ""),
        (["--memory", "0", "s.net"].as_slice(), "", ""),
        (
            ["--trace", "--memory=67", "s.net"].as_slice(),
            "trace run x/Compute:1\n",
            "trace run x/Compute:1\n",
        ),
        (
            ["--trace", "--memory=68", "s.net"].as_slice(),
            "trace run x/Compute:1\ntrace keep x/Compute:1 68\n",
            "trace hit x/Compute:1\n",
        ),
    ] {
        let all = format!(in alloc; "{two}{first}{two}{second}")?;
        let got = run_line(alloc, line, &[("s.net", TWICE)], NONE)?;
        if got.status != 0 || got.printed.as_slice() != all.as_bytes() {
            return Err(Fail::from(first));
        }
    }
    Ok(())
}

#[test]
fn links_are_listed_behind_each_execution(rt: HostRuntime) -> Result<(), Fail> {
    let text =
        "SetGlobal(1, \"n\"); SetGlobal(GetGlobal(0, \"n\"), \"n\"); SetGlobal(NULL, \"n\");";
    let got = run_line(rt.alloc(), &["--links", "s.net"], &[("s.net", text)], NONE)?;
    let one =
        "links 1\nlink global \"n\"\nobject 1 class array type int rank 0 items 1 data follows\n1\nend\n";
    let all = format!(in rt.alloc(); "{one}{one}links 0\n")?;
    assert!(rt; got.status == 0);
    assert!(rt; got.printed.as_slice() == all.as_bytes());
    Ok(())
}

const AGAIN: &str =
    "Export(7, \"o\"); Print(Import(\"o\"), \"d\"); Export(Import(\"i\"), \"p\"); Echo(1);";

const NATIVE: &str = "object 1 class array type int rank 0 items 1 data follows\n7\nend\n";

const SEVEN: &str = "array plain int rank 0 items 1\n7\n";

// What comes of a session where these calls of the devices fail: the status, the text, and the files that are put.
type Row<'a> = (&'a str, (u64, u64, u64), (u8, &'a str, &'a str));

fn all_come_so(alloc: Global, rows: &[Row]) -> Result<(), Fail> {
    for (text, (read, write, put), (status, printed, puts)) in rows {
        let fail = Failing {
            read: *read,
            write: *write,
            put: *put,
            slow: false,
        };
        let got = run_line(alloc, &["s.net"], &[("s.net", text), ("i", NATIVE)], fail)?;
        let same = got.printed.as_slice() == printed.as_bytes()
            && got.puts.as_slice() == puts.as_bytes();
        if got.status != *status || !same {
            return Err(Fail::from(*text));
        }
    }
    Ok(())
}

#[test]
fn each_put_and_read_fails_in_turn(rt: HostRuntime) -> Result<(), Fail> {
    let alloc = rt.alloc();
    let one = format!(in alloc; "o:{NATIVE}")?;
    let both = format!(in alloc; "o:{NATIVE}p:{NATIVE}")?;
    let all = format!(in alloc; "{SEVEN}1\n")?;
    all_come_so(
        alloc,
        &[
            (AGAIN, (0, 0, 0), (0, all.as_str(), both.as_str())),
            (AGAIN, (0, 0, 1), (6, "", "")),
            (AGAIN, (0, 0, 2), (6, SEVEN, one.as_str())),
            (AGAIN, (1, 0, 0), (4, "", "")),
            (AGAIN, (2, 0, 0), (4, SEVEN, one.as_str())),
        ],
    )
}

const REFUSED_BEHIND: &str =
    "macro m() { Export(7, \"o\"); Print(Compute(\"1 / 0\")); } m(); Print(Import(\"o\"));";

const ECHO_BEHIND: &str = "macro m() { Export(7, \"o\"); Echo(\"x\"); } m();";

const IMPORT_BEHIND: &str = "macro m() { Export(7, \"o\"); Echo(Import(\"i\")); } m();";

#[test]
fn puts_come_behind_the_effects_and_before_the_lines(rt: HostRuntime) -> Result<(), Fail> {
    let alloc = rt.alloc();
    let one = format!(in alloc; "o:{NATIVE}")?;
    let refused = "error m:1/Compute:1: DivisionByZero\narray plain int rank 0 items 1\n";
    all_come_so(
        alloc,
        &[
            (REFUSED_BEHIND, (0, 0, 0), (1, refused, one.as_str())),
            (REFUSED_BEHIND, (0, 0, 1), (6, "", "")),
            (REFUSED_BEHIND, (0, 1, 0), (5, "", one.as_str())),
            (ECHO_BEHIND, (0, 0, 0), (0, "x\n", one.as_str())),
            (ECHO_BEHIND, (0, 0, 1), (6, "x\n", "")),
            (ECHO_BEHIND, (0, 1, 0), (5, "", "")),
            (IMPORT_BEHIND, (2, 0, 0), (4, "", "")),
        ],
    )
}

#[test]
fn a_workload_asks_for_no_file(rt: HostRuntime) -> Result<(), Fail> {
    let alloc = rt.alloc();
    let texts = [("workload", "Echo(1);")];
    let got = run_line(alloc, &["--workload", "1"], &texts, NONE)?;
    assert!(rt; got.status == 0);
    assert!(rt; got.asked == 0);
    assert!(rt; got.printed.as_slice() == b"array plain int rank 0 items 1\n68\n".as_slice());
    let refused = run_line(alloc, &["--workload", "0"], &texts, NONE)?;
    assert!(rt; refused.status == 3);
    Ok(())
}

const ALL_DEVICES: &str =
    "Echo(\"a\"); Export(7, \"o\"); Echo(Import(\"v.dx\")); Export(\"t\", \"p\");";

// Each write takes one byte, so the text is written in four calls; behind the one that fails nothing is written, read or put.
#[test]
fn a_slow_output_fails_at_each_call(rt: HostRuntime) -> Result<(), Fail> {
    let alloc = rt.alloc();
    let texts = [
        ("s.net", ALL_DEVICES),
        ("v.dx", "object 1 class string \"t\""),
    ];
    let seven = format!(in alloc; "o:{NATIVE}")?;
    for (call, printed, asked, puts) in [
        (1, "", 1, ""),
        (2, "a", 1, ""),
        (3, "a\n", 2, seven.as_str()),
        (4, "a\nt", 2, seven.as_str()),
    ] {
        let fail = Failing {
            write: call,
            slow: true,
            ..NONE
        };
        let got = run_line(alloc, &["s.net"], &texts, fail)?;
        let same = got.printed.as_slice() == printed.as_bytes()
            && got.puts.as_slice() == puts.as_bytes();
        if got.status != 5 || got.asked != asked || !same {
            return Err(Fail::from(printed));
        }
    }
    let whole = run_line(alloc, &["s.net"], &texts, Failing { slow: true, ..NONE })?;
    assert!(rt; whole.status == 0 && whole.asked == 2);
    assert!(rt; whole.printed.as_slice() == b"a\nt\n".as_slice());
    Ok(())
}
