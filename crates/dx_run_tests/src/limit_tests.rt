//! Sessions at a limit: of the length of a text, and of the number of terms.
use crate::outcome::{NONE, all_print, run_line};
use std::alloc::Global;
use std::test::Fail;

// A text so many times, with others before and behind it.
fn repeated(
    alloc: Global,
    before: &str,
    text: &str,
    count: u32,
    behind: &str,
) -> Result<String, Fail> {
    let mut all = String::from_str(alloc, before)?;
    for _ in 0..count {
        all.push_str(text)?;
    }
    all.push_str(behind)?;
    Ok(all)
}

#[test]
fn texts_of_16_mib_and_a_byte_more(rt: HostRuntime) -> Result<(), Fail> {
    let alloc = rt.alloc();
    let kibibyte = repeated(alloc, "", " ", 1024, "")?;
    let rows = [
        (&*repeated(alloc, "", &kibibyte, 16_384, "")?, "", 0),
        (
            &*repeated(alloc, "", &kibibyte, 16_384, " ")?,
            "error s.net: TooLong\n",
            2,
        ),
    ];
    all_print(alloc, &rows)
}

// So many pairs of an export of a number of its own and a look at the file.
fn exports_and_imports(alloc: Global, count: u32) -> Result<String, Fail> {
    let mut all = String::new(alloc);
    for k in 1..=count {
        all.push_str(&format!(in alloc; "Export({k}, \"o\"); Print(Import(\"o\"));")?)?;
    }
    Ok(all)
}

// Each pair forms three terms, the number, the file's content and the call, beside two for all.
#[test]
fn contents_of_files_count_as_terms(rt: HostRuntime) -> Result<(), Fail> {
    let alloc = rt.alloc();
    let text = exports_and_imports(alloc, 21_846)?;
    let one = "array plain int rank 0 items 1\ntrace run Import:1\n";
    let behind = format!(in alloc; "trace clear\n{one}")?;
    let all = repeated(alloc, "", one, 21_845, &behind)?;
    let line = ["--memory", "0", "--trace", "s.net"];
    let got = run_line(alloc, &line, &[("s.net", &*text)], NONE)?;
    assert!(rt; got.status == 0);
    assert!(rt; got.printed.as_slice() == all.as_bytes());
    Ok(())
}

// A chain of so many calls, and a Print of the last.
fn chain(alloc: Global, count: u32) -> Result<String, Fail> {
    let mut all = String::from_str(alloc, "x0 = 0;")?;
    for k in 0..count {
        let next = k + 1;
        all.push_str(&format!(in alloc; "x{next} = Compute(\"$0 + 1\", x{k});")?)?;
    }
    all.push_str(&format!(in alloc; "Print(x{count}, \"d\");")?)?;
    Ok(all)
}

#[test]
fn a_chain_of_2000_calls_with_and_without_a_cache(rt: HostRuntime) -> Result<(), Fail> {
    let alloc = rt.alloc();
    let text = chain(alloc, 2000)?;
    for line in [["s.net"].as_slice(), ["--memory", "0", "s.net"].as_slice()] {
        let got = run_line(alloc, line, &[("s.net", &*text)], NONE)?;
        assert!(rt; got.status == 0);
        assert!(rt; got.printed.as_slice() == b"array plain int rank 0 items 1\n2000\n".as_slice());
    }
    Ok(())
}
