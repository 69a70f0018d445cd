//! Lists of words, each with what it says: which session or how large a workload, under which budget, and what is listed.
use dx_words::{Job, Words, WordsFail, read_words};
use std::alloc::Global;
use std::test::Fail;

// What a line says. The budget 67108864 is the usual one; the session is none where a workload runs.
#[derive(Clone, Copy)]
struct Said {
    budget: u64,
    trace: bool,
    links: bool,
    session: Option<&'static str>,
    workload: u32,
}

// The words of a row stand with a bar between two of them.
#[derive(Clone, Copy)]
struct Row {
    words: &'static str,
    said: Option<Said>,
}

const fn session(words: &'static str, name: &'static str) -> Row {
    Row {
        words,
        said: Some(Said {
            budget: 67_108_864,
            trace: false,
            links: false,
            session: Some(name),
            workload: 0,
        }),
    }
}

const fn listed(words: &'static str, trace: bool, links: bool) -> Row {
    Row {
        words,
        said: Some(Said {
            budget: 67_108_864,
            trace,
            links,
            session: Some("s.net"),
            workload: 0,
        }),
    }
}

const fn budget(words: &'static str, budget: u64) -> Row {
    Row {
        words,
        said: Some(Said {
            budget,
            trace: false,
            links: false,
            session: Some("s.net"),
            workload: 0,
        }),
    }
}

const fn workload(words: &'static str, workload: u32) -> Row {
    Row {
        words,
        said: Some(Said {
            budget: 67_108_864,
            trace: false,
            links: false,
            session: None,
            workload,
        }),
    }
}

const fn refused(words: &'static str) -> Row {
    Row { words, said: None }
}

fn split(alloc: Global, words: &'static str) -> Result<Vec<String>, Fail> {
    let mut list = Vec::new(alloc);
    for word in words.split('|') {
        list.push(String::from_str(alloc, word)?)?;
    }
    Ok(list)
}

// The words say this.
fn says(words: &Words, said: Said) -> bool {
    let job = match (&words.job, said.session) {
        (Job::Session(name), Some(session)) => name.bytes() == session.as_bytes(),
        (Job::Workload(n), None) => *n == said.workload,
        _ => false,
    };
    job && words.budget == said.budget && words.trace == said.trace && words.links == said.links
}

// The row's answer is the one that is read.
fn holds(alloc: Global, row: Row) -> Result<bool, Fail> {
    let words = split(alloc, row.words)?;
    Ok(match (read_words(alloc, &words), row.said) {
        (Ok(words), Some(said)) => says(&words, said),
        (Err(WordsFail::Refused), None) => true,
        _ => false,
    })
}

fn all_hold(alloc: Global, rows: &[Row]) -> Result<(), Fail> {
    for row in rows {
        if !holds(alloc, *row)? {
            return Err(Fail::from(row.words));
        }
    }
    Ok(())
}

#[test]
fn sessions(rt: HostRuntime) -> Result<(), Fail> {
    let rows = [
        session("s.net", "s.net"),
        session("-", "-"),
        session("a b", "a b"),
        session("", ""),
        session("=", "="),
        session("x-y", "x-y"),
        session("memory", "memory"),
        session("é.net", "é.net"),
        session("--|s.net", "s.net"),
        session("--|-", "-"),
        session("--|--", "--"),
        session("--|--trace", "--trace"),
        session("--|-x", "-x"),
        session("--|--memory=5", "--memory=5"),
        session("--|--workload", "--workload"),
        session("--|", ""),
        session("s.net|--", "s.net"),
        session("-|--", "-"),
    ];
    all_hold(rt.alloc(), &rows)
}

#[test]
fn listings(rt: HostRuntime) -> Result<(), Fail> {
    let rows = [
        listed("--trace|s.net", true, false),
        listed("s.net|--trace", true, false),
        listed("--links|s.net", false, true),
        listed("s.net|--links", false, true),
        listed("--trace|--links|s.net", true, true),
        listed("--links|s.net|--trace", true, true),
        listed("--trace|--links|--|s.net", true, true),
        refused("--trace"),
        refused("--links|--trace"),
        refused("--trace|--trace|s.net"),
        refused("--trace|s.net|--trace"),
        refused("--links|--links|s.net"),
        refused("--trace=|s.net"),
        refused("--trace=1|s.net"),
        refused("--links=yes|s.net"),
        refused("--tr|s.net"),
        refused("--Trace|s.net"),
        refused("-trace|s.net"),
        refused("-t|s.net"),
        refused("---trace|s.net"),
        refused("--trace|--"),
    ];
    all_hold(rt.alloc(), &rows)
}

#[test]
fn budgets(rt: HostRuntime) -> Result<(), Fail> {
    let rows = [
        budget("--memory|0|s.net", 0),
        budget("--memory=0|s.net", 0),
        budget("--memory|5|s.net", 5),
        budget("s.net|--memory|5", 5),
        budget("s.net|--memory=5", 5),
        budget("--memory|007|s.net", 7),
        budget("--memory|0000000000009|s.net", 9),
        budget("--memory|1099511627776|s.net", 1_099_511_627_776),
        budget("--memory=1099511627776|s.net", 1_099_511_627_776),
        refused("--memory|1099511627777|s.net"),
        refused("--memory=9999999999999|s.net"),
        refused("--memory|00000000000009|s.net"),
        refused("--memory|18446744073709551621|s.net"),
        refused("--memory|+5|s.net"),
        refused("--memory=-5|s.net"),
        refused("--memory|-5|s.net"),
        refused("--memory| 5|s.net"),
        refused("--memory|5k|s.net"),
        refused("--memory|0x5|s.net"),
        refused("--memory|1.0|s.net"),
        refused("--memory||s.net"),
        refused("--memory=|s.net"),
        refused("--memory==5|s.net"),
        refused("--memory|--|s.net"),
        refused("--memory|--trace|s.net"),
        refused("--memory|s.net"),
        refused("--memory"),
        refused("s.net|--memory"),
        refused("--memory|5"),
        refused("--memory|5|--memory|5|s.net"),
        refused("--memory=5|--memory|5|s.net"),
        refused("--mem|5|s.net"),
        refused("-memory|5|s.net"),
        refused("-m5|s.net"),
    ];
    all_hold(rt.alloc(), &rows)
}

#[test]
fn workloads(rt: HostRuntime) -> Result<(), Fail> {
    let rows = [
        workload("--workload|1", 1),
        workload("--workload=1", 1),
        workload("--workload|100000", 100_000),
        workload("--workload=100000", 100_000),
        workload("--workload|000017", 17),
        workload("--workload|5|--", 5),
        refused("--workload|0"),
        refused("--workload=0"),
        refused("--workload|100001"),
        refused("--workload|999999"),
        refused("--workload|0000017"),
        refused("--workload|+1"),
        refused("--workload|-1"),
        refused("--workload="),
        refused("--workload"),
        refused("--workload|--"),
        refused("--workload|1|--workload|2"),
        refused("--workload=1|--workload=1"),
        refused("--workload|1|s.net"),
        refused("s.net|--workload|1"),
        refused("--workload=1|-"),
        refused("--workload|1|--|s.net"),
        refused("--work|1"),
        refused("-w|1"),
    ];
    all_hold(rt.alloc(), &rows)
}

#[test]
fn no_lines(rt: HostRuntime) -> Result<(), Fail> {
    let rows = [
        refused("--"),
        refused("a|b"),
        refused("--|a|b"),
        refused("a|--|b"),
        refused("-|-"),
        refused("-x|s.net"),
        refused("-x"),
        refused("-é"),
        refused("--help"),
        refused("-h"),
        refused("--version"),
        refused("-V"),
        refused("help|me"),
        refused("--nothing|s.net"),
        refused("--=5|s.net"),
        refused("---|s.net"),
    ];
    all_hold(rt.alloc(), &rows)?;
    let none = Vec::new(rt.alloc());
    assert!(rt; matches!(&read_words(rt.alloc(), &none), Err(WordsFail::Refused)));
    Ok(())
}

#[test]
fn everything_at_once(rt: HostRuntime) -> Result<(), Fail> {
    let words = split(rt.alloc(), "--memory|1000|--links|--trace|--|-session")?;
    let said = Said {
        budget: 1000,
        trace: true,
        links: true,
        session: Some("-session"),
        workload: 0,
    };
    assert!(rt;
        says(
            &read_words(rt.alloc(), &words).map_err(|_| Fail::from("refused"))?,
            said
        )
    );
    Ok(())
}
