//! Tables of texts with their tokens and refusals, and of the places of both.

use crate::tokens::put_tokens;
use dx_base::{SyntaxError, SyntaxKind};
use dx_lexer::LexFail;
use std::alloc::{AllocError, Global};
use std::test::Fail;

/// These are the tokens of a text.
fn tokens_are(alloc: Global, text: &str, want: &str) -> Result<bool, AllocError> {
    let mut out = Vec::new(alloc);
    put_tokens(alloc, &mut out, text.as_bytes())?;
    Ok(out.as_slice() == want.as_bytes())
}

/// Each text of a table has these tokens. One that has others is the failure.
fn all_have_tokens(alloc: Global, rows: &[(&str, &str)]) -> Result<(), Fail> {
    for row in rows {
        if !tokens_are(alloc, row.0, row.1)? {
            return Err(Fail::from(row.0));
        }
    }
    Ok(())
}

const TOKENS: [(&str, &str); 19] = [
    ("", "1:1-1:1 end"),
    (
        "x = 1;",
        "1:1-1:2 name x, 1:3-1:4 sign =, 1:5-1:6 int 1, 1:6-1:7 sign ;, 1:7-1:7 end",
    ),
    ("a_1\n", "1:1-1:4 name a_1, 2:1-2:1 end"),
    (
        "\t a\r\n  // b $ \"c\n\td // e",
        "1:3-1:4 name a, 3:2-3:3 name d, 3:8-3:8 end",
    ),
    ("$ a\n \t$ \"b\n\r$\nc $", "4:1-4:2 name c, 4:3 Syntax"),
    (
        "macro NULL include",
        "1:1-1:6 name macro, 1:7-1:11 name NULL, 1:12-1:19 name include, 1:19-1:19 end",
    ),
    (
        "()[]{},:=;",
        "1:1-1:2 sign (, 1:2-1:3 sign ), 1:3-1:4 sign [, 1:4-1:5 sign ], 1:5-1:6 sign {, 1:6-1:7 sign }, 1:7-1:8 sign ,, 1:8-1:9 sign :, 1:9-1:10 sign =, 1:10-1:11 sign ;, 1:11-1:11 end",
    ),
    (
        "->..->",
        "1:1-1:3 sign ->, 1:3-1:5 sign .., 1:5-1:7 sign ->, 1:7-1:7 end",
    ),
    (
        "{1a}",
        "1:1-1:2 sign {, 1:2-1:3 int 1, 1:3-1:4 name a, 1:4-1:5 sign }, 1:5-1:5 end",
    ),
    (
        "{1-2}",
        "1:1-1:2 sign {, 1:2-1:3 int 1, 1:3-1:5 int -2, 1:5-1:6 sign }, 1:6-1:6 end",
    ),
    (
        "1.0..2",
        "1:1-1:4 int 1, 1:4-1:6 sign .., 1:6-1:7 int 2, 1:7-1:7 end",
    ),
    (
        "1..2",
        "1:1-1:2 int 1, 1:2-1:4 sign .., 1:4-1:5 int 2, 1:5-1:5 end",
    ),
    ("1...2", "1:1-1:2 int 1, 1:2-1:4 sign .., 1:4 FloatNumber"),
    (
        "1. 1.000 +007 -0",
        "1:1-1:3 int 1, 1:4-1:9 int 1, 1:10-1:14 int 7, 1:15-1:17 int 0, 1:17-1:17 end",
    ),
    (
        "2147483647 -2147483648",
        "1:1-1:11 int 2147483647, 1:12-1:23 int -2147483648, 1:23-1:23 end",
    ),
    (
        "1e 1.0ex 1e+",
        "1:1-1:2 int 1, 1:2-1:3 name e, 1:4-1:7 int 1, 1:7-1:9 name ex, 1:10-1:11 int 1, 1:11-1:12 name e, 1:12 Syntax",
    ),
    (
        "\"a\\\"b\\\\c\\n\"d",
        "1:1-1:12 text a\"b\\c\n, 1:12-1:13 name d, 1:13-1:13 end",
    ),
    (
        "\"\"\"// $\"",
        "1:1-1:3 text , 1:3-1:9 text // $, 1:9-1:9 end",
    ),
    (
        "@startframe@endframe @deltaframe @nextframe @frame=",
        "1:1-1:12 frame @startframe, 1:12-1:21 frame @endframe, 1:22-1:33 frame @deltaframe, 1:34-1:44 frame @nextframe, 1:45-1:51 frame @frame, 1:51-1:52 sign =, 1:52-1:52 end",
    ),
];

#[test]
fn tokens(rt: HostRuntime) -> Result<(), Fail> {
    all_have_tokens(rt.alloc(), &TOKENS)
}

const REFUSALS: [(&str, &str); 29] = [
    ("1.5", "1:1 FloatNumber"),
    (" -1.5", "1:2 FloatNumber"),
    ("1.05", "1:1 FloatNumber"),
    (".5", "1:1 FloatNumber"),
    ("\n.5", "2:1 FloatNumber"),
    ("1e5", "1:1 FloatNumber"),
    ("1E-5", "1:1 FloatNumber"),
    ("1.e+5", "1:1 FloatNumber"),
    ("1.00e5", "1:1 FloatNumber"),
    ("99999999999.5", "1:1 FloatNumber"),
    ("2147483648", "1:1 NumberRange"),
    ("-2147483649", "1:1 NumberRange"),
    ("4294967297.0", "1:1 NumberRange"),
    ("-.5", "1:1 Syntax"),
    ("- 5", "1:1 Syntax"),
    ("+", "1:1 Syntax"),
    (".", "1:1 Syntax"),
    ("/ /", "1:1 Syntax"),
    ("@frames", "1:1 Syntax"),
    ("@", "1:1 Syntax"),
    ("\t?", "1:2 Syntax"),
    ("\"a", "1:1 Syntax"),
    (" \"a\nb\"", "1:2 Syntax"),
    ("\"a\\", "1:1 Syntax"),
    ("\"a\\tb", "1:1 Syntax"),
    ("\"a\\\"", "1:1 Syntax"),
    ("\"a\\\n\"", "1:1 Syntax"),
    ("\"a\\tb\"", "1:3 Syntax"),
    ("\n \"\\\\\\n\\\"\\x\\y\"", "2:9 Syntax"),
];

#[test]
fn refusals(rt: HostRuntime) -> Result<(), Fail> {
    all_have_tokens(rt.alloc(), &REFUSALS)
}

#[test]
fn longest_names(rt: HostRuntime) -> Result<(), Fail> {
    let alloc = rt.alloc();
    let mut out = Vec::new(alloc);
    put_tokens(alloc, &mut out, &[b'n'; 255])?;
    assert!(rt; out.as_slice().starts_with(b"1:1-1:256 name n"));
    let mut longer = Vec::new(alloc);
    put_tokens(alloc, &mut longer, &[b'n'; 256])?;
    assert!(rt; longer.as_slice() == b"1:1 Syntax".as_slice());
    Ok(())
}

#[test]
fn texts_of_failures(rt: HostRuntime) -> Result<(), Fail> {
    let alloc = rt.alloc();
    let error = SyntaxError {
        kind: SyntaxKind::NumberRange,
        line: 3,
        column: 14,
    };
    let refused = format!(in alloc; "{}", LexFail::Refused(error))?;
    assert!(rt; refused.as_str() == "3:14: NumberRange");
    let memory = format!(in alloc; "{}", LexFail::Memory)?;
    assert!(rt; memory.as_str() == "out of memory");
    Ok(())
}
