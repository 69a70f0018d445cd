//! Which code comes where several could: the inputs before groups, groups before fields, fields before the numbers of items,
//! shapes before items, and a field's number of items behind them.
use crate::calls::{Row, check};
use std::test::Fail;

const ONES: [&str; 20] = ["1"; 20];

// Each input that occurs is given, and no text.
const INPUTS: &[Row<'static>] = &[
    ("$0", &["NULL"], "BadArgument"),
    ("$0", &["text"], "BadArgument"),
    ("$0", &[], "BadArgument"),
    ("$0 + $2", &["ints", "tens"], "BadArgument"),
    ("$19", &ONES, "{1}"),
    ("$20", &ONES, "BadArgument"),
    // Also where it isn't looked at.
    ("0 && $0", &["NULL"], "BadArgument"),
    ("1 ? 2 : $1", &["ints"], "BadArgument"),
    // Before all else.
    ("$0 + $1 + $2", &["ints", "pair", "NULL"], "BadArgument"),
    ("$0 + $1", &["no data", "text"], "BadArgument"),
    ("$0 + $1 + $2", &["named", "trio", "NULL"], "BadArgument"),
    ("[1].1 + $0", &["NULL"], "BadArgument"),
    ("1 / 0 + $0", &["NULL"], "BadArgument"),
];

const LATER: &[Row<'static>] = &[
    (
        "$0 + $1 + $2",
        &["named", "trio", "no data"],
        "ItemMismatch",
    ),
    (
        "$0 + $1 + $2",
        &["no data", "named", "trio"],
        "ItemMismatch",
    ),
    ("$0 + $1", &["no data", "named"], "NoComponent"),
    ("$0 + $1 + $2", &["ints", "pair", "no data"], "NoComponent"),
    ("[1, 2] + [1] + $0", &["no data"], "NoComponent"),
    ("1 / 0 + $0", &["no data"], "NoComponent"),
    ("$0 / 0 + $1", &["ints", "pair"], "ItemMismatch"),
    ("$0 / 0 + $1", &["vectors", "triple"], "ItemMismatch"),
    ("$0 / 0 + $1", &["one", "ints"], "DivisionByZero"),
    ("2147483647 + $0 + $1", &["one", "ints"], "Overflow"),
    ("$0 + $1", &["one", "ints"], "ItemMismatch"),
];

#[test]
fn inputs_before_all_else(rt: HostRuntime) -> Result<(), Fail> {
    check(rt.alloc(), INPUTS)
}

#[test]
fn one_code_before_another(rt: HostRuntime) -> Result<(), Fail> {
    check(rt.alloc(), LATER)
}
