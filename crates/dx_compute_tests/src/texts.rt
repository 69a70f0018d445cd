//! Texts that are no expression, each with the offset of its first token that doesn't fit, and first inputs that are no text.
use crate::calls::{Row, answer, check, inputs};
use crate::stock::value;
use std::test::Fail;

const TEXTS: &[Row<'static>] = &[
    ("", &[], "BadExpression 0"),
    ("1 +", &[], "BadExpression 3"),
    ("absx(1)", &[], "BadExpression 3"),
    ("minmax(1)", &[], "BadExpression 3"),
    ("sqrt(1)", &[], "BadExpression 0"),
    ("1e3", &[], "BadExpression 1"),
    ("!=1", &[], "BadExpression 0"),
    ("1 < = 2", &[], "BadExpression 4"),
    ("1 = 2", &[], "BadExpression 2"),
    ("1 & 2", &[], "BadExpression 2"),
    ("1 < 2 < 3", &[], "BadExpression 6"),
    ("1 == 2 != 3", &[], "BadExpression 7"),
    ("min(1)", &[], "BadExpression 5"),
    ("abs(1,2)", &[], "BadExpression 5"),
    ("a + b", &[], "BadExpression 0"),
    ("$21", &[], "BadExpression 1"),
    ("[1].256", &[], "BadExpression 4"),
    ("[1, 2", &[], "BadExpression 5"),
    ("2147483648", &[], "BadExpression 0"),
    ("-2147483648", &[], "BadExpression 1"),
    ("1\n+ 2", &[], "BadExpression 1"),
    ("1 ? 2", &[], "BadExpression 5"),
    // White space, and digits by their value.
    (" 1\t+ 2 ", &[], "{3}"),
    ("$ 0 . 1", &["vector"], "{20}"),
    (
        "$007 + 010",
        &["NULL", "NULL", "NULL", "NULL", "NULL", "NULL", "NULL", "5"],
        "{15}",
    ),
    // Before anything is asked of the inputs.
    ("$0 +", &["NULL"], "BadExpression 4"),
    ("$0 $1", &["ints", "text"], "BadExpression 3"),
    ("[$0", &["trio", "pair"], "BadExpression 3"),
];

#[test]
fn texts_that_are_no_expression(rt: HostRuntime) -> Result<(), Fail> {
    check(rt.alloc(), TEXTS)
}

// What stands in the place of the expression.
const NO_TEXTS: [&str; 6] = ["NULL", "1", "vectors", "island", "named", "steps"];

#[test]
fn an_expression_is_a_text(rt: HostRuntime) -> Result<(), Fail> {
    let alloc = rt.alloc();
    for name in NO_TEXTS {
        let given = inputs(alloc, value(alloc, name)?, &["NULL", "text"])?;
        assert!(rt; answer(alloc, &given)?.as_slice() == b"BadArgument".as_slice());
    }
    Ok(())
}
