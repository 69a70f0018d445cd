//! Sessions of constants and names, and texts outside the grammar.
use crate::outcome::all_print;
use std::test::Fail;

#[test]
fn constants_and_names_are_printed(rt: HostRuntime) -> Result<(), Fail> {
    let alloc = rt.alloc();
    let five = "array plain int rank 0 items 1\n5\n";
    let rows = [
        ("a = 5; Print(a, \"d\");", five, 0),
        (
            "Print(b, \"d\"); b = -2147483648; Print(b, \"d\");",
            "NULL\narray plain int rank 0 items 1\n-2147483648\n",
            0,
        ),
        ("", "", 0),
        ("$ x\n;;// c\na\n=+5;Print\t(a ,\"d\" ) ;", five, 0),
        ("a = 1; a = 5; Print(a, \"d\");", five, 0),
        ("Print = 5; Print(Print, \"d\");", five, 0),
        ("Print(a, \"o\");", "NULL\n", 0),
        ("Print(5, options = \"d\");", five, 0),
        ("a = 5; b = a; Print(b, \"d\");", five, 0),
        (
            "Executive(\"x\"); a = 5.0; Print(a, \"d\") [cache: 0];",
            five,
            0,
        ),
        (
            "v = {[1 2] [3 4]}; Print(v, \"d\"); Echo(\"n\", 7, NULL, v); Print(1, 5);",
            "array plain int rank 1 shape 2 items 2\n1 2\n3 4\nn 7 NULL array plain int rank 1 shape 2 items 2\nerror Print:1: BadArgument\n",
            1,
        ),
    ];
    all_print(rt.alloc(), &rows)
}

#[test]
fn texts_outside_the_grammar_are_refused(rt: HostRuntime) -> Result<(), Fail> {
    let rows = [
        ("a = 2147483648;", "error s.net:1:5: NumberRange\n", 2),
        ("Print(a, \"d\")", "error s.net:1:14: Syntax\n", 2),
        ("a = 5; Print(a, \"d\"); #", "error s.net:1:23: Syntax\n", 2),
        ("Print(1,\"d\")", "error s.net:1:13: Syntax\n", 2),
        ("x = {1 \"a\"};", "error s.net:1:8: MixedList\n", 2),
        ("x = 1.5;", "error s.net:1:5: FloatNumber\n", 2),
        ("x = {1 .. 65537};", "error s.net:1:11: ListTooLong\n", 2),
    ];
    all_print(rt.alloc(), &rows)
}
