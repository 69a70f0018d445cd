//! Links: the key that a Get looks at, and what stands for its value.

use crate::linked::linked;
use crate::looking::Before;
use crate::rows::{Row, is_so};
use crate::told::Tell;
use dx_tags::{Tags, Written};
use std::alloc::{AllocError, Global};
use std::test::Fail;

const GETS: [Row; 7] = [
    // A global link, one under no macro, and one under the macro that leads to the call.
    (
        "",
        "Echo(GetGlobal(5, \"k\"));",
        &[Tell::Text("k")],
        "need 7 of GetGlobal:1; value 0 | \"k\"",
    ),
    (
        "",
        "Echo(GetLocal(5, \"k\"));",
        &[Tell::Text("k")],
        "need 7 of GetLocal:1; value 1 | \"k\"",
    ),
    (
        "macro m(n) -> (r) { r = GetLocal(5, n); } y = m(\"k\");",
        "Echo(y);",
        &[Tell::Text("k")],
        "need 7 of y/m:1/GetLocal:1; value 2 | \"k\"",
    ),
    // Under another path nothing is linked, so that the initial value counts.
    (
        "macro m(n) -> (r) { r = GetLocal(5, n); } macro w() -> (r) { r = m(\"k\"); } y = w();",
        "Echo(y);",
        &[Tell::Text("k")],
        "need 7 of y/w:1/m:1/GetLocal:1; value 8 | \"k\" | 5",
    ),
    (
        "",
        "Echo(GetGlobal(5, \"z\"));",
        &[Tell::Text("z")],
        "need 7 of GetGlobal:1; value 8 | \"z\" | 5",
    ),
    (
        "",
        "Echo(GetGlobal(link = \"z\"));",
        &[Tell::Text("z")],
        "need 7 of GetGlobal:1; value 8 | \"z\" | NULL",
    ),
    // Where something is linked it isn't looked at.
    (
        "",
        "Echo(GetGlobal(Switch(\"x\", 1), \"k\"));",
        &[Tell::Text("k")],
        "need 7 of GetGlobal:1; value 0 | \"k\"",
    ),
];

const NAMES: [Row; 6] = [
    // The name of a Get without one is `#` and its site.
    (
        "x = GetGlobal(5);",
        "Echo(x);",
        &[Tell::Null],
        "need 7 of x/GetGlobal:1; value 3 | NULL",
    ),
    (
        "",
        "Echo(GetLocal(5));",
        &[Tell::Null],
        "need 7 of GetLocal:1; value 4 | NULL",
    ),
    (
        "y = GetGlobal(5);",
        "Echo(y);",
        &[Tell::Null],
        "need 7 of y/GetGlobal:1; value 8 | NULL | 5",
    ),
    // The second result is the name.
    (
        "x, n = GetGlobal(5);",
        "Echo(n, x);",
        &[Tell::Null],
        "need 7 of x/GetGlobal:1; value 8, value 3 | NULL | \"#x/GetGlobal:1\"",
    ),
    (
        "x, n = GetGlobal(5, \"k\");",
        "Echo(n, x);",
        &[Tell::Text("k")],
        "need 7 of x/GetGlobal:1; value 7, value 0 | \"k\"",
    ),
    (
        "x, n = GetGlobal(5, 3);",
        "Echo(n, x);",
        &[Tell::Number(3)],
        "need 7 of x/GetGlobal:1; halt x/GetGlobal:1, halt x/GetGlobal:1 | 3",
    ),
];

const SELECTORS: [Row; 4] = [
    // The value of a selector is needed also where its term is a held value, or the one of a link.
    (
        "",
        "Echo(Switch(GetGlobal(5, \"k\"), 1, 2));",
        &[Tell::Text("k"), Tell::Number(2)],
        "need 7 of GetGlobal:1; need 0 of Switch:1; value 8 | \"k\" | 2",
    ),
    (
        "",
        "Echo(Switch(GetGlobal(5, \"c\"), 1, 2));",
        &[Tell::Text("c"), Tell::Number(2)],
        "need 7 of GetGlobal:1; need 6 of Switch:1; value 8 | \"c\" | 2",
    ),
    (
        "",
        "Echo(Import(GetGlobal(5, \"k\")));",
        &[Tell::Text("k"), Tell::Text("f")],
        "need 7 of GetGlobal:1; need 0 of Import:1; value 9 met 9 Import:1 | \"k\" | NULL | Import 0 8 8 8 8 8 by Import:1",
    ),
    // A Set is what its link argument is.
    (
        "x = SetGlobal(7, \"k\");",
        "Echo(x);",
        &[],
        "value 7 | \"k\"",
    ),
];

#[tactic(auto, using(crate::proofs::Linking::linked_none, crate::proofs::Linking::exact_none))]
fn first_miss(alloc: Global, rows: &[Row]) -> Result<Option<&'static str>, AllocError> {
    for row in rows {
        let mut tags = Tags::new(alloc);
        let links = linked(alloc, &mut tags)?;
        let before = Before {
            links,
            written: Written::new(alloc),
        };
        if !is_so(alloc, *row, &before, &mut tags)? {
            return Ok(Some(row.1));
        }
    }
    Ok(None)
}

#[test]
fn a_get_looks_at_its_key(rt: HostRuntime) -> Result<(), Fail> {
    assert!(rt; first_miss(rt.alloc(), &GETS)?.is_none());
    Ok(())
}

#[test]
fn names_of_links(rt: HostRuntime) -> Result<(), Fail> {
    assert!(rt; first_miss(rt.alloc(), &NAMES)?.is_none());
    Ok(())
}

#[test]
fn links_as_selectors(rt: HostRuntime) -> Result<(), Fail> {
    assert!(rt; first_miss(rt.alloc(), &SELECTORS)?.is_none());
    Ok(())
}
