//! Import: its name is a selector, and a written file stands in its term.

ghost use Rattle.std.specs.Prelude.{◌≡◌, [], IfOk};

use crate::looking::Before;
use crate::rows::{Row, first_miss, is_so};
use crate::told::Tell;
use dx_base::Bytes;
use dx_links::Links;
use dx_tags::{Content, Tags, Written};
use std::alloc::{AllocError, Global};
use std::test::Fail;

const NAMES: [Row; 5] = [
    // The value of the name is needed though it is a constant.
    (
        "",
        "Echo(Import(\"f\"));",
        &[Tell::Text("f")],
        "need 0 of Import:1; value 2 met 2 Import:1 | \"f\" | NULL | Import 0 1 1 1 1 1 by Import:1",
    ),
    // Any value is one that the module is called with, so that the name never halts.
    (
        "",
        "Echo(Import(7));",
        &[Tell::Number(7)],
        "need 0 of Import:1; value 2 met 2 Import:1 | 7 | NULL | Import 0 1 1 1 1 1 by Import:1",
    ),
    (
        "",
        "Echo(Import(NULL));",
        &[Tell::Null],
        "need 0 of Import:1; value 1 met 1 Import:1 | NULL | Import 0 0 0 0 0 0 by Import:1",
    ),
    // The name is looked at before the other arguments, and where it is off, so is the call.
    (
        "p, q = Route(2, \"f\");",
        "Echo(Import(p, Switch(1, \"v\")));",
        &[Tell::Number(2)],
        "need 0 of p/Route:1; off | 2",
    ),
    (
        "",
        "Echo(Import(\"f\", Switch(1, \"v\")));",
        &[Tell::Text("f"), Tell::Number(1)],
        "need 0 of Import:1; need 1 of Switch:1; value 4 met 4 Import:1 | \"f\" | 1 | \"v\" | NULL | Import 0 2 3 3 3 3 by Import:1",
    ),
];

#[test]
fn a_name_is_a_selector(rt: HostRuntime) -> Result<(), Fail> {
    assert!(rt; first_miss(rt.alloc(), &NAMES)?.is_none());
    Ok(())
}

fn put(written: &mut Written, name: Bytes, content: Content) -> Result<(), AllocError> {
    written.reserve(1)?;
    written.put(name, content);
    Ok(())
}

// These bytes stand under the name `o`.
fn one_written(alloc: Global) -> Result<Before, AllocError>
    ensures { IfOk result (λ before. before.links.links ≡ []) }
{
    let mut written = Written::new(alloc);
    let content = Content::new(alloc, Bytes::copy_of(alloc, b"BYTES")?)?;
    put(&mut written, Bytes::copy_of(alloc, b"o")?, content)?;
    Ok(Before {
        links: Links::new(alloc),
        written,
    })
}

const WRITTEN: [Row; 3] = [
    // The bytes are formed directly before the call, and stand behind its arguments.
    (
        "",
        "Echo(Import(\"o\"));",
        &[Tell::Text("o")],
        "need 0 of Import:1; value 3 met 3 Import:1 | \"o\" | NULL | file BYTES | Import 0 1 1 1 1 1 2 by Import:1",
    ),
    (
        "",
        "Echo(Import(\"p\"));",
        &[Tell::Text("p")],
        "need 0 of Import:1; value 2 met 2 Import:1 | \"p\" | NULL | Import 0 1 1 1 1 1 by Import:1",
    ),
    // They aren't formed where the call isn't.
    (
        "p, q = Route(2, 1);",
        "Echo(Import(\"o\", p));",
        &[Tell::Text("o"), Tell::Number(2)],
        "need 0 of Import:1; need 1 of p/Route:1; off | \"o\" | 2",
    ),
];

#[tactic(auto, using(crate::proofs::Linking::linked_none, crate::proofs::Linking::exact_none))]
fn first_miss_written(alloc: Global, rows: &[Row]) -> Result<Option<&'static str>, AllocError> {
    for row in rows {
        let before = one_written(alloc)?;
        let mut tags = Tags::new(alloc);
        if !is_so(alloc, *row, &before, &mut tags)? {
            return Ok(Some(row.1));
        }
    }
    Ok(None)
}

#[test]
fn a_written_file_stands_in_the_term(rt: HostRuntime) -> Result<(), Fail> {
    assert!(rt; first_miss_written(rt.alloc(), &WRITTEN)?.is_none());
    Ok(())
}
