//! Chains of many nodes, each of which takes the one before.

use crate::looking::count_terms;
use crate::rows::nothing;
use crate::script::graph_of;
use crate::told::Tell;
use dx_tags::Tags;
use std::alloc::{AllocError, Global};
use std::test::Fail;

// How many definitions a chain has. Built, the three take less than a second, but `rt try` may take longer than it allows.
const LONG: u32 = 60_000;

/// How many terms looking at a chain of definitions forms, each selector being told the same.
#[tactic(auto, using(crate::proofs::Linking::linked_none, crate::proofs::Linking::exact_none))]
fn terms_of(alloc: Global, definition: &str, tell: Tell) -> Result<u64, AllocError> {
    let mut text = Vec::new(alloc);
    for _ in 0..LONG {
        text.extend_from_slice(definition.as_bytes())?;
    }
    match graph_of(alloc, text.as_slice(), b"Echo(x);")? {
        Some(g) => count_terms(alloc, &g, &nothing(alloc), &mut Tags::new(alloc), tell),
        None => Ok(0),
    }
}

#[test]
fn long_chains(rt: HostRuntime) -> Result<(), Fail> {
    // A text, NULL and the calls.
    assert!(rt; terms_of(rt.alloc(), "x = Compute(\"a\", x);", Tell::Null)? == 60_002);
    // The number and NULL.
    assert!(rt; terms_of(rt.alloc(), "x = Switch(1, x);", Tell::Number(1))? == 2);
    assert!(rt; terms_of(rt.alloc(), "x = Switch(x, 1);", Tell::Null)? == 1);
    Ok(())
}
