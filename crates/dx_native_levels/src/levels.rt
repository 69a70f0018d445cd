//! The levels of objects, each clause's counted once.

ghost use Rattle.std.specs.Prelude.{◌≡◌, ◌+◌, ◌<◌, ◌≤◌, Some, None, IfOk, IfSome, MatchOption, option_map, length, slice_get, slice_index_or, slice_set};
ghost use Rattle.dx_base.specs.Object.{levels as spec_levels, deepest as spec_deepest};
ghost use Rattle.dx_native_grammar.specs.Meaning.{tree_at, named_at, parts_at, given_at, attributes_at, clause_at};
ghost use Rattle.dx_native_levels.specs.Levels.{IsCounted, parts_in};

use dx_native_clauses::{Attribute, Body, Clause, ClauseTable, Given, Part};
use dx_native_lex::Named;
use std::alloc::{AllocError, Global};

fn clause_of(clauses: &ClauseTable, i: usize) -> Option<&Clause>
    ensures { MatchOption result (slice_get clauses.now i ≡ None) (λ c. slice_get clauses.now i ≡ Some c.now) }
{
    clauses.as_slice().get(i)
}

/// The number, where it is no more than these.
fn at_most(n: u64, calls: u64) -> Option<u64>
    ensures few { IfSome result (λ m. (m ≡ n) × (n ≤ calls)) }
    ensures many { result ≡ None → calls < n }
{
    if n <= calls { Some(n) } else { None }
}

fn known_levels(known: &[u64], i: usize) -> u64
    requires { i < length known.now }
    ensures { result ≡ slice_index_or known.now i 0 }
{
    known[i]
}

fn set_levels(known: &mut [u64], i: usize, n: u64)
    requires { i < length known.old }
    ensures { known.new ≡ slice_set known.old i n }
{
    known[i] = n;
}

#[cycle(levels)]
fn named_levels(clauses: &ClauseTable, known: &mut [u64], name: &Named, calls: u64) -> Option<u64>
    requires few { calls ≤ 64 }
    requires known { IsCounted clauses.now known.old }
    ensures levels { result ≡ option_map spec_levels (named_at clauses.now (tree_at clauses.now calls) name.now.text) }
    ensures few { IfSome result (λ n. n ≤ calls) }
    ensures known { IsCounted clauses.now known.new }
{
    match clauses.place(&name.text) {
        Some(i) => levels(clauses, known, i, calls),
        None => None,
    }
}

#[cycle(levels)]
fn part_levels(clauses: &ClauseTable, known: &mut [u64], parts: &[Part], calls: u64) -> Option<u64>
    requires few { calls ≤ 64 }
    requires known { IsCounted clauses.now known.old }
    ensures levels { result ≡ option_map spec_deepest (parts_at (named_at clauses.now (tree_at clauses.now calls)) parts.now) }
    ensures few { IfSome result (λ n. n ≤ calls) }
    ensures known { IsCounted clauses.now known.new }
{
    let mut deepest = 0;
    for part in parts {
        let one = named_levels(clauses, known, &part.target, calls)?;
        deepest = one.max(deepest);
    }
    Some(deepest)
}

#[cycle(levels)]
fn given_levels(clauses: &ClauseTable, known: &mut [u64], value: &Given, calls: u64) -> Option<u64>
    requires few { calls ≤ 64 }
    requires known { IsCounted clauses.now known.old }
    ensures levels { result ≡ option_map spec_levels (given_at calls (named_at clauses.now (tree_at clauses.now calls)) value.now) }
    ensures few { IfSome result (λ n. n ≤ calls) }
    ensures known { IsCounted clauses.now known.new }
{
    if calls == 0 {
        return None;
    }
    match value {
        Given::Text(_) | Given::Number(_) => Some(1),
        Given::Object(name) => named_levels(clauses, known, name, calls),
    }
}

#[cycle(levels)]
fn attribute_levels(
    clauses: &ClauseTable,
    known: &mut [u64],
    attributes: &[Attribute],
    calls: u64,
) -> Option<u64>
    requires few { calls ≤ 64 }
    requires known { IsCounted clauses.now known.old }
    ensures levels { result ≡ option_map spec_deepest (attributes_at calls (named_at clauses.now (tree_at clauses.now calls)) attributes.now) }
    ensures few { IfSome result (λ n. n ≤ calls) }
    ensures known { IsCounted clauses.now known.new }
{
    let mut deepest = 0;
    for attribute in attributes {
        let one = given_levels(clauses, known, &attribute.value, calls)?;
        deepest = one.max(deepest);
    }
    Some(deepest)
}

#[cycle(levels)]
fn body_levels(clauses: &ClauseTable, known: &mut [u64], body: &Body, calls: u64) -> Option<u64>
    requires few { calls ≤ 64 }
    requires known { IsCounted clauses.now known.old }
    ensures levels { result ≡ option_map spec_deepest (parts_in (named_at clauses.now (tree_at clauses.now calls)) body.now) }
    ensures few { IfSome result (λ n. n ≤ calls) }
    ensures known { IsCounted clauses.now known.new }
{
    match body {
        Body::Array(_) | Body::Text(_) => Some(0),
        Body::Parts(_, parts) => part_levels(clauses, known, parts.as_slice(), calls),
    }
}

#[cycle(levels)]
fn clause_levels(
    clauses: &ClauseTable,
    known: &mut [u64],
    clause: &Clause,
    calls: u64,
) -> Option<u64>
    requires few { calls ≤ 64 }
    requires known { IsCounted clauses.now known.old }
    ensures levels { result ≡ option_map spec_levels (clause_at calls (named_at clauses.now (tree_at clauses.now calls)) (Some clause.now)) }
    ensures few { IfSome result (λ n. (0 < n) × (n ≤ calls + 1)) }
    ensures known { IsCounted clauses.now known.new }
{
    let parts = body_levels(clauses, known, &clause.content.body, calls)?;
    let others = attribute_levels(clauses, known, clause.content.attributes.as_slice(), calls)?;
    Some(1 + parts.max(others))
}

/// The levels of clause number i, if it has at most so many. The list keeps those that are known, and 0 for others.
#[cycle(levels)]
fn levels(clauses: &ClauseTable, known: &mut [u64], i: usize, calls: u64) -> Option<u64>
    requires few { calls ≤ 64 }
    requires known { IsCounted clauses.now known.old }
    ensures levels { result ≡ option_map spec_levels (tree_at clauses.now calls i) }
    ensures few { IfSome result (λ n. n ≤ calls) }
    ensures known { IsCounted clauses.now known.new }
{
    let clause = clause_of(clauses, i)?;
    let before = known_levels(known, i);
    if before > 0 {
        return at_most(before, calls);
    }
    if calls == 0 {
        return None;
    }
    let count = clause_levels(clauses, known, clause, calls - 1)?;
    set_levels(known, i, count);
    Some(count)
}

/// The levels of the object of clause number i, if it has at most 64. No object is made for it.
pub fn object_levels(
    alloc: Global,
    clauses: &ClauseTable,
    i: usize,
) -> Result<Option<u64>, AllocError>
    ensures { IfOk result (λ n. n ≡ option_map spec_levels (tree_at clauses.now 64 i)) }
{
    let mut known = vec![in alloc; 0u64; clauses.as_slice().len()]?;
    Ok(levels(clauses, &mut known, i, 64))
}
