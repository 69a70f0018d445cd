//! The walk by depth first.
ghost use Rattle.std.specs.Prelude.{◌≡◌, slice_get, Some, IfOk, OnOk};
ghost use Rattle.dx_native_fields.specs.Good.{good_fields};
ghost use Rattle.dx_native_fields.specs.Marked.{lines_of, lines_of_body, Tells, TellsAll, AreMarked};
ghost use Rattle.dx_native_grammar.specs.Meaning.{tree_at, named_at, parts_at, clause_at};
ghost use Rattle.dx_native_walk.specs.Answer.{IsKnown};

use crate::marks::Marks;
use dx_fields::check_field;
use dx_native_clauses::{Body, OutlineTable, Part as Line};
use dx_native_lex::Named;
use dx_native_walk::{BuildFail, Memo, build};
use dx_objects::Object;
use std::alloc::{AllocError, Global};

fn body_lines(body: &Body) -> &[Line]
    ensures { result.now ≡ lines_of_body body.now }
{
    match body {
        Body::Array(_) | Body::Text(_) => &[],
        Body::Parts(_, lines) => lines.as_slice(),
    }
}

// The lines of a clause that name its parts.
fn lines(clauses: &OutlineTable, i: usize) -> &[Line]
    ensures { result.now ≡ lines_of (slice_get clauses.now i) }
{
    match clauses.get(i) {
        None => &[],
        Some(clause) => body_lines(&clause.content.body),
    }
}

// An object that was built before is refused for want of memory alone.
fn memory(_fail: BuildFail) -> AllocError {
    AllocError
}

#[cycle(walk)]
fn named_good(
    alloc: Global,
    clauses: &OutlineTable,
    memo: &mut Memo,
    marks: &mut Marks,
    name: &Named,
    calls: u64,
) -> Result<bool, AllocError>
    requires known { IsKnown clauses.now memo.old }
    requires marked { AreMarked clauses.now marks.old }
    ensures tells { IfOk result (λ good. Tells (named_at clauses.now (tree_at clauses.now calls) name.now.text) good) }
    ensures known { OnOk result (IsKnown clauses.now memo.new) }
    ensures marked { OnOk result (AreMarked clauses.now marks.new) }
{
    match clauses.place(&name.text) {
        None => Ok(true),
        Some(i) => clause_good(alloc, clauses, memo, marks, i, calls),
    }
}

#[cycle(walk)]
fn parts_good(
    alloc: Global,
    clauses: &OutlineTable,
    memo: &mut Memo,
    marks: &mut Marks,
    lines: &[Line],
    calls: u64,
) -> Result<bool, AllocError>
    requires known { IsKnown clauses.now memo.old }
    requires marked { AreMarked clauses.now marks.old }
    ensures tells { IfOk result (λ good. TellsAll (parts_at (named_at clauses.now (tree_at clauses.now calls)) lines.now) good) }
    ensures known { OnOk result (IsKnown clauses.now memo.new) }
    ensures marked { OnOk result (AreMarked clauses.now marks.new) }
{
    for line in lines {
        if !named_good(alloc, clauses, memo, marks, &line.target, calls)? {
            return Ok(false);
        }
    }
    Ok(true)
}

// The object of clause number i, whose parts have at most so many levels.
#[cycle(walk)]
fn object_good(
    alloc: Global,
    clauses: &OutlineTable,
    memo: &mut Memo,
    marks: &mut Marks,
    object: &Object,
    i: usize,
    calls: u64,
) -> Result<bool, AllocError>
    requires known { IsKnown clauses.now memo.old }
    requires marked { AreMarked clauses.now marks.old }
    requires means { clause_at calls (named_at clauses.now (tree_at clauses.now calls)) (slice_get clauses.now i) ≡ Some object.now }
    ensures good { IfOk result (λ good. good ≡ good_fields object.now) }
    ensures known { OnOk result (IsKnown clauses.now memo.new) }
    ensures marked { OnOk result (AreMarked clauses.now marks.new) }
{
    match check_field(object) {
        Err(_) => Ok(false),
        Ok(()) => parts_good(alloc, clauses, memo, marks, lines(clauses, i), calls),
    }
}

// The object of clause number i, of at most so many levels.
#[cycle(walk)]
fn clause_good(
    alloc: Global,
    clauses: &OutlineTable,
    memo: &mut Memo,
    marks: &mut Marks,
    i: usize,
    calls: u64,
) -> Result<bool, AllocError>
    requires known { IsKnown clauses.now memo.old }
    requires marked { AreMarked clauses.now marks.old }
    ensures tells { IfOk result (λ good. Tells (tree_at clauses.now calls i) good) }
    ensures known { OnOk result (IsKnown clauses.now memo.new) }
    ensures marked { OnOk result (AreMarked clauses.now marks.new) }
{
    if calls == 0 || i >= clauses.len() {
        return Ok(true);
    }
    let object = build(alloc, clauses, memo, i, calls).map_err(memory)?;
    if marks.is_marked(i) {
        return Ok(true);
    }
    let good = object_good(alloc, clauses, memo, marks, &object, i, calls - 1)?;
    if !good {
        return Ok(false);
    }
    marks.mark(i);
    Ok(true)
}

/// Whether this object, which clause number i means, is no field with a fault, and none that its parts reach is one. What is
/// built already is kept in `memo`, and taken from there.
pub fn has_good_fields(
    alloc: Global,
    clauses: &OutlineTable,
    memo: &mut Memo,
    i: usize,
    object: &Object,
) -> Result<bool, AllocError>
    requires known { IsKnown clauses.now memo.old }
    requires means { tree_at clauses.now 64 i ≡ Some object.now }
    ensures good { IfOk result (λ good. good ≡ good_fields object.now) }
    ensures known { OnOk result (IsKnown clauses.now memo.new) }
{
    let mut marks = Marks::new(alloc, clauses.len())?;
    object_good(alloc, clauses, memo, &mut marks, object, i, 63)
}
