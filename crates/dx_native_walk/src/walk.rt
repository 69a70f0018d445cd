//! The walk.

ghost use Rattle.std.specs.Prelude.{◌≡◌, List, OnOk, slice_get, Some, None, IfOk};
ghost use Rattle.dx_base.specs.ObjectLimits.{unplaced};
ghost use Rattle.dx_native_grammar.specs.declared.clause.Clause.{Clause as Lines};
ghost use Rattle.dx_native_grammar.specs.Meaning.{tree_at, named_at, parts_at, attributes_at, given_at, clause_at};
ghost use Rattle.dx_native_clauses.specs.Outline.{IsOutlineAt, clause_arrays};
ghost use Rattle.dx_native_walk.specs.Answer.{IsKnown, IsKnownBut, Builds, BuildsParts, BuildsObject, Fits, content_at};
ghost use Rattle.dx_objects.specs.Kinds.{array_of};

use crate::fail::BuildFail;
use crate::memo::Memo;
use crate::objects::{array_object, listed_object, number_object, text_object};
use dx_base::Bytes;
use dx_native_clauses::{Attribute, Body, Clause, Given, OutlineTable, Part as Line};
use dx_native_lex::Named;
use dx_objects::{Array, Object, Part, Parts};
use std::alloc::{AllocError, Global};
use std::rc::Rc;

/// The object that is built already, if it has no more levels than these.
fn built(object: &Rc<Object>, calls: u64) -> Result<Rc<Object>, BuildFail>
    ensures { Fits object.now.value calls result }
{
    if object.levels() > calls {
        return Err(BuildFail::Deep);
    }
    Ok(object.clone()?)
}

#[cycle(build)]
fn named(
    alloc: Global,
    clauses: &OutlineTable,
    memo: &mut Memo,
    name: &Named,
    calls: u64,
) -> Result<Rc<Object>, BuildFail>
    requires { IsKnown clauses.now memo.old }
    ensures built { Builds (named_at clauses.now (tree_at clauses.now calls) name.now.text) result }
    ensures known { OnOk result (IsKnown clauses.now memo.new) }
{
    match clauses.place(&name.text) {
        Some(i) => build(alloc, clauses, memo, i, calls),
        None => Err(BuildFail::Deep),
    }
}

fn name_copy(alloc: Global, name: &Option<Bytes>) -> Result<Option<Bytes>, AllocError>
    ensures { IfOk result (λ n. n ≡ name.now) }
{
    match name {
        None => Ok(None),
        Some(bytes) => Ok(Some(Bytes::copy_of(alloc, bytes.bytes())?)),
    }
}

#[cycle(build)]
fn parts(
    alloc: Global,
    clauses: &OutlineTable,
    memo: &mut Memo,
    lines: &[Line],
    calls: u64,
) -> Result<Parts, BuildFail>
    requires { IsKnown clauses.now memo.old }
    ensures built { BuildsParts (parts_at (named_at clauses.now (tree_at clauses.now calls)) lines.now) result }
    ensures known { OnOk result (IsKnown clauses.now memo.new) }
{
    let mut parts = Parts::new(alloc);
    for line in lines {
        let object = named(alloc, clauses, memo, &line.target, calls)?;
        let name = name_copy(alloc, &line.name)?;
        parts.push(Part {
            name,
            position: line.position,
            object,
        })?;
    }
    Ok(parts)
}

#[cycle(build)]
fn given(
    alloc: Global,
    clauses: &OutlineTable,
    memo: &mut Memo,
    value: &Given,
    calls: u64,
) -> Result<Rc<Object>, BuildFail>
    requires { IsKnown clauses.now memo.old }
    ensures built { Builds (given_at calls (named_at clauses.now (tree_at clauses.now calls)) value.now) result }
    ensures known { OnOk result (IsKnown clauses.now memo.new) }
{
    if calls == 0 {
        return Err(BuildFail::Deep);
    }
    match value {
        Given::Text(text) => {
            let object = text_object(alloc, text, Parts::new(alloc))?;
            Ok(Rc::new(alloc, object)?)
        }
        Given::Number(number) => Ok(number_object(alloc, *number)?),
        Given::Object(name) => named(alloc, clauses, memo, name, calls),
    }
}

#[cycle(build)]
fn attributes(
    alloc: Global,
    clauses: &OutlineTable,
    memo: &mut Memo,
    lines: &[Attribute],
    calls: u64,
) -> Result<Parts, BuildFail>
    requires { IsKnown clauses.now memo.old }
    ensures built { BuildsParts (attributes_at calls (named_at clauses.now (tree_at clauses.now calls)) lines.now) result }
    ensures known { OnOk result (IsKnown clauses.now memo.new) }
{
    let mut parts = Parts::new(alloc);
    for line in lines {
        let object = given(alloc, clauses, memo, &line.value, calls)?;
        let name = Bytes::copy_of(alloc, line.name.bytes())?;
        parts.push(Part {
            name: Some(name),
            position: 0,
            object,
        })?;
    }
    Ok(parts)
}

/// The object of clause number i with these attributes. Its array is kept no more.
#[cycle(build)]
fn body_object(
    alloc: Global,
    clauses: &OutlineTable,
    memo: &mut Memo,
    i: usize,
    clause: &Clause,
    attributes: Parts,
    calls: u64,
) -> Result<Object, BuildFail>
    requires known { IsKnown clauses.now memo.old }
    requires outline { IsOutlineAt clauses.now i clause.now }
    ensures built { BuildsObject (content_at (named_at clauses.now (tree_at clauses.now calls)) (slice_get clauses.now i) (Some (unplaced attributes))) result }
    ensures others { OnOk result (IsKnownBut clauses.now i memo.new) }
    ensures known { IfOk result (λ t. array_of t ≡ None → IsKnown clauses.now memo.new) }
{
    match &clause.content.body {
        Body::Array(_) => match memo.take_array(i) {
            Some(array) => array_object(array, attributes),
            // No array waits where the clause's object is kept. That never comes: `build` takes an object that is kept, and
            // the walk of the clause's own attributes keeps one in a cycle alone, which reading has refused before.
            None => Err(BuildFail::Memory),
        },
        Body::Text(text) => text_object(alloc, text, attributes),
        Body::Parts(class, lines) => {
            let parts = parts(alloc, clauses, memo, lines.as_slice(), calls)?;
            listed_object(*class, parts, attributes)
        }
    }
}

/// The object of clause number i, whose parts and attributes have at most so many levels. Its array is kept no more.
#[cycle(build)]
fn object_of(
    alloc: Global,
    clauses: &OutlineTable,
    memo: &mut Memo,
    i: usize,
    clause: &Clause,
    calls: u64,
) -> Result<Object, BuildFail>
    requires known { IsKnown clauses.now memo.old }
    requires outline { IsOutlineAt clauses.now i clause.now }
    ensures built { BuildsObject (clause_at calls (named_at clauses.now (tree_at clauses.now calls)) (slice_get clauses.now i)) result }
    ensures others { OnOk result (IsKnownBut clauses.now i memo.new) }
    ensures known { IfOk result (λ t. array_of t ≡ None → IsKnown clauses.now memo.new) }
{
    let lines = clause.content.attributes.as_slice();
    let others = attributes(alloc, clauses, memo, lines, calls)?;
    body_object(alloc, clauses, memo, i, clause, others, calls)
}

/// The object of clause number i, of at most so many levels: the one that is kept, else it is built and kept.
#[cycle(build)]
pub fn build(
    alloc: Global,
    clauses: &OutlineTable,
    memo: &mut Memo,
    i: usize,
    calls: u64,
) -> Result<Rc<Object>, BuildFail>
    requires { IsKnown clauses.now memo.old }
    ensures built { Builds (tree_at clauses.now calls i) result }
    ensures known { OnOk result (IsKnown clauses.now memo.new) }
{
    let Some(clause) = clauses.get(i) else {
        return Err(BuildFail::Deep);
    };
    if let Some(object) = memo.kept(i) {
        return built(object, calls);
    }
    if calls == 0 {
        return Err(BuildFail::Deep);
    }
    let object = Rc::new(
        alloc,
        object_of(alloc, clauses, memo, i, clause, calls - 1)?,
    )?;
    memo.set(i, object.clone()?);
    Ok(object)
}

/// The arrays of clauses wait for their objects, none of which is built.
pub fn nothing_built(alloc: Global, arrays: Vec<Option<Array>>) -> Result<Memo, AllocError>
    ensures { (cs : List Lines) → arrays.items ≡ clause_arrays cs → IfOk result (λ memo. IsKnown cs memo) }
{
    Memo::new(alloc, arrays)
}

/// The object of clause number i, of at most 64 levels. All that its parts and attributes name is kept; it itself isn't.
/// The array of a clause moves into the object, so an array is built once. Where the object of an array's clause is kept
/// already, this answers `Memory`.
pub fn clause_object(
    alloc: Global,
    clauses: &OutlineTable,
    memo: &mut Memo,
    i: usize,
) -> Result<Object, BuildFail>
    requires { IsKnown clauses.now memo.old }
    ensures built { BuildsObject (tree_at clauses.now 64 i) result }
    ensures known { IfOk result (λ t. array_of t ≡ None → IsKnown clauses.now memo.new) }
{
    match clauses.get(i) {
        None => Err(BuildFail::Deep),
        Some(clause) => object_of(alloc, clauses, memo, i, clause, 63),
    }
}
