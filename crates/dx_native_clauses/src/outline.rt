//! The clauses of a file whose arrays were taken out of them.

ghost use Rattle.std.specs.Prelude.{◌≡◌, Some, None, MatchOption, IfOk, length, position, bytes_eq, slice_get};
ghost use Rattle.dx_native_grammar.specs.Names.{clause_names};
ghost use Rattle.dx_native_clauses.specs.Outline as spec;
ghost use Rattle.dx_native_clauses.specs.Outline.{IsOutlineAt};

use crate::origin::Origin;
use crate::table::ClauseTable;
use dx_arrays::{Array, ElemType, Shape};
use dx_base::{Bytes, Items};
use dx_native_grammar::{Body, Clause, Content};
use dx_native_listing::NameSet;
use std::alloc::{AllocError, Global};
use std::marker::Model;

/// Clauses whose arrays stand apart. Contracts see the clauses whole, as they were before.
#[derive(Drop)]
pub struct OutlineTable {
    items: Items<Clause>,
    names: NameSet,
    origin: Origin,
}

impl Model for OutlineTable {
    ghost use Rattle.std.specs.Prelude.{◌≡◌, List};
    ghost use Rattle.dx_native_grammar.specs.Names.{clause_names};
    ghost use Rattle.dx_native_grammar.specs.declared.clause.Clause.{Clause as Plain};
    ghost use Rattle.dx_native_clauses.specs.Outline.{outlines};

    ghost Value = { List Plain };

    ghost view = { λ p. p.origin.clauses };

    ghost invariant = { λ p. (p.items ≡ outlines p.origin.clauses) × (p.names ≡ clause_names p.origin.clauses) };
}

/// Clauses and their arrays apart.
#[derive(Drop)]
pub struct Lifted {
    pub outlines: OutlineTable,
    pub arrays: Vec<Option<Array>>,
}

fn no_items(alloc: Global) -> Array
    ensures { result ≡ spec.no_items }
{
    Array::plain(ElemType::Byte, Shape::new(alloc), Vec::new(alloc)).unwrap()
}

/// A body without its array, and the array.
fn apart(alloc: Global, body: Body) -> (Body, Option<Array>)
    ensures outline { result.0 ≡ spec.outline_body body }
    ensures array { result.1 ≡ spec.array_in body }
{
    match body {
        Body::Array(array) => (Body::Array(no_items(alloc)), Some(array)),
        Body::Text(text) => (Body::Text(text), None),
        Body::Parts(class, lines) => (Body::Parts(class, lines), None),
    }
}

/// A clause without its array, and the array.
fn clause_apart(alloc: Global, clause: Clause) -> (Clause, Option<Array>)
    ensures outline { result.0 ≡ spec.outline clause }
    ensures array { result.1 ≡ spec.clause_array clause }
{
    let Clause { name, content } = clause;
    let Content { body, attributes } = content;
    let (body, array) = apart(alloc, body);
    let content = Content { body, attributes };
    (Clause { name, content }, array)
}

/// Clauses without their arrays, and the arrays by the places of their clauses.
fn all_apart(
    alloc: Global,
    clauses: Vec<Clause>,
) -> Result<(Items<Clause>, Vec<Option<Array>>), AllocError>
    ensures outlines { IfOk result (λ r. r.0 ≡ spec.outlines clauses.items) }
    ensures arrays { IfOk result (λ r. r.1.items ≡ spec.clause_arrays clauses.items) }
{
    let mut outlines = Items::new(alloc);
    let mut arrays = Vec::new(alloc);
    for clause in clauses {
        let (outline, array) = clause_apart(alloc, clause);
        outlines.push(outline)?;
        arrays.push(array)?;
    }
    Ok((outlines, arrays))
}

impl ClauseTable {
    /// The arrays are moved out of their clauses. No values are copied.
    pub fn lifted(self, alloc: Global) -> Result<Lifted, AllocError>
        ensures outlines { IfOk result (λ l. l.outlines ≡ self) }
        ensures arrays { IfOk result (λ l. l.arrays.items ≡ spec.clause_arrays self) }
    {
        let origin = Origin::of(&self);
        let ClauseTable { items, names } = self;
        let (items, arrays) = all_apart(alloc, items.into_vec())?;
        let outlines = OutlineTable {
            items,
            names,
            origin,
        };
        Ok(Lifted { outlines, arrays })
    }
}

impl OutlineTable {
    pub fn len(&self) -> usize
        ensures { result ≡ length self.now }
    {
        self.items.len()
    }

    /// The place of the clause of this name.
    pub fn place(&self, name: &Bytes) -> Option<usize>
        ensures { result ≡ position (bytes_eq name.now) (clause_names self.now) }
    {
        self.names.place(name)
    }

    /// Clause number i without its array.
    pub fn get(&self, i: usize) -> Option<&Clause>
        ensures { MatchOption result (slice_get self.now i ≡ None) (λ c. IsOutlineAt self.now i c.now) }
    {
        self.items.as_slice().get(i)
    }
}
