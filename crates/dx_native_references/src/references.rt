//! The first reference of a file that names no object, or one that can't stand there.

ghost use Rattle.std.specs.Prelude.{◌≡◌, None, Some, MatchOption, slice_get};
ghost use Rattle.dx_native_grammar.specs.Meaning as spec;

use dx_base::NativeKind;
use dx_native_clauses::{
    Attribute, Body, Clause, ClauseTable, Content, FileClauses, Given, ListClass, Part,
};
use dx_native_lex::{Named, NativeError};

/// The one that stands first.
fn earlier(first: Option<NativeError>, second: Option<NativeError>) -> Option<NativeError>
    ensures { result ≡ spec.earlier first second }
{
    match (first, second) {
        (None, _) => second,
        (Some(_), None) => first,
        (Some(e), Some(g)) => { if e.at <= g.at { first } else { second } }
    }
}

fn is_array_body(body: &Body) -> bool
    ensures { result ≡ spec.is_array_body body.now }
{
    match body {
        Body::Array(_) => true,
        _ => false,
    }
}

fn is_field_body(body: &Body) -> bool
    ensures { result ≡ spec.is_field_body body.now }
{
    match body {
        Body::Parts(ListClass::Field, _) => true,
        _ => false,
    }
}

fn is_array_clause(clauses: &[Clause], i: usize) -> bool
    ensures { result ≡ spec.has_body spec.is_array_body (slice_get clauses.now i) }
{
    match clauses.get(i) {
        None => false,
        Some(clause) => is_array_body(&clause.content.body),
    }
}

fn is_field_clause(clauses: &[Clause], i: usize) -> bool
    ensures { result ≡ spec.has_body spec.is_field_body (slice_get clauses.now i) }
{
    match clauses.get(i) {
        None => false,
        Some(clause) => is_field_body(&clause.content.body),
    }
}

fn fault(kind: NativeKind, name: &Named) -> Option<NativeError>
    ensures { result ≡ Some (record { kind = kind; at = name.now.at }) }
{
    Some(NativeError { kind, at: name.at })
}

fn reference_fault(clauses: &ClauseTable, name: &Named) -> Option<NativeError>
    ensures { result ≡ spec.reference_fault clauses.now name.now }
{
    match clauses.place(&name.text) {
        None => fault(NativeKind::NoObject, name),
        Some(_) => None,
    }
}

fn component_fault(clauses: &ClauseTable, name: &Named) -> Option<NativeError>
    ensures { result ≡ spec.component_fault clauses.now name.now }
{
    match clauses.place(&name.text) {
        None => fault(NativeKind::NoObject, name),
        Some(i) if is_array_clause(clauses.as_slice(), i) => None,
        Some(_) => fault(NativeKind::BadPart, name),
    }
}

fn field_fault(clauses: &ClauseTable, name: &Named) -> Option<NativeError>
    ensures { result ≡ spec.field_fault clauses.now name.now }
{
    match clauses.place(&name.text) {
        None => fault(NativeKind::NoObject, name),
        Some(i) if is_field_clause(clauses.as_slice(), i) => None,
        Some(_) => fault(NativeKind::BadPart, name),
    }
}

fn part_fault(clauses: &ClauseTable, class: ListClass, name: &Named) -> Option<NativeError>
    ensures { result ≡ spec.part_fault clauses.now class name.now }
{
    match class {
        ListClass::Field => component_fault(clauses, name),
        ListClass::Composite => field_fault(clauses, name),
        ListClass::Group | ListClass::Series => reference_fault(clauses, name),
    }
}

#[tactic(auto, using(crate::proofs::Earlier::earlier_assoc, crate::proofs::Earlier::earlier_none))]
fn parts_fault(clauses: &ClauseTable, class: ListClass, parts: &[Part]) -> Option<NativeError>
    ensures { result ≡ spec.parts_fault clauses.now class parts.now }
{
    let mut found = None;
    for part in parts {
        found = earlier(found, part_fault(clauses, class, &part.target));
    }
    found
}

fn given_fault(clauses: &ClauseTable, given: &Given) -> Option<NativeError>
    ensures { result ≡ spec.given_fault clauses.now given.now }
{
    match given {
        Given::Text(_) | Given::Number(_) => None,
        Given::Object(name) => reference_fault(clauses, name),
    }
}

#[tactic(auto, using(crate::proofs::Earlier::earlier_assoc, crate::proofs::Earlier::earlier_none))]
fn attributes_fault(clauses: &ClauseTable, attributes: &[Attribute]) -> Option<NativeError>
    ensures { result ≡ spec.attributes_fault clauses.now attributes.now }
{
    let mut found = None;
    for attribute in attributes {
        found = earlier(found, given_fault(clauses, &attribute.value));
    }
    found
}

fn body_fault(clauses: &ClauseTable, body: &Body) -> Option<NativeError>
    ensures { result ≡ spec.body_fault clauses.now body.now }
{
    match body {
        Body::Array(_) | Body::Text(_) => None,
        Body::Parts(class, parts) => parts_fault(clauses, *class, parts.as_slice()),
    }
}

fn content_fault(clauses: &ClauseTable, content: &Content) -> Option<NativeError>
    ensures { result ≡ spec.content_fault clauses.now content.now }
{
    earlier(
        body_fault(clauses, &content.body),
        attributes_fault(clauses, content.attributes.as_slice()),
    )
}

#[tactic(auto, using(crate::proofs::Earlier::earlier_assoc, crate::proofs::Earlier::earlier_none))]
fn clauses_fault(clauses: &ClauseTable, rest: &[Clause]) -> Option<NativeError>
    ensures { result ≡ spec.clauses_fault clauses.now rest.now }
{
    let mut found = None;
    for clause in rest {
        found = earlier(found, content_fault(clauses, &clause.content));
    }
    found
}

fn default_fault(clauses: &ClauseTable, default: &Option<Named>) -> Option<NativeError>
    ensures { result ≡ spec.default_fault clauses.now default.now }
{
    match default {
        None => None,
        Some(name) => reference_fault(clauses, name),
    }
}

/// The first reference of a file that names no object, or as a component no array, or as a member of a composite group no
/// field; the last `default` is a reference too.
pub fn references_fault(file: &FileClauses) -> Option<NativeError>
    ensures { result ≡ spec.references_fault file.now }
{
    earlier(
        clauses_fault(&file.clauses, file.clauses.as_slice()),
        default_fault(&file.clauses, &file.default),
    )
}
