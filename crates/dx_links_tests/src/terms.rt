//! Terms and their tags: equal terms have one tag, and different terms two.
ghost use Rattle.std.specs.Prelude.{◌≡◌, ◌∷◌, [], IfOk, IsTrue, length};
ghost use Rattle.dx_ast.specs.Lawful.{IsLawfulConst};
ghost use Rattle.dx_tags.specs.Closed.{AllFormed, Fits, IsFormed, heads_of};

use dx_ast::Const;
use dx_base::{Bytes, Module, Shared};
use dx_tags::{Content, Named, Tag, Tags, Term, ValueTag, ValueTags};
use std::alloc::Global;
use std::test::Fail;

// A term.
#[derive(Clone, Copy)]
enum Row {
    Null,
    Int(i32),
    // The vector of this one number.
    Vector(i32),
    // The list of this one number.
    Ints(i32),
    Held(u64),
    File(&'static [u8]),
    // A call of one argument, which is so much of a tag.
    Call(Module, Tag, u32),
}

fn one(alloc: Global, n: i32) -> Result<Shared<i32>, Fail>
    ensures { IfOk result (λ list. list ≡ n ∷ []) }
{
    let mut list = Vec::new(alloc);
    list.push(n)?;
    Ok(Shared::from_vec(alloc, list)?)
}

fn vector(alloc: Global, n: i32) -> Result<Const, Fail>
    ensures { IfOk result (λ c. ∥ IsLawfulConst c ∥₁) }
{
    Ok(Const::Vector(one(alloc, n)?))
}

fn list(alloc: Global, n: i32) -> Result<Const, Fail>
    ensures { IfOk result (λ c. ∥ IsLawfulConst c ∥₁) }
{
    Ok(Const::Ints(one(alloc, n)?))
}

fn file(alloc: Global, bytes: &'static [u8]) -> Result<Term, Fail>
    ensures { (tags : _) → IfOk result (λ t. IsFormed (heads_of tags) (length tags) t) }
{
    Ok(Term::File(Content::new(alloc, Bytes::copy_of(alloc, bytes)?)?))
}

// Whether this value is there, which has result 0 where its term is no call.
fn is_there(tags: &Tags, t: ValueTag) -> bool
    requires formed { AllFormed tags.now }
    ensures { IsTrue result → Fits tags.now t }
{
    if t.tag >= tags.count() {
        return false;
    }
    match tags.term(t.tag) {
        Named::Formed(Term::Call(_, _)) => true,
        _ => t.result == 0,
    }
}

fn call(alloc: Global, tags: &Tags, called: Module, t: ValueTag) -> Result<Term, Fail>
    requires formed { AllFormed tags.now }
    ensures { IfOk result (λ t. IsFormed (heads_of tags.now) (length tags.now) t) }
{
    if !is_there(tags, t) {
        return Err(Fail::from("no such value"));
    }
    let mut arguments = ValueTags::new(alloc);
    arguments.push(t)?;
    Ok(Term::Call(called, arguments))
}

fn term(alloc: Global, tags: &Tags, row: Row) -> Result<Term, Fail>
    requires formed { AllFormed tags.now }
    ensures { IfOk result (λ t. IsFormed (heads_of tags.now) (length tags.now) t) }
{
    match row {
        Row::Null => Ok(Term::Constant(Const::Null)),
        Row::Int(n) => Ok(Term::Constant(Const::Int(n))),
        Row::Vector(n) => Ok(Term::Constant(vector(alloc, n)?)),
        Row::Ints(n) => Ok(Term::Constant(list(alloc, n)?)),
        Row::Held(n) => Ok(Term::Held(n)),
        Row::File(bytes) => file(alloc, bytes),
        Row::Call(called, tag, part) => call(alloc, tags, called, ValueTag { tag, result: part }),
    }
}

fn tag_of(alloc: Global, tags: &mut Tags, row: Row) -> Result<Tag, Fail>
    requires formed { AllFormed tags.old }
    ensures formed { AllFormed tags.new }
{
    let t = term(alloc, tags, row)?;
    Ok(tags.intern(t)?)
}

// Whether each term gets this tag.
fn have(alloc: Global, tags: &mut Tags, rows: &[(Row, Tag)]) -> Result<bool, Fail>
    requires formed { AllFormed tags.old }
    ensures formed { AllFormed tags.new }
{
    let mut same = true;
    for row in rows {
        same = tag_of(alloc, tags, row.0)? == row.1 && same;
    }
    Ok(same)
}

// Calls of a constant, of a file and of two results of one call, and what differs from each by one thing.
const ROWS: &[(Row, Tag)] = &[
    (Row::Int(1), 0),
    (Row::Vector(1), 1),
    (Row::Ints(1), 2),
    (Row::Held(1), 3),
    (Row::File(b"1"), 4),
    (Row::Null, 5),
    (Row::Call(Module::Select, 0, 0), 6),
    (Row::Call(Module::Extract, 0, 0), 7),
    (Row::Call(Module::Select, 1, 0), 8),
    (Row::Call(Module::Select, 6, 0), 9),
    (Row::Call(Module::Select, 6, 1), 10),
    (Row::Int(-1), 11),
    (Row::Held(2), 12),
    (Row::File(b"2"), 13),
    (Row::File(b""), 14),
    (Row::Call(Module::Import, 4, 0), 15),
];

#[test]
fn terms_have_tags_in_their_order(rt: HostRuntime) -> Result<(), Fail> {
    let mut tags = Tags::new(rt.alloc());
    assert!(rt; tags.count() == 0);
    assert!(rt; have(rt.alloc(), &mut tags, ROWS)?);
    assert!(rt; tags.count() == 16);
    // Each again.
    assert!(rt; have(rt.alloc(), &mut tags, ROWS)?);
    assert!(rt; tags.count() == 16);
    Ok(())
}

// The number behind a held value.
fn held(tags: &Tags, tag: Tag) -> Option<u64> {
    if tag >= tags.count() {
        return None;
    }
    match tags.term(tag) {
        Named::Held(n) => Some(n),
        Named::Formed(Term::Held(n)) => Some(*n),
        _ => None,
    }
}

const THREE: &[(Row, Tag)] = &[(Row::Int(7), 0), (Row::Held(8), 1), (Row::Held(9), 2)];

const TWO: &[(Row, Tag)] = &[(Row::Held(9), 0), (Row::Int(7), 1)];

#[test]
fn tags_are_forgotten(rt: HostRuntime) -> Result<(), Fail> {
    let mut tags = Tags::new(rt.alloc());
    assert!(rt; have(rt.alloc(), &mut tags, THREE)?);
    assert!(rt; held(&tags, 0) == None && held(&tags, 1) == Some(8) && held(&tags, 2) == Some(9));
    tags.empty(0);
    assert!(rt; tags.count() == 0 && held(&tags, 1) == None);
    assert!(rt; have(rt.alloc(), &mut tags, TWO)?);
    assert!(rt; tags.count() == 2 && held(&tags, 0) == Some(9));
    Ok(())
}

// Whether the first so many terms are those of held values, each that of its number.
fn hold(tags: &Tags, count: u64) -> bool {
    for n in 0..count {
        if held(tags, n) != Some(n) {
            return false;
        }
    }
    true
}

// Behind three held values: those, one that is none of them, a constant, and a call.
const BEHIND: &[(Row, Tag)] = &[
    (Row::Held(1), 1),
    (Row::Held(0), 0),
    (Row::Held(5), 3),
    (Row::Int(7), 4),
    (Row::Call(Module::Select, 2, 0), 5),
    (Row::Held(2), 2),
    (Row::Held(5), 3),
];

const BEHIND_ONE: &[(Row, Tag)] = &[(Row::Int(7), 1), (Row::Held(0), 0), (Row::Held(1), 2)];

#[test]
fn an_emptying_leaves_held_values(rt: HostRuntime) -> Result<(), Fail> {
    let mut tags = Tags::new(rt.alloc());
    assert!(rt; have(rt.alloc(), &mut tags, THREE)?);
    tags.empty(3);
    assert!(rt; tags.count() == 3 && hold(&tags, 3) && held(&tags, 3) == None);
    assert!(rt; tag_of(rt.alloc(), &mut tags, Row::Held(1))? == 1);
    assert!(rt; tags.count() == 3);
    assert!(rt; tag_of(rt.alloc(), &mut tags, Row::Held(5))? == 3);
    assert!(rt; tags.count() == 4 && held(&tags, 3) == Some(5));
    assert!(rt; have(rt.alloc(), &mut tags, BEHIND)?);
    assert!(rt; tags.count() == 6 && hold(&tags, 3) && held(&tags, 4) == None);
    // Another emptying.
    tags.empty(1);
    assert!(rt; tags.count() == 1 && hold(&tags, 1));
    assert!(rt; have(rt.alloc(), &mut tags, BEHIND_ONE)?);
    assert!(rt; tags.count() == 3);
    Ok(())
}
