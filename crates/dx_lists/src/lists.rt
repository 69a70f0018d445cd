//! Lists of elements and ranges, which grow in vectors and are shared once.

ghost use Rattle.std.specs.Prelude.{◌≡◌, ◌∷◌, ◌++◌, [], IfOk, OnOk, false};
ghost use Rattle.dx_ast.specs.declared.constants.Const.TheVariants as const;
ghost use Rattle.dx_ast.specs.Values as values;
ghost use Rattle.dx_lists.specs.Lists.{IsShort};

use dx_ast::Const;
use dx_base::{Bytes, Items, Shared};
use std::alloc::{AllocError, Global};
use std::marker::Model;

/// The numbers of a list or of a vector, before they are shared.
pub type Numbers = Items<i32>;

/// The list of one item, with room for so many.
pub fn one_of<T: Drop>(alloc: Global, item: T, room: usize) -> Result<Items<T>, AllocError>
    ensures { IfOk result (λ list. list ≡ item ∷ []) }
{
    let mut items = Vec::with_capacity(alloc, room)?;
    items.push(item)?;
    Ok(Items::from_vec(items))
}

/// The list of one item, with room for no more.
pub fn one<T: Drop>(alloc: Global, item: T) -> Result<Items<T>, AllocError>
    ensures { IfOk result (λ list. list ≡ item ∷ []) }
{
    one_of(alloc, item, 1)
}

/// An element of a list, which contracts see as the constant that it is alone.
#[derive(Drop)]
pub struct Element {
    kind: ElementKind,
}

#[derive(Drop)]
enum ElementKind {
    Int(i32),
    Text(Bytes),
    Vector(Numbers),
}

impl Model for Element {
    ghost use Rattle.dx_ast.specs.declared.constants.Const.{Const};

    ghost Value = { Const };

    ghost use Rattle.dx_lists.specs.Lists.{element_in};

    ghost view = { element_in };
}

impl Element {
    pub fn int(n: i32) -> Element
        ensures { result ≡ const.Int n }
    {
        Element {
            kind: ElementKind::Int(n),
        }
    }

    pub fn text(text: Bytes) -> Element
        ensures { result ≡ const.Text text }
    {
        Element {
            kind: ElementKind::Text(text),
        }
    }

    pub fn vector(numbers: Numbers) -> Element
        ensures { result ≡ const.Vector numbers }
    {
        Element {
            kind: ElementKind::Vector(numbers),
        }
    }
}

/// A list that grows, which contracts see as the constant that it becomes.
#[derive(Drop)]
pub struct Growing {
    elements: Elements,
}

#[derive(Drop)]
enum Elements {
    Ints(Numbers),
    Texts(Items<Bytes>),
    Vectors(u32, Numbers),
}

impl Model for Growing {
    ghost use Rattle.dx_ast.specs.declared.constants.Const.{Const};

    ghost Value = { Const };

    ghost use Rattle.dx_lists.specs.Lists.{list_in};

    ghost view = { list_in };
}

/// The list of one element.
pub fn list_of(alloc: Global, e: Element) -> Result<Growing, AllocError>
    requires { IsShort e }
    ensures { IfOk result (λ list. list ≡ values.list_of e) }
{
    let elements = match e.kind {
        ElementKind::Int(n) => Elements::Ints(one(alloc, n)?),
        ElementKind::Text(text) => Elements::Texts(one(alloc, text)?),
        ElementKind::Vector(numbers) => Elements::Vectors(numbers.len() as u32, numbers),
    };
    Ok(Growing { elements })
}

/// Whether an element is like those of the list.
pub fn agrees(list: &Growing, e: &Element) -> bool
    ensures { result ≡ values.agrees list.now e.now }
{
    match &list.elements {
        Elements::Ints(_) => matches!(&e.kind, ElementKind::Int(_)),
        Elements::Texts(_) => matches!(&e.kind, ElementKind::Text(_)),
        Elements::Vectors(width, _) => match &e.kind {
            ElementKind::Vector(new) => new.len() == *width as usize,
            _ => false,
        },
    }
}

fn extend(numbers: &mut Numbers, new: &[i32]) -> Result<(), AllocError>
    ensures { OnOk result (numbers.new ≡ numbers.old ++ new.now) }
{
    for n in new {
        numbers.push(*n)?;
    }
    Ok(())
}

/// Puts an element like the others at the end of the list.
pub fn join(list: &mut Growing, e: Element) -> Result<(), AllocError>
    ensures { OnOk result (list.new ≡ values.joined list.old e) }
{
    match &mut list.elements {
        Elements::Ints(numbers) => match e.kind {
            ElementKind::Int(n) => numbers.push(n),
            _ => Ok(()),
        },
        Elements::Texts(texts) => match e.kind {
            ElementKind::Text(text) => texts.push(text),
            _ => Ok(()),
        },
        Elements::Vectors(_, numbers) => match e.kind {
            ElementKind::Vector(new) => extend(numbers, new.as_slice()),
            _ => Ok(()),
        },
    }
}

/// The list with all its elements, shared from now on.
pub fn into_const(alloc: Global, list: Growing) -> Result<Const, AllocError>
    ensures { IfOk result (λ c. c ≡ list) }
{
    Ok(match list.elements {
        Elements::Ints(numbers) => Const::Ints(Shared::from_vec(alloc, numbers.into_vec())?),
        Elements::Texts(texts) => Const::Texts(Shared::from_vec(alloc, texts.into_vec())?),
        Elements::Vectors(width, numbers) => {
            Const::Vectors(width, Shared::from_vec(alloc, numbers.into_vec())?)
        }
    })
}

/// The text as a constant, moved in.
pub fn text_const(alloc: Global, text: Bytes) -> Result<Const, AllocError>
    ensures { IfOk result (λ c. c ≡ const.Text text) }
{
    Ok(Const::Text(Shared::from_vec(alloc, text.into_vec()?)?))
}

/// The list of these integers as a constant, moved in.
pub fn ints_const(alloc: Global, numbers: Numbers) -> Result<Const, AllocError>
    ensures { IfOk result (λ c. c ≡ const.Ints numbers) }
{
    Ok(Const::Ints(Shared::from_vec(alloc, numbers.into_vec())?))
}

/// The vector of these numbers as a constant, moved in.
pub fn vector_const(alloc: Global, numbers: Numbers) -> Result<Const, AllocError>
    ensures { IfOk result (λ c. c ≡ const.Vector numbers) }
{
    Ok(Const::Vector(Shared::from_vec(alloc, numbers.into_vec())?))
}

/// Whether b is passed at a, in the direction of d.
fn is_passed(a: i64, b: i32, d: i32) -> bool
    ensures { result ≡ values.is_passed a b d }
{
    if d < 0 {
        a < i64::from(b)
    } else {
        i64::from(b) < a
    }
}

/// How many of a, a + d and so on aren't past b.
#[tactic(auto, unfolding(dx_ast::specs::Values::range_count))]
pub fn range_count(a: i32, b: i32, d: i32) -> u64
    ensures { result ≡ values.range_count a b d }
{
    if is_passed(i64::from(a), b, d) {
        return 0;
    }
    let step = u64::from(d.unsigned_abs());
    if step == 0 {
        return 0;
    }
    u64::from(a.abs_diff(b)) / step + 1
}

/// Those of the numbers a, a + d and so on that aren't past b, in this order.
pub fn range(alloc: Global, a: i32, b: i32, d: i32) -> Result<Numbers, AllocError>
    requires { values.is_zero d ≡ false }
    ensures { IfOk result (λ numbers. numbers ≡ values.range a b d) }
{
    let room = range_count(a, b, d) as usize;
    let mut numbers = Items::from_vec(Vec::with_capacity(alloc, room)?);
    let mut next = i64::from(a);
    'each: while !is_passed(next, b, d) {
        numbers.push(next as i32)?;
        next += i64::from(d);
    }
    Ok(numbers)
}
