//! The objects of constants that have a term: each is made once, and stands in as many places as ask for it.
ghost use Rattle.std.specs.Prelude.{◌≡◌, ◌<◌, ℕ, List, Some, true, slice_get, IfSome};
ghost use Rattle.dx_ast.specs.Lawful.{IsLawfulConst};
ghost use Rattle.dx_ast.specs.declared.constants.Const.{Const};
ghost use Rattle.dx_tags.specs.declared.term.Term.{Term};
ghost use Rattle.dx_tags.specs.declared.term.Term.TheVariants.{Constant};
ghost use Rattle.dx_tags.specs.Made.{IsMade, AreMade};

use crate::term::{Tag, Term};
use dx_ast::Const;
use dx_consts::object_of;
use dx_objects::Object;
use indexmap::IndexSet;
use std::alloc::Global;
use std::rc::Rc;

/// From how many numbers, bytes or texts on a constant is large.
const LARGE: usize = 64;

/// How many numbers, bytes or texts a constant has.
fn length(c: &Const) -> usize {
    match c {
        Const::Null | Const::Int(_) => 1,
        Const::Text(text) => text.len(),
        Const::Vector(numbers) | Const::Ints(numbers) | Const::Vectors(_, numbers) => numbers.len(),
        Const::Texts(texts) => texts.len(),
    }
}

/// The term is a large constant, which costs much to be looked up by a hash, and to be made.
pub(crate) fn is_large(t: &Term) -> bool {
    match t {
        Term::Constant(c) => length(c) >= LARGE,
        _ => false,
    }
}

/// The term of a tag is this.
#[tactic(auto, using(crate::proofs::SameTerm::same_term))]
fn names(terms: &IndexSet<Term>, tag: Tag, t: &Term) -> bool
    ensures { result ≡ true → slice_get terms.now.keys tag ≡ Some t.now }
{
    match terms.get_index(tag as usize) {
        Some(named) => named == t,
        None => false,
    }
}

/// Which of some tags has this term.
pub(crate) fn tag_among(terms: &IndexSet<Term>, tags: &[Tag], t: &Term) -> Option<Tag>
    ensures { IfSome result (λ tag. slice_get terms.now.keys tag ≡ Some t.now) }
{
    for tag in tags {
        if names(terms, *tag, t) {
            return Some(*tag);
        }
    }
    None
}

/// The object of the term at a place: none where it is no constant or NULL, or where memory ran out.
pub(crate) fn object_at(alloc: Global, terms: &IndexSet<Term>, place: usize) -> Option<Rc<Object>>
    requires lawful { (c : Const) → slice_get terms.now.keys place ≡ Some (Constant c) → ∥ IsLawfulConst c ∥₁ }
    ensures made { IfSome result (λ o. IsMade terms.now.keys place o.value) }
{
    match terms.get_index(place) {
        Some(Term::Constant(c)) => match object_of(alloc, c) {
            Ok(object) => object,
            Err(_) => None,
        },
        _ => None,
    }
}

/// Keeps an object, or that there is none, for the term at a place. Where memory runs out none is kept.
pub(crate) fn keep(objects: &mut Vec<Option<Rc<Object>>>, place: usize, object: Option<Rc<Object>>)
    ensures made { (terms : List Term) → AreMade terms objects.old.items → IfSome object (λ o. IsMade terms place o.value) → AreMade terms objects.new.items }
{
    if place < objects.len() {
        objects[place] = object;
    } else if place == objects.len() {
        match objects.push(object) {
            Ok(()) => {}
            Err(_) => {}
        }
    }
}
