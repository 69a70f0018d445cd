//! The table of the terms that were formed, which is list and index at once. Within it a tag is a term's place.
ghost use Rattle.std.specs.Prelude.{◌≡◌, ◌<◌, ◌++◌, ◌∷◌, [], ◌⊎◌, Some, slice_get, length, IfOk, IfSome, OnOk, OnErr};
ghost use Rattle.dx_ast.specs.Lawful.{IsLawfulConst};
ghost use Rattle.dx_ast.specs.declared.constants.Const.{Const};
ghost use Rattle.dx_tags.specs.declared.term.Term.TheVariants.{Constant};
ghost use Rattle.dx_tags.specs.Made.{IsMade, IsLawfulTerm};

use crate::ints::{Ints, int_in};
use crate::made::{is_large, keep, object_at, tag_among};
use crate::recent::Recent;
use crate::term::{Tag, Term};
use dx_objects::Object;
use indexmap::IndexSet;
use std::alloc::{AllocError, Global};
use std::marker::Model;
use std::rc::Rc;

/// Of how many large constants the objects are kept.
const MOST_LARGE: usize = 4;

/// Of how many other constants the objects are kept.
const MOST_SMALL: usize = 1024;

/// Terms that were formed, each by its place. No term stands twice.
#[derive(Drop)]
pub(crate) struct Formed {
    alloc: Global,
    terms: IndexSet<Term>,
    /// At the places of constants their objects, as far as they are kept.
    objects: Vec<Option<Rc<Object>>>,
    /// The large constants, and the others, whose objects were made last.
    large: Recent,
    small: Recent,
    ints: Ints,
}

impl Model for Formed {
    ghost use Rattle.std.specs.Prelude.{List};
    ghost use Rattle.dx_tags.specs.declared.term.Term.{Term};

    ghost Value = { List Term };

    ghost view = { λ a. a.terms.keys };

    ghost use Rattle.dx_tags.specs.Made.{AreMade};

    ghost invariant = { λ a. AreMade a.terms.keys a.objects.items };
}

impl Formed {
    /// No terms, which takes no memory.
    pub(crate) fn new(alloc: Global) -> Formed
        ensures { result ≡ [] }
    {
        Formed {
            alloc,
            terms: IndexSet::new(alloc),
            objects: Vec::new(alloc),
            large: Recent::new(alloc, MOST_LARGE),
            small: Recent::new(alloc, MOST_SMALL),
            ints: Ints::new(alloc),
        }
    }

    /// The place of a term, at the end where it stands nowhere. The terms before stay.
    #[tactic(auto, using(crate::proofs::MadeLaws::lawful_in))]
    pub(crate) fn intern(&mut self, t: Term) -> Result<Tag, AllocError>
        requires lawful { IsLawfulTerm t }
        ensures named { IfOk result (λ tag. slice_get self.new tag ≡ Some t) }
        ensures exact { IfOk result (λ tag. (other : _) → slice_get self.new other ≡ Some t → other ≡ tag) }
        ensures kept { OnOk result ((self.new ≡ self.old) ⊎ (self.new ≡ self.old ++ t ∷ [])) }
        ensures err { OnErr result (self.new ≡ self.old) }
    {
        let is_large = is_large(&t);
        let tag = self.tag_of(t, is_large)?;
        if self.object(tag).is_none() {
            self.make(tag, is_large);
        }
        Ok(tag)
    }

    // The tag of a term, found among those that were named last, or else by its hash.
    fn tag_of(&mut self, t: Term, is_large: bool) -> Result<Tag, AllocError>
        ensures named { IfOk result (λ tag. slice_get self.new tag ≡ Some t) }
        ensures exact { IfOk result (λ tag. (other : _) → slice_get self.new other ≡ Some t → other ≡ tag) }
        ensures kept { OnOk result ((self.new ≡ self.old) ⊎ (self.new ≡ self.old ++ t ∷ [])) }
        ensures err { OnErr result (self.new ≡ self.old) }
    {
        if let Some(tag) = self.lately(&t, is_large) {
            return Ok(tag);
        }
        let int = int_in(&t);
        let tag = self.insert(t)?;
        self.note_int(int, tag);
        Ok(tag)
    }

    // The int of this tag is the latest with its last byte.
    fn note_int(&mut self, int: Option<i32>, tag: Tag)
        ensures { self.new ≡ self.old }
    {
        if let Some(n) = int {
            self.ints.put(n, tag);
        }
    }

    // The tags of a large constant or of an int may be among these.
    fn candidates(&self, t: &Term, is_large: bool) -> &[Tag] {
        if is_large {
            return self.large.tags();
        }
        match int_in(t) {
            Some(n) => self.ints.like(n),
            None => &[],
        }
    }

    // The tag of a term that is among the constants whose objects were made last.
    #[tactic(auto, using(crate::proofs::SameTerm::one_place))]
    fn lately(&self, t: &Term, is_large: bool) -> Option<Tag>
        ensures named { IfSome result (λ tag. slice_get self.now tag ≡ Some t.now) }
        ensures exact { IfSome result (λ tag. (other : _) → slice_get self.now other ≡ Some t.now → other ≡ tag) }
    {
        // (beside their number `len` says that no two terms are the same)
        if self.terms.len() == 0 {
            return None;
        }
        tag_among(&self.terms, self.candidates(t, is_large), t)
    }

    // The tag of a term, found by its hash.
    fn insert(&mut self, t: Term) -> Result<Tag, AllocError>
        ensures named { IfOk result (λ tag. slice_get self.new tag ≡ Some t) }
        ensures exact { IfOk result (λ tag. (other : _) → slice_get self.new other ≡ Some t → other ≡ tag) }
        ensures kept { OnOk result ((self.new ≡ self.old) ⊎ (self.new ≡ self.old ++ t ∷ [])) }
        ensures err { OnErr result (self.new ≡ self.old) }
    {
        let (index, _) = self.terms.insert_full(t)?;
        Ok(index as u64)
    }

    // Makes the object of the term that a tag names, if that is a constant.
    fn make(&mut self, tag: Tag, is_large: bool)
        requires lawful { (c : Const) → slice_get self.old tag ≡ Some (Constant c) → ∥ IsLawfulConst c ∥₁ }
        ensures { self.new ≡ self.old }
    {
        let object = object_at(self.alloc, &self.terms, tag as usize);
        if object.is_some() {
            self.note(tag, is_large);
        }
        keep(&mut self.objects, tag as usize, object);
    }

    // The constant of this tag is the latest of its kind, and the object of the oldest goes, where there are too many.
    fn note(&mut self, tag: Tag, is_large: bool)
        ensures { self.new ≡ self.old }
    {
        let oldest = if is_large {
            self.large.put(tag)
        } else {
            self.small.put(tag)
        };
        if let Some(oldest) = oldest {
            keep(&mut self.objects, oldest as usize, None);
        }
    }

    /// The object of the constant at a place, where it is kept. It is none for NULL.
    pub(crate) fn object(&self, tag: Tag) -> Option<&Rc<Object>>
        ensures made { IfSome result (λ o. IsMade self.now tag o.now.value) }
    {
        match self.objects.get(tag as usize) {
            Some(Some(object)) => Some(object),
            _ => None,
        }
    }

    /// The term at a place below `count`.
    pub(crate) fn term(&self, tag: Tag) -> &Term
        requires { tag < length self.now }
        ensures { slice_get self.now tag ≡ Some result.now }
    {
        match self.terms.get_index(tag as usize) {
            Some(t) => t,
            None => unreachable!(),
        }
    }

    /// How many terms there are.
    pub(crate) fn count(&self) -> u64
        ensures { result ≡ length self.now }
    {
        self.terms.len() as u64
    }

    /// Forgets all terms, and gives back what memory they take.
    pub(crate) fn clear(&mut self)
        ensures { self.new ≡ [] }
    {
        *self = Formed::new(self.alloc);
    }
}
