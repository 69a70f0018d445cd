//! Terms by their numbers: those of held values, which are counted alone, and behind them those that were formed.
ghost use Rattle.std.specs.Prelude.{◌≡◌, ◌<◌, ◌++◌, ◌∷◌, [], ◌⊎◌, Some, slice_get, length, IfOk, IfSome, OnOk, OnErr, MatchOption};
ghost use Rattle.dx_tags.specs.declared.term.Term.TheVariants.{Held as HeldBy};
ghost use Rattle.dx_tags.specs.Closed.{AllFormed, AreDistinct, IsFormed, heads_of, NamesExactly};
ghost use Rattle.dx_tags.specs.HeldTerms.{held_terms};
ghost use Rattle.dx_tags.specs.Made.{IsMade, IsLawfulTerm};
ghost use Rattle.dx_tags.specs.NamedTerms.{term_named, IsOther, StandBehind};

use crate::formed::Formed;
use crate::term::{Named, Tag, Term};
use dx_objects::Object;
use std::alloc::{AllocError, Global};
use std::marker::Model;
use std::rc::Rc;

/// Terms, each named by a number: first those of so many held values, and behind them those that were formed, each by its place.
/// Each has earlier tags alone, and no term stands twice.
#[derive(Drop)]
pub struct Tags {
    held: u64,
    formed: Formed,
}

impl Model for Tags {
    ghost use Rattle.std.specs.Prelude.{List, ◌++◌};
    ghost use Rattle.dx_tags.specs.declared.term.Term.{Term};

    ghost Value = { List Term };

    ghost use Rattle.dx_tags.specs.HeldTerms.{held_terms};
    ghost use Rattle.dx_tags.specs.NamedTerms.{StandBehind};

    ghost view = { λ a. held_terms a.held ++ a.formed };

    ghost invariant = { λ a. StandBehind a.held a.formed };
}

// The tag of a term that is one of so many held values.
fn held_tag(t: &Term, held: u64) -> Option<Tag>
    ensures { MatchOption result (IsOther held t.now) (λ k. (k < held) × (t.now ≡ HeldBy k)) }
{
    match t {
        Term::Held(k) if *k < held => Some(*k),
        _ => None,
    }
}

// The tag of a term that is none of the held values, where there is a number for one more.
fn form(held: u64, formed: &mut Formed, t: Term) -> Result<Tag, AllocError>
    requires lawful { IsLawfulTerm t }
    requires behind { StandBehind held formed.old }
    requires other { IsOther held t }
    ensures behind { StandBehind held formed.new }
    ensures named { IfOk result (λ tag. slice_get (held_terms held ++ formed.new) tag ≡ Some t) }
    ensures exact { IfOk result (λ tag. (other : _) → slice_get (held_terms held ++ formed.new) other ≡ Some t → other ≡ tag) }
    ensures kept { OnOk result ((held_terms held ++ formed.new ≡ held_terms held ++ formed.old) ⊎ (held_terms held ++ formed.new ≡ (held_terms held ++ formed.old) ++ t ∷ [])) }
    ensures err { OnErr result (formed.new ≡ formed.old) }
{
    if formed.count() >= u64::MAX - held {
        return Err(AllocError);
    }
    let place = formed.intern(t)?;
    Ok(held + place)
}

impl Tags {
    /// No terms, which takes no memory.
    pub fn new(alloc: Global) -> Tags
        ensures { result ≡ [] }
    {
        Tags {
            held: 0,
            formed: Formed::new(alloc),
        }
    }

    /// The tag of a term, which is new where no tag names the term. Equal terms have one tag and different terms two; the terms
    /// of earlier tags stay.
    pub fn intern(&mut self, t: Term) -> Result<Tag, AllocError>
        requires formed { IsFormed (heads_of self.old) (length self.old) t }
        ensures named { IfOk result (λ tag. slice_get self.new tag ≡ Some t) }
        ensures exact { IfOk result (λ tag. (other : _) → slice_get self.new other ≡ Some t → other ≡ tag) }
        ensures kept { OnOk result ((self.new ≡ self.old) ⊎ (self.new ≡ self.old ++ t ∷ [])) }
        ensures err { OnErr result (self.new ≡ self.old) }
        ensures formed { AllFormed self.old → AllFormed self.new }
        ensures distinct { AreDistinct self.old → AreDistinct self.new }
    {
        match held_tag(&t, self.held) {
            Some(tag) => Ok(tag),
            None => form(self.held, &mut self.formed, t),
        }
    }

    /// The object of the constant that a tag names, where it is kept. It is none for NULL.
    pub fn object(&self, tag: Tag) -> Option<&Rc<Object>>
        ensures made { IfSome result (λ o. IsMade self.now tag o.now.value) }
    {
        if tag < self.held {
            None
        } else {
            self.formed.object(tag - self.held)
        }
    }

    /// The term of a tag below `count`.
    pub fn term(&self, tag: Tag) -> Named<'_>
        requires { tag < length self.now }
        ensures { slice_get self.now tag ≡ Some (term_named result) }
    {
        if tag < self.held {
            Named::Held(tag)
        } else {
            Named::Formed(self.formed.term(tag - self.held))
        }
    }

    /// How many terms are named.
    pub fn count(&self) -> u64
        ensures { result ≡ length self.now }
    {
        self.held + self.formed.count()
    }

    /// Forgets all terms. So many held values have terms then, each that of its number. This takes no memory, and goes through no
    /// held value.
    pub fn empty(&mut self, held: u64)
        ensures { self.new ≡ held_terms held }
    {
        self.held = held;
        self.formed.clear();
    }
}

/// Where each term has earlier tags alone, and no term has two tags, two tags name two closed terms.
pub fn names_are_exact()
    ensures { (terms : _) → AllFormed terms → AreDistinct terms → NamesExactly terms }
{}
