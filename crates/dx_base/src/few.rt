//! Lists that mostly have one element.
ghost use Rattle.std.specs.Prelude.{◌≡◌, ◌==◌, [], ◌∷◌, ◌++◌, length, IfOk, OnOk, OnErr};
ghost use Rattle.dx_base.specs.Few.{few_in};

use std::alloc::{AllocError, Global};
use std::hash::{Hash, Hasher};
use std::marker::Model;
use std::mem;

/// For how many elements room is made when the second one comes.
const ROOM: usize = 4;

/// A list, which contracts see as the list of its elements. While it has no more than one it takes no memory of its own,
/// unless room was made for more.
#[derive(Debug, Drop)]
pub struct Few<T> {
    alloc: Global,
    elements: Elements<T>,
}

#[derive(Debug, Drop)]
enum Elements<T> {
    One([T; 1]),
    /// None, or more than one; or one, where there was room for more.
    Many(Vec<T>),
}

impl<T> Model for Few<T> {
    ghost use Rattle.std.specs.Prelude.{List};
    ghost use Rattle.std.specs.Coded.{coded_list};
    ghost use Rattle.dx_base.specs.Few.{few_in};

    ghost Value = { List T };

    ghost coded = { coded_list T.code };

    ghost view = { λ few. few_in few.elements };
}

impl<T> Few<T> {
    /// The empty list, which takes no memory.
    pub fn new(alloc: Global) -> Few<T>
        ensures { result ≡ [] }
    {
        Few {
            alloc,
            elements: Elements::Many(Vec::new(alloc)),
        }
    }

    /// The list of one element, which takes no memory.
    pub fn one(alloc: Global, element: T) -> Few<T>
        ensures { result ≡ element ∷ [] }
    {
        Few {
            alloc,
            elements: Elements::One([element]),
        }
    }

    /// These elements, which are moved in.
    pub fn from_vec(alloc: Global, elements: Vec<T>) -> Few<T>
        ensures { result ≡ elements.items }
    {
        Few {
            alloc,
            elements: Elements::Many(elements),
        }
    }

    pub fn as_slice(&self) -> &[T]
        ensures { result.now ≡ self.now }
    {
        match &self.elements {
            Elements::One(one) => one.as_slice(),
            Elements::Many(elements) => elements.as_slice(),
        }
    }

    pub fn len(&self) -> usize
        ensures { result ≡ length self.now }
    {
        self.as_slice().len()
    }

    pub fn is_empty(&self) -> bool
        ensures { result ≡ (length self.now == 0) }
    {
        self.as_slice().is_empty()
    }
}

impl<T: Drop> Few<T> {
    /// The empty list, with room for so many elements. It takes memory for more than one.
    pub fn with_capacity(alloc: Global, count: usize) -> Result<Few<T>, AllocError>
        ensures { IfOk result (λ few. few ≡ []) }
    {
        if count > 1 {
            return Ok(Few::from_vec(alloc, Vec::with_capacity(alloc, count)?));
        }
        Ok(Few::new(alloc))
    }

    /// Puts an element at the end. Where memory runs out the list stays as it was.
    pub fn push(&mut self, element: T) -> Result<(), AllocError>
        ensures ok { OnOk result (self.new ≡ self.old ++ element ∷ []) }
        ensures err { OnErr result (self.new ≡ self.old) }
    {
        if let Elements::Many(many) = &mut self.elements {
            if many.capacity() > 0 {
                return Ok(many.push(element)?);
            }
        }
        let alloc = self.alloc;
        let none = Elements::Many(Vec::new(alloc));
        let (elements, pushed) = match mem::replace(&mut self.elements, none) {
            Elements::Many(many) => among(many, element),
            Elements::One(first) => behind(alloc, first, element),
        };
        self.elements = elements;
        pushed
    }
}

// An element more. The first takes no memory, unless there is room.
fn among<T: Drop>(mut many: Vec<T>, element: T) -> (Elements<T>, Result<(), AllocError>)
    ensures ok { OnOk result.1 (few_in result.0 ≡ many.items ++ element ∷ []) }
    ensures err { OnErr result.1 (few_in result.0 ≡ many.items) }
{
    if many.is_empty() && many.capacity() == 0 {
        return (Elements::One([element]), Ok(()));
    }
    match many.push(element) {
        Ok(()) => (Elements::Many(many), Ok(())),
        Err(failed) => (Elements::Many(many), Err(AllocError::from(failed))),
    }
}

// A second element.
fn behind<T: Drop>(alloc: Global, first: [T; 1], second: T) -> (Elements<T>, Result<(), AllocError>)
    ensures ok { OnOk result.1 (few_in result.0 ≡ first ++ second ∷ []) }
    ensures err { OnErr result.1 (few_in result.0 ≡ first) }
{
    match Vec::with_capacity(alloc, ROOM) {
        Ok(mut both) => {
            let [first] = first;
            both.push_reserved(first);
            both.push_reserved(second);
            (Elements::Many(both), Ok(()))
        }
        Err(error) => (Elements::One(first), Err(error)),
    }
}

impl<T: PartialEq> PartialEq for Few<T> {
    ghost use Rattle.std.specs.Cmp.Lexicographic.{pointwise};
    ghost use Rattle.std.specs.Cmp.Rules.{comparing};
    ghost use Rattle.std.proofs.Common.{rules};

    ghost eq = { pointwise T.eq };

    ghost laws = { Prim.search (comparing, rules) };

    fn eq(&self, other: &Few<T>) -> bool {
        self.as_slice() == other.as_slice()
    }
}

impl<T: Eq> Eq for Few<T> {
    ghost use Rattle.std.specs.Cmp.Rules.{comparing};
    ghost use Rattle.std.proofs.Common.{rules};

    ghost laws = { Prim.search (comparing, rules) };
}

impl<T: Hash> Hash for Few<T> {
    ghost use Rattle.std.specs.Hash as fed;
    ghost use Rattle.std.specs.Hash.{items_Alike};

    ghost hash_input = { fed.slice T.hash_input };

    ghost respects_eq = { (items_Alike (record { fed = T.respects_eq })).fed };

    fn hash<H: Hasher>(&self, state: &mut H) {
        self.as_slice().hash(state);
    }
}
