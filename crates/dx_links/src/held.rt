//! What links hold, and how they change.
ghost use Rattle.std.specs.Prelude.{◌≡◌, IfOk};

use crate::key::Key;
use dx_objects::Object;
use dx_tags::ValueTag;
use std::alloc::AllocError;
use std::marker::Model;
use std::rc::Rc;

/// The value of a link, which is shared, with the tag of a term that denotes it.
#[derive(Drop)]
pub struct Held {
    value: Rc<Object>,
    tag: ValueTag,
}

impl Model for Held {
    ghost use Rattle.dx_links.specs.Holding.{Holding, coded_holding};

    ghost Value = { Holding };

    ghost coded = { coded_holding };

    ghost view = { λ h. record { value = h.value.value; tag = h.tag } };
}

impl Held {
    /// This value with this tag, which are moved in.
    pub fn new(value: Rc<Object>, tag: ValueTag) -> Held
        ensures value { result.value ≡ value.value }
        ensures tag { result.tag ≡ tag }
    {
        Held { value, tag }
    }

    /// The value.
    pub fn value(&self) -> &Rc<Object>
        ensures { result.now.value ≡ self.now.value }
    {
        &self.value
    }

    /// The tag of its term, by which it is known.
    pub fn tag(&self) -> ValueTag
        ensures { result ≡ self.now.tag }
    {
        self.tag
    }

    pub(crate) fn set_tag(&mut self, tag: ValueTag)
        ensures value { self.new.value ≡ self.old.value }
        ensures tag { self.new.tag ≡ tag }
    {
        self.tag = tag;
    }

    /// The same value in the same memory, with the same tag.
    pub fn share(&self) -> Result<Held, AllocError>
        ensures { IfOk result (λ copy. copy ≡ self.now) }
    {
        Ok(Held {
            value: self.value.clone()?,
            tag: self.tag,
        })
    }
}

/// What a link holds: its value, and the tag of a term that denotes it.
#[derive(Drop)]
pub struct HeldRef<'a> {
    pub value: &'a Rc<Object>,
    pub tag: ValueTag,
}

/// What a Set does: a value is kept under a key, or the key is taken away.
#[derive(Drop)]
pub struct Change {
    pub key: Key,
    pub held: Option<Held>,
}
