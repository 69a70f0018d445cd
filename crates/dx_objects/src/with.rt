//! Fields with another component, and without one.
ghost use Rattle.std.specs.Prelude.{◌≡◌, IfOk, OnOk};
ghost use Rattle.dx_base.specs.Object as spec;
ghost use Rattle.dx_base.specs.Object.{append};
ghost use Rattle.dx_base.specs.ObjectNames.{put, without};
ghost use Rattle.dx_objects.specs.Shown.{parts_of};
ghost use Rattle.dx_objects.specs.With.{GivesWith, GivesWithout};

use crate::names::is_named;
use crate::object::{Body, NamedParts, Object, Part};
use crate::parts::Parts;
use dx_base::Bytes;
use std::alloc::{AllocError, Global};
use std::rc::Rc;
use thiserror::Error;

/// Why no field with another component, or without one, is made. Where several reasons stand together, the answer is
/// the first of `NotAField`, `NotAnArray`, `NoComponent` and `TooLarge`, while memory may run out at any step behind
/// the first three.
#[derive(Clone, Copy, Debug, PartialEq, Eq, Error)]
pub enum WithError {
    /// The object is no field.
    #[error("the object is no field")]
    NotAField,
    /// The new component is no array.
    #[error("the component is no array")]
    NotAnArray,
    /// The field would be too large.
    #[error("the field is too large")]
    TooLarge,
    /// The field has no component of this name.
    #[error("the field has no such component")]
    NoComponent,
    #[error("out of memory")]
    Memory,
}

impl From<AllocError> for WithError {
    ghost use Rattle.dx_objects.specs.declared.with.WithError.TheVariants.{Memory};

    ghost from_gives = { λ _ e. e ≡ Memory };

    fn from(_: AllocError) -> WithError {
        WithError::Memory
    }
}

impl Object {
    /// The field with this component in the place of the one of its name, or last. The other parts are shared.
    pub fn with_component(
        &self,
        alloc: Global,
        name: &Bytes,
        part: Rc<Object>,
    ) -> Result<Object, WithError>
        ensures { GivesWith name.now part.value self.now result }
    {
        let Body::Field(parts) = &self.body else {
            return Err(WithError::NotAField);
        };
        if !part.is_array() {
            return Err(WithError::NotAnArray);
        }
        let parts = parts.put(alloc, name, part)?;
        let attributes = self.attributes.copy(alloc)?;
        match Object::field(parts, attributes) {
            Ok(object) => Ok(object),
            // The names and the kinds are good, so it is too large.
            Err(_) => Err(WithError::TooLarge),
        }
    }

    /// The field without the component of this name. The other parts are shared.
    pub fn without_component(&self, alloc: Global, name: &[u8]) -> Result<Object, WithError>
        ensures { GivesWithout name.now self.now result }
    {
        let Body::Field(parts) = &self.body else {
            return Err(WithError::NotAField);
        };
        let Some(_) = self.component(name) else {
            return Err(WithError::NoComponent);
        };
        let parts = parts.without(alloc, name)?;
        let attrs = self.attributes.copy(alloc)?;
        match Object::field(parts, attrs) {
            Ok(object) => Ok(object),
            // It is no larger than this one, and its names and kinds are good: this doesn't come.
            Err(_) => Err(WithError::TooLarge),
        }
    }
}

fn copy_of_name(alloc: Global, name: &Option<Bytes>) -> Result<Option<Bytes>, AllocError>
    ensures { IfOk result (λ n. n ≡ name.now) }
{
    match name {
        None => Ok(None),
        Some(bytes) => Ok(Some(Bytes::copy_of(alloc, bytes.bytes())?)),
    }
}

impl Part {
    // The same part, which shares its object.
    pub(crate) fn copy(&self, alloc: Global) -> Result<Part, AllocError>
        ensures { IfOk result (λ p. spec.part p.name p.position p.object.value spec.no_parts ≡ spec.part self.now.name self.now.position self.now.object.value spec.no_parts) }
    {
        self.copy_with(alloc, &self.object)
    }

    // The same part with this object.
    pub(crate) fn copy_with(&self, alloc: Global, object: &Rc<Object>) -> Result<Part, AllocError>
        ensures { IfOk result (λ p. spec.part p.name p.position p.object.value spec.no_parts ≡ spec.part self.now.name self.now.position object.now.value spec.no_parts) }
    {
        Ok(Part {
            name: copy_of_name(alloc, &self.name)?,
            position: self.position,
            object: object.clone()?,
        })
    }
}

impl Parts {
    // Puts a part at the end that is as this one and shares its object.
    pub(crate) fn push_copy(&mut self, alloc: Global, part: &Part) -> Result<(), AllocError>
        ensures { OnOk result (self.new ≡ append self.old (spec.part part.now.name part.now.position part.now.object.value spec.no_parts)) }
    {
        self.push(part.copy(alloc)?)
    }

    // Puts a part at the end that is as this one, but with this object.
    pub(crate) fn push_copy_with(
        &mut self,
        alloc: Global,
        part: &Part,
        object: &Rc<Object>,
    ) -> Result<(), AllocError>
        ensures { OnOk result (self.new ≡ append self.old (spec.part part.now.name part.now.position object.now.value spec.no_parts)) }
    {
        self.push(part.copy_with(alloc, object)?)
    }

    /// The same parts, which share their objects.
    #[tactic(auto, using(crate::proofs::PartsLaws::appending))]
    pub fn copy_of(alloc: Global, parts: &[Part]) -> Result<Parts, AllocError>
        ensures { IfOk result (λ copy. copy ≡ parts_of parts.now) }
    {
        let mut copy = Parts::new(alloc);
        for part in parts {
            copy.push_copy(alloc, part)?;
        }
        Ok(copy)
    }

    /// The same parts with this object under this name, in the place of the first that has it, or last. They share
    /// their objects.
    #[tactic(auto, using(crate::proofs::PartsLaws::appending))]
    pub fn copy_with(
        alloc: Global,
        parts: &[Part],
        name: &[u8],
        object: Rc<Object>,
    ) -> Result<Parts, AllocError>
        ensures { IfOk result (λ copy. copy ≡ put name.now object.value (parts_of parts.now)) }
    {
        let mut copy = Parts::new(alloc);
        let mut is_placed = false;
        for part in parts {
            if !is_placed && is_named(part, name) {
                copy.push_copy_with(alloc, part, &object)?;
                is_placed = true;
            } else {
                copy.push_copy(alloc, part)?;
            }
        }
        if !is_placed {
            copy.push(Part {
                name: Some(Bytes::copy_of(alloc, name)?),
                position: 0,
                object,
            })?;
        }
        Ok(copy)
    }

    /// The same parts without the first that has this name. They share their objects.
    #[tactic(auto, using(crate::proofs::PartsLaws::appending))]
    pub fn copy_without(alloc: Global, parts: &[Part], name: &[u8]) -> Result<Parts, AllocError>
        ensures { IfOk result (λ copy. copy ≡ without name.now (parts_of parts.now)) }
    {
        let mut copy = Parts::new(alloc);
        let mut is_removed = false;
        for part in parts {
            if !is_removed && is_named(part, name) {
                is_removed = true;
            } else {
                copy.push_copy(alloc, part)?;
            }
        }
        Ok(copy)
    }
}

impl NamedParts {
    pub(crate) fn copy(&self, alloc: Global) -> Result<Parts, AllocError>
        ensures { IfOk result (λ copy. copy ≡ self.now) }
    {
        Parts::copy_of(alloc, self.as_slice())
    }

    fn put(&self, alloc: Global, name: &Bytes, object: Rc<Object>) -> Result<Parts, AllocError>
        ensures { IfOk result (λ ps. ps ≡ put name.now object.value self.now) }
    {
        Parts::copy_with(alloc, self.as_slice(), name.bytes(), object)
    }

    fn without(&self, alloc: Global, name: &[u8]) -> Result<Parts, AllocError>
        ensures { IfOk result (λ ps. ps ≡ without name.now self.now) }
    {
        Parts::copy_without(alloc, self.as_slice(), name)
    }
}
