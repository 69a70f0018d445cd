//! Groups and series with other members.
ghost use Rattle.std.specs.Prelude.{◌≡◌, IfOk, MatchOption, None};
ghost use Rattle.dx_base.specs.ObjectLimits.{unplaced};
ghost use Rattle.dx_base.specs.ObjectMembers.{placed, composite_or_group};
ghost use Rattle.dx_objects.specs.Makes.{Makes};
ghost use Rattle.dx_objects.specs.Members.{GivesMembers, members_of, regrouped, trees};

use crate::makers::ObjectError;
use crate::names::are_all_fields;
use crate::object::{Body, NamedParts, Object};
use crate::parts::Parts;
use std::alloc::{AllocError, Global};
use std::rc::Rc;
use thiserror::Error;

/// Why no group or series with other members is made. Memory may run out at any step behind `NotAGroup`.
#[derive(Clone, Copy, Debug, PartialEq, Eq, Error)]
pub enum MembersError {
    /// The object is neither a group nor a series.
    #[error("the object is no group and no series")]
    NotAGroup,
    /// The group or series would be too large.
    #[error("the group or series is too large")]
    TooLarge,
    #[error("out of memory")]
    Memory,
}

impl From<AllocError> for MembersError {
    ghost use Rattle.dx_objects.specs.declared.members.MembersError.TheVariants.{Memory};

    ghost from_gives = { λ _ e. e ≡ Memory };

    fn from(_: AllocError) -> MembersError {
        MembersError::Memory
    }
}

impl Object {
    /// The group or series with these objects in the places of its members, one after the other. Names, positions and
    /// attributes stay, and so do members for which no object is given; objects beyond the members are left out. A
    /// composite group stays one where its new members are all fields. The objects are shared.
    pub fn with_members(
        &self,
        alloc: Global,
        objects: &[Rc<Object>],
    ) -> Result<Object, MembersError>
        ensures { GivesMembers (trees objects.now) self.now result }
    {
        let Some(members) = self.body.members() else {
            return Err(MembersError::NotAGroup);
        };
        let members = members.placed(alloc, objects)?;
        let attributes = self.attributes.copy(alloc)?;
        match self.body.regrouped(members, attributes) {
            Ok(object) => Ok(object),
            // The names are good, so it is too large.
            Err(_) => Err(MembersError::TooLarge),
        }
    }
}

impl Body {
    // The members of a group or a series.
    fn members(&self) -> Option<&NamedParts>
        ensures { MatchOption result (members_of self.now ≡ None) (λ ps. members_of self.now ≡ Some ps.now) }
    {
        match self {
            Body::Group(parts) | Body::Composite(parts) | Body::Series(parts) => Some(parts),
            _ => None,
        }
    }

    // A group or a series, as this one, of these members.
    fn regrouped(&self, members: Parts, attributes: Parts) -> Result<Object, ObjectError>
        ensures { Makes (regrouped self.now members attributes) result }
    {
        match self {
            Body::Series(_) => Object::series(members, attributes),
            Body::Composite(_) => composite_or_group(members, attributes),
            _ => Object::group(members, attributes),
        }
    }
}

// A composite group where the members are all fields, and else a group.
#[tactic(auto, using(dx_object_laws::proofs::PlacedLaws::unplaced_fields))]
fn composite_or_group(members: Parts, attributes: Parts) -> Result<Object, ObjectError>
    ensures { Makes (composite_or_group (unplaced members) (unplaced attributes)) result }
{
    if are_all_fields(members.as_slice()) {
        Object::composite(members, attributes)
    } else {
        Object::group(members, attributes)
    }
}

impl NamedParts {
    // The parts with these objects in their places.
    #[tactic(auto, using(crate::proofs::PartsLaws::appending))]
    fn placed(&self, alloc: Global, objects: &[Rc<Object>]) -> Result<Parts, AllocError>
        ensures { IfOk result (λ ps. ps ≡ placed self.now (trees objects.now)) }
    {
        let mut copy = Parts::new(alloc);
        let mut rest = objects;
        for part in &self.items {
            if let [object, after @ ..] = rest {
                copy.push_copy_with(alloc, part, object)?;
                rest = after;
            } else {
                copy.push_copy(alloc, part)?;
            }
        }
        Ok(copy)
    }
}
