//! Groups and series: those among the inputs, their members at one place, and one with other members.
ghost use Rattle.std.specs.Prelude.{◌≡◌, true, map, IfOk};
ghost use Rattle.dx_base.specs.Answers.{Answers};
ghost use Rattle.dx_base.specs.Object.{parts as spec_parts};
ghost use Rattle.dx_objects.specs.Shown.{parts_of};
ghost use Rattle.dx_compute_meaning.specs.Compute.{in_limits, remade as spec_remade};
ghost use Rattle.dx_compute_meaning.specs.Operands as spec;
ghost use Rattle.dx_compute_meaning.specs.Shown.{shown, shown_one, first_of, code_in, objects_of};

use dx_base::Code;
use dx_objects::{Kind, MembersError, Object, Part, RunFail};
use std::alloc::{AllocError, Global};
use std::rc::Rc;

fn has_members(object: &Object) -> bool
    ensures { result ≡ spec.has_members object.now }
{
    matches!(object.kind(), Kind::Group | Kind::Series)
}

pub(crate) fn member_count(object: &Object) -> usize
    ensures { result ≡ spec.member_count object.now }
{
    object.parts().len()
}

fn as_group<'a>(operand: Option<&'a Object>) -> Option<&'a Object>
    ensures { shown_one result ≡ spec.as_group (shown_one operand.entry) }
{
    match operand {
        Some(object) if has_members(object) => Some(object),
        _ => None,
    }
}

/// The first group or series.
pub(crate) fn first_group<'a>(operands: &[Option<&'a Object>]) -> Option<&'a Object>
    ensures { shown_one result ≡ first_of (spec.groups (shown operands.now)) }
{
    for operand in operands {
        if let Some(group) = as_group(*operand) {
            return Some(group);
        }
    }
    None
}

fn fits(operand: Option<&Object>, count: usize) -> bool
    ensures { result ≡ spec.fits_in count (spec.as_group (shown_one operand.entry)) }
{
    match as_group(operand) {
        None => true,
        Some(group) => member_count(group) == count,
    }
}

/// Whether each group or series has so many members.
pub(crate) fn are_alike(operands: &[Option<&Object>], count: usize) -> bool
    ensures { result ≡ spec.are_all count (map spec.member_count (spec.groups (shown operands.now))) }
{
    for operand in operands {
        if !fits(*operand, count) {
            return false;
        }
    }
    true
}

fn at_place<'a>(operand: Option<&'a Object>, place: usize) -> Option<&'a Object>
    ensures { shown_one result ≡ spec.at_place place (shown_one operand.entry) }
{
    match operand {
        None => None,
        Some(object) => {
            if has_members(object) {
                member_at(object, place)
            } else {
                Some(object)
            }
        }
    }
}

fn member_at(object: &Object, place: usize) -> Option<&Object>
    ensures { shown_one result ≡ spec.object_at (spec_parts object.now) place }
{
    object_at(object.parts(), place)
}

#[tactic(auto, using(dx_compute_meaning::proofs::Places::object_places))]
fn object_at(parts: &[Part], place: usize) -> Option<&Object>
    ensures { shown_one result ≡ spec.object_at (parts_of parts.now) place }
{
    if place < parts.len() {
        Some(&parts[place].object)
    } else {
        None
    }
}

/// The inputs with each group or series replaced by its member at a place.
pub(crate) fn all_at_place<'a>(
    alloc: Global,
    operands: &[Option<&'a Object>],
    place: usize,
) -> Result<Vec<Option<&'a Object>>, AllocError>
    ensures { IfOk result (λ found. shown found.items ≡ spec.all_at_place place (shown operands.now)) }
{
    let mut found = Vec::with_capacity(alloc, operands.len())?;
    for operand in operands {
        found.push(at_place(*operand, place))?;
    }
    Ok(found)
}

/// The group or series with these members in the places of its own: names, positions and attributes stay, and a
/// composite group stays one where all of them are fields. TooLarge, where that is beyond the limits of objects.
pub(crate) fn remade(
    alloc: Global,
    group: &Object,
    objects: &[Rc<Object>],
) -> Result<Object, RunFail>
    requires { spec.has_members group.now ≡ true }
    ensures { Answers code_in (in_limits (spec_remade group.now (objects_of objects.now))) result }
{
    match group.with_members(alloc, objects) {
        Ok(object) => Ok(object),
        Err(MembersError::TooLarge) => Err(RunFail::Code(Code::TooLarge)),
        Err(MembersError::Memory) => Err(RunFail::Memory),
        Err(MembersError::NotAGroup) => unreachable!(),
    }
}
