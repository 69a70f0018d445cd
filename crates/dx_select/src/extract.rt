//! Extract.
ghost use Rattle.std.specs.Prelude.{◌≡◌, length, true, false, IfSome};
ghost use Rattle.dx_base.specs.Modules.{Takes};
ghost use Rattle.dx_base.specs.declared.function.Module.TheVariants.{Extract};
ghost use Rattle.dx_base.specs.ObjectLimits.{fits};
ghost use Rattle.dx_base.specs.ObjectMembers.{with_members};
ghost use Rattle.dx_objects.specs.Members.{trees};
ghost use Rattle.dx_objects.specs.Runs.{Gives};
ghost use Rattle.dx_objects.specs.Shown.{parts_of};
ghost use Rattle.dx_select.specs.Answered.{GivesObject, GivesObjects, needed};
ghost use Rattle.dx_select.specs.Extract as spec;
ghost use Rattle.dx_select.specs.Extract.{extract_answer};
ghost use Rattle.dx_select.specs.Select.{has_members};

use crate::inputs::{input, name_or_data};
use crate::results::{one, refused, shared};
use crate::select::has_members;
use dx_base::Items;
use dx_objects::{Code, MembersError, Object, Outs, Part, RunFail};
use std::alloc::Global;
use std::rc::Rc;

/// A component of a field, or of each field in a group or series (User's Reference, Extract). The inputs are the field,
/// group or series; and the component's name, a text, or NULL for `data`. In a group or series, what a member gives takes
/// that member's place, while names, positions and its attributes stay; a composite group stays one where its new members
/// are all fields, so only where it has none. Components are shared, with their attributes.
///
/// BadArgument where the input is none of these or the name is no text. Of a group or series the first member that is
/// refused decides, depth first: BadArgument for an array or a text, NoComponent for a field without such a component.
pub fn run_extract(alloc: Global, inputs: &Outs) -> Result<Outs, RunFail>
    requires { Takes Extract (length inputs.now) }
    ensures { Gives (extract_answer inputs.now) result }
{
    let Some(object) = input(inputs, 0) else {
        return refused(Code::BadArgument);
    };
    let Some(name) = name_or_data(input(inputs, 1)) else {
        return refused(Code::BadArgument);
    };
    match extracted(alloc, name, object) {
        Ok(found) => one(alloc, found),
        Err(fail) => Err(fail),
    }
}

// What an object gives under a name.
#[cycle(extract)]
fn extracted(alloc: Global, name: &[u8], object: &Object) -> Result<Rc<Object>, RunFail>
    ensures { GivesObject (spec.extracted name.now object.now) result }
{
    if !has_members(object) {
        return component_of(name, object);
    }
    // Asked so that the proof knows that the object can be made.
    let _size = object.size();
    let members = all_extracted(alloc, name, object.parts())?;
    regrouped(alloc, object, members.as_slice())
}

// What each of these members gives.
#[cycle(extract)]
fn all_extracted(alloc: Global, name: &[u8], parts: &[Part]) -> Result<Items<Rc<Object>>, RunFail>
    ensures { GivesObjects (spec.all_extracted name.now (parts_of parts.now)) result }
{
    let mut found = Items::new(alloc);
    for part in parts {
        found.push(extracted(alloc, name, &part.object)?)?;
    }
    Ok(found)
}

// What an object gives that has no members: a field gives its component.
#[tactic(auto, using(crate::proofs::ExtractLaws::alone))]
fn component_of(name: &[u8], object: &Object) -> Result<Rc<Object>, RunFail>
    requires { has_members object.now ≡ false }
    ensures { GivesObject (spec.extracted name.now object.now) result }
{
    if !object.is_field() {
        return Err(RunFail::Code(Code::BadArgument));
    }
    match object.component(name) {
        None => Err(RunFail::Code(Code::NoComponent)),
        Some(component) => Ok(component.clone()?),
    }
}

// The group or series with these objects in the places of its members.
fn regrouped(alloc: Global, object: &Object, members: &[Rc<Object>]) -> Result<Rc<Object>, RunFail>
    requires { IfSome (with_members (trees members.now) object.now) (λ u. fits u ≡ true) }
    ensures { GivesObject (needed (with_members (trees members.now) object.now)) result }
{
    match object.with_members(alloc, members) {
        Ok(group) => Ok(shared(alloc, group)?),
        Err(MembersError::NotAGroup) => Err(RunFail::Code(Code::BadArgument)),
        Err(MembersError::Memory) => Err(RunFail::Memory),
        Err(MembersError::TooLarge) => unreachable!(),
    }
}
