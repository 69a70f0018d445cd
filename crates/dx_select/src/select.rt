//! Select.
ghost use Rattle.std.specs.Prelude.{◌≡◌, length, Ok, Err, MatchResult};
ghost use Rattle.dx_base.specs.Modules.{Takes};
ghost use Rattle.dx_base.specs.Object.{parts};
ghost use Rattle.dx_base.specs.declared.function.Module.TheVariants.{Select};
ghost use Rattle.dx_objects.specs.Runs.{Gives};
ghost use Rattle.dx_objects.specs.Shown.{parts_of};
ghost use Rattle.dx_objects.specs.Values.{value_at};
ghost use Rattle.dx_select.specs.Select as spec;
ghost use Rattle.dx_select.specs.Select.{select_answer};
ghost use Rattle.dx_select.specs.Shown.{shown};

use crate::inputs::input;
use crate::results::{one, refused};
use dx_objects::{Code, Kind, Object, Outs, Part, RunFail};
use std::alloc::Global;
use std::rc::Rc;

/// A member of a group or series (User's Reference, Select). The inputs are the group or series; `which`, a number that
/// counts from 0, a text that names a member, or NULL for 0; and `except`, which has to be NULL. The member is shared, with
/// its attributes. Members of a series have no names.
///
/// BadArgument where the first input is no group and no series, or `which` is none of these; then Unsupported where `except`
/// isn't NULL; then NoMember where there is no such member. A name is looked up in steps that go with the logarithm of the
/// number of members.
pub fn run_select(alloc: Global, inputs: &Outs) -> Result<Outs, RunFail>
    requires { Takes Select (length inputs.now) }
    ensures { Gives (select_answer inputs.now) result }
{
    match selected(inputs) {
        Ok(member) => one(alloc, member.clone()?),
        Err(code) => refused(code),
    }
}

fn selected(inputs: &Outs) -> Result<&Rc<Object>, Code>
    ensures { MatchResult result (λ o. spec.selected (value_at inputs.now 0) (value_at inputs.now 1) (value_at inputs.now 2) ≡ Ok o.now.value) (λ code. spec.selected (value_at inputs.now 0) (value_at inputs.now 1) (value_at inputs.now 2) ≡ Err code) }
{
    let Some(object) = input(inputs, 0) else {
        return Err(Code::BadArgument);
    };
    let which = input(inputs, 1);
    if !has_members(object) || !can_choose(which) {
        return Err(Code::BadArgument);
    }
    if input(inputs, 2).is_some() {
        return Err(Code::Unsupported);
    }
    match chosen(object, which) {
        None => Err(Code::NoMember),
        Some(member) => Ok(member),
    }
}

pub(crate) fn has_members(object: &Object) -> bool
    ensures { result ≡ spec.has_members object.now }
{
    match object.kind() {
        Kind::Group | Kind::Series => true,
        Kind::Array | Kind::Text | Kind::Field => false,
    }
}

// Whether it is NULL, a number or a text.
fn can_choose(which: Option<&Rc<Object>>) -> bool
    ensures { result ≡ spec.can_choose (shown which.entry) }
{
    match which {
        None => true,
        Some(which) => which.as_number().is_some() || which.as_text().is_some(),
    }
}

// The member that is chosen.
fn chosen<'a>(object: &'a Object, which: Option<&Rc<Object>>) -> Option<&'a Rc<Object>>
    ensures { shown result ≡ spec.chosen (shown which.entry) object.now }
{
    let Some(which) = which else {
        return at_number(object.parts(), 0);
    };
    if let Some(n) = which.as_number() {
        return at_number(object.parts(), n);
    }
    match which.as_text() {
        None => None,
        Some(name) => object.member(name),
    }
}

// The member at a number that counts from 0.
#[tactic(auto, using(crate::proofs::SelectLaws::numbers))]
fn at_number(parts: &[Part], n: i64) -> Option<&Rc<Object>>
    ensures { shown result ≡ spec.at_number n (parts_of parts.now) }
{
    if n < 0 {
        return None;
    }
    at_place(parts, n as usize)
}

fn at_place(parts: &[Part], place: usize) -> Option<&Rc<Object>>
    ensures { shown result ≡ spec.at_place (parts_of parts.now) place }
{
    match parts.get(place) {
        None => None,
        Some(part) => Some(&part.object),
    }
}
