//! Collect, CollectNamed and CollectSeries.
ghost use Rattle.std.specs.Prelude.{◌≡◌, ◌≤◌, length, IfOk, OnOk};
ghost use Rattle.dx_base.specs.Object.{append};
ghost use Rattle.dx_base.specs.Modules.{Takes};
ghost use Rattle.dx_base.specs.declared.function.Module.TheVariants.{Collect, CollectNamed, CollectSeries};
ghost use Rattle.dx_objects.specs.Runs.{Gives};
ghost use Rattle.dx_select.specs.Answered.{GivesParts};
ghost use Rattle.dx_select.specs.Collect as spec;
ghost use Rattle.dx_select.specs.Collect.{collect_answer, collect_named_answer, collect_series_answer, GivesPart, Grows};
ghost use Rattle.dx_select.specs.Shown.{shown};
ghost use Rattle.dx_select.specs.declared.collect.Beside.TheVariants.{Name, Position};

use crate::inputs::input;
use crate::results::{new, refused};
use dx_base::Bytes;
use dx_objects::{Code, Object, ObjectError, Outs, Part, Parts, RunFail};
use std::alloc::{AllocError, Global};
use std::rc::Rc;

/// What stands beside the object in a pair: the member's name, or its position.
#[derive(Clone, Copy, Debug, PartialEq, Eq, Drop)]
pub(crate) enum Beside {
    Name,
    Position,
}

/// A group of the inputs that aren't NULL, as members without names (User's Reference, Collect). They are shared. TooLarge
/// where such a group would be beyond the limits of objects.
pub fn run_collect(alloc: Global, inputs: &Outs) -> Result<Outs, RunFail>
    requires { Takes Collect (length inputs.now) }
    ensures { Gives (collect_answer inputs.now) result }
{
    let members = members(alloc, inputs)?;
    match Object::group(members, Parts::new(alloc)) {
        Ok(group) => new(alloc, group),
        // No member has a name, so it is too large.
        Err(_) => refused(Code::TooLarge),
    }
}

/// A group of named members (User's Reference, CollectNamed). The inputs are pairs of an object and its name, a text, or
/// NULL for none; behind the last object the name may be missing. A pair whose object is NULL is passed over, whatever its
/// name is. The objects are shared.
///
/// BadArgument where a name is neither NULL nor a text, or two names are equal; then TooLarge.
pub fn run_collect_named(alloc: Global, inputs: &Outs) -> Result<Outs, RunFail>
    requires { Takes CollectNamed (length inputs.now) }
    ensures { Gives (collect_named_answer inputs.now) result }
{
    let members = paired(alloc, Beside::Name, inputs)?;
    match Object::group(members, Parts::new(alloc)) {
        Ok(group) => new(alloc, group),
        Err(error) => refused(code_of(error)),
    }
}

// A group of members is refused for its size, or for its names.
fn code_of(error: ObjectError) -> Code
    ensures { result ≡ spec.code_of error }
{
    match error {
        ObjectError::TooLarge => Code::TooLarge,
        ObjectError::BadNames | ObjectError::NotAnArray | ObjectError::MemberNotAField => {
            Code::BadArgument
        }
    }
}

/// A series (User's Reference, CollectSeries). The inputs are pairs of an object and its position, a number of the int
/// range. A pair whose object is NULL is passed over, whatever its position is. The objects are shared.
///
/// BadArgument where a position is no such number, or is missing behind the last object; then TooLarge.
pub fn run_collect_series(alloc: Global, inputs: &Outs) -> Result<Outs, RunFail>
    requires { Takes CollectSeries (length inputs.now) }
    ensures { Gives (collect_series_answer inputs.now) result }
{
    let members = paired(alloc, Beside::Position, inputs)?;
    match Object::series(members, Parts::new(alloc)) {
        Ok(series) => new(alloc, series),
        // No member has a name, so it is too large.
        Err(_) => refused(Code::TooLarge),
    }
}

// The inputs that aren't NULL, as members without names.
fn members(alloc: Global, inputs: &Outs) -> Result<Parts, AllocError>
    ensures { IfOk result (λ ps. ps ≡ spec.members inputs.now) }
{
    let mut members = Parts::new(alloc);
    for i in 0..inputs.len() {
        push_member(&mut members, input(inputs, i))?;
    }
    Ok(members)
}

#[tactic(auto, using(dx_objects::proofs::PartsLaws::appending))]
fn push_member(members: &mut Parts, value: Option<&Rc<Object>>) -> Result<(), AllocError>
    ensures { OnOk result (members.new ≡ append members.old (spec.member (shown value.entry))) }
{
    match value {
        None => Ok(()),
        Some(object) => {
            members.push(Part {
                name: None,
                position: 0,
                object: object.clone()?,
            })?;
            Ok(())
        }
    }
}

// The members that the pairs are.
fn paired(alloc: Global, beside: Beside, inputs: &Outs) -> Result<Parts, RunFail>
    requires { length inputs.now ≤ 64 }
    ensures { GivesParts (spec.paired beside inputs.now) result }
{
    let mut members = Parts::new(alloc);
    let pairs = (inputs.len() + 1) / 2;
    for i in 0..pairs {
        push_pair(
            alloc,
            &mut members,
            beside,
            input(inputs, 2 * i),
            input(inputs, 2 * i + 1),
        )?;
    }
    Ok(members)
}

#[tactic(auto, using(dx_objects::proofs::PartsLaws::appending))]
fn push_pair(
    alloc: Global,
    members: &mut Parts,
    beside: Beside,
    object: Option<&Rc<Object>>,
    value: Option<&Rc<Object>>,
) -> Result<(), RunFail>
    ensures { Grows (spec.pair beside (shown object.entry) (shown value.entry)) members.old members.new result }
{
    match object {
        None => Ok(()),
        Some(object) => match member(alloc, beside, object, value) {
            Err(fail) => Err(fail),
            Ok(part) => {
                members.push(part)?;
                Ok(())
            }
        },
    }
}

// The member that a pair is.
fn member(
    alloc: Global,
    beside: Beside,
    object: &Rc<Object>,
    value: Option<&Rc<Object>>,
) -> Result<Part, RunFail>
    ensures { GivesPart (spec.place beside (shown value.entry)) object.now.value result }
{
    match beside {
        Beside::Name => named_member(alloc, object, value),
        Beside::Position => placed_member(object, value),
    }
}

fn named_member(
    alloc: Global,
    object: &Rc<Object>,
    name: Option<&Rc<Object>>,
) -> Result<Part, RunFail>
    ensures { GivesPart (spec.place Name (shown name.entry)) object.now.value result }
{
    let name = match name {
        None => None,
        Some(name) => match name.as_text() {
            None => return Err(RunFail::Code(Code::BadArgument)),
            Some(text) => Some(Bytes::copy_of(alloc, text)?),
        },
    };
    Ok(Part {
        name,
        position: 0,
        object: object.clone()?,
    })
}

fn placed_member(object: &Rc<Object>, position: Option<&Rc<Object>>) -> Result<Part, RunFail>
    ensures { GivesPart (spec.place Position (shown position.entry)) object.now.value result }
{
    match position_of(position) {
        None => Err(RunFail::Code(Code::BadArgument)),
        Some(position) => Ok(Part {
            name: None,
            position,
            object: object.clone()?,
        }),
    }
}

// The position that a value is: a number of the int range.
fn position_of(value: Option<&Rc<Object>>) -> Option<i32>
    ensures { result ≡ spec.position (shown value.entry) }
{
    match value?.as_number() {
        None => None,
        Some(n) => match i32::try_from(n) {
            Ok(position) => Some(position),
            Err(_) => None,
        },
    }
}
