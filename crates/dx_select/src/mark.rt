//! Mark and Unmark.
ghost use Rattle.std.specs.Prelude.{◌≡◌, length, true, IfOk, MatchResult, Ok, Err};
ghost use Rattle.dx_base.specs.Modules.{Takes};
ghost use Rattle.dx_base.specs.Object.{parts};
ghost use Rattle.dx_base.specs.ObjectLimits.{is_array, is_field};
ghost use Rattle.dx_base.specs.ObjectNames as names;
ghost use Rattle.dx_base.specs.declared.function.Module.TheVariants.{Mark, Unmark};
ghost use Rattle.dx_objects.specs.Runs.{Gives};
ghost use Rattle.dx_objects.specs.Shown.{parts_of};
ghost use Rattle.dx_select.specs.Answered.{GivesParts, one_result};
ghost use Rattle.dx_select.specs.Components.{AreComponents};
ghost use Rattle.dx_select.specs.Inputs.{data_name};
ghost use Rattle.dx_select.specs.Mark as spec;
ghost use Rattle.dx_select.specs.Mark.{mark_answer, unmark_answer};
ghost use Rattle.dx_select.specs.Shown.{shown};

use crate::inputs::{DATA, SAVED, field_in, input, text_in};
use crate::results::{new, refused};
use dx_objects::{Code, Object, Outs, Part, Parts, RunFail};
use std::alloc::{AllocError, Global};
use std::rc::Rc;

/// A field with another component as its data (User's Reference, Mark). The inputs are the field and the component's name.
/// What was `data` is kept as `saved data`, last; then `data` becomes the named component, in its place, or last. All
/// components are shared and keep their attributes, and so does the field.
///
/// BadArgument where the first input is no field or has `saved data` already, or the second is no text; then NoComponent
/// where it has no such component; then TooLarge.
pub fn run_mark(alloc: Global, inputs: &Outs) -> Result<Outs, RunFail>
    requires { Takes Mark (length inputs.now) }
    ensures { Gives (mark_answer inputs.now) result }
{
    let Some(whole) = field_in(input(inputs, 0)) else {
        return refused(Code::BadArgument);
    };
    let Some(name) = text_in(input(inputs, 1)) else {
        return refused(Code::BadArgument);
    };
    if whole.component(SAVED).is_some() {
        return refused(Code::BadArgument);
    }
    match whole.component(name) {
        None => refused(Code::NoComponent),
        Some(component) => {
            let parts = marked(alloc, component, whole)?;
            remade(alloc, whole, parts)
        }
    }
}

/// A marked field as it was before, with its data under the name by which it was marked (User's Reference, Unmark). The
/// inputs are the field and the name. First `data` is put under this name too, in the place of the component that has it,
/// or last where none has. Then, where there is `saved data`, this is put back as `data`, and `saved data` is taken away;
/// and where there is none, `data` is taken away, unless it is the name. All components are shared and keep their
/// attributes, and so does the field.
///
/// BadArgument where the first input is no field or the second no text; then NoComponent where the field has no `data`; then
/// TooLarge.
pub fn run_unmark(alloc: Global, inputs: &Outs) -> Result<Outs, RunFail>
    requires { Takes Unmark (length inputs.now) }
    ensures { Gives (unmark_answer inputs.now) result }
{
    let Some(whole) = field_in(input(inputs, 0)) else {
        return refused(Code::BadArgument);
    };
    let Some(name) = text_in(input(inputs, 1)) else {
        return refused(Code::BadArgument);
    };
    match whole.component(DATA) {
        None => refused(Code::NoComponent),
        Some(own) => {
            let parts = unmarked(alloc, name, own, whole)?;
            remade(alloc, whole, parts)
        }
    }
}

// The components of a field, with this one as the data.
fn marked(alloc: Global, component: &Rc<Object>, whole: &Object) -> Result<Parts, AllocError>
    ensures { IfOk result (λ ps. ps ≡ names.put data_name component.now.value (spec.with_saved (names.component data_name whole.now) (parts whole.now))) }
{
    let parts = match whole.component(DATA) {
        None => Parts::copy_of(alloc, whole.parts())?,
        Some(data) => Parts::copy_with(alloc, whole.parts(), SAVED, data.clone()?)?,
    };
    Parts::copy_with(alloc, parts.as_slice(), DATA, component.clone()?)
}

// The components of a field, with its data under the name, and with the data that was saved.
fn unmarked(
    alloc: Global,
    name: &[u8],
    own: &Rc<Object>,
    whole: &Object,
) -> Result<Parts, AllocError>
    ensures { IfOk result (λ ps. ps ≡ spec.restored name.now (names.put name.now own.now.value (parts whole.now))) }
{
    let moved = Parts::copy_with(alloc, whole.parts(), name, own.clone()?)?;
    restored(alloc, name, moved)
}

// The components with the data that was saved, behind the first step of Unmark.
fn restored(alloc: Global, name: &[u8], moved: Parts) -> Result<Parts, AllocError>
    ensures { IfOk result (λ ps. ps ≡ spec.restored name.now moved) }
{
    let Some(saved) = find(moved.as_slice(), SAVED) else {
        if name == DATA {
            return Ok(moved);
        }
        return Parts::copy_without(alloc, moved.as_slice(), DATA);
    };
    let parts = Parts::copy_with(alloc, moved.as_slice(), DATA, saved.clone()?)?;
    Parts::copy_without(alloc, parts.as_slice(), SAVED)
}

// The object of the first part of this name.
fn find<'a>(parts: &'a [Part], name: &[u8]) -> Option<&'a Rc<Object>>
    ensures { shown result ≡ names.find name.now (parts_of parts.now) }
{
    for part in parts {
        if is_named(part, name) {
            return Some(&part.object);
        }
    }
    None
}

fn is_named(part: &Part, name: &[u8]) -> bool
    ensures { result ≡ names.same_name name.now part.now.name }
{
    match &part.name {
        None => false,
        Some(own) => name == own.bytes(),
    }
}

// The field with these components in the place of its own.
fn remade(alloc: Global, whole: &Object, parts: Parts) -> Result<Outs, RunFail>
    requires whole { is_field whole.now ≡ true }
    requires parts { AreComponents parts }
    ensures { Gives (one_result (spec.remade whole.now parts)) result }
{
    // Asked so that the proof knows that the field can be made.
    let _size = whole.size();
    let attributes = Parts::copy_of(alloc, whole.attributes())?;
    match Object::field(parts, attributes) {
        Ok(field) => new(alloc, field),
        // The components are good, so it is too large.
        Err(_) => refused(Code::TooLarge),
    }
}
