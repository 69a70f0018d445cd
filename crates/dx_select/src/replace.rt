//! Replace.
ghost use Rattle.std.specs.Prelude.{◌≡◌, length, true, IfOk, MatchResult, Ok, Err};
ghost use Rattle.dx_base.specs.Modules.{Takes};
ghost use Rattle.dx_base.specs.ObjectLimits.{is_field, is_array};
ghost use Rattle.dx_base.specs.declared.function.Module.TheVariants.{Replace};
ghost use Rattle.dx_objects.specs.Runs.{Gives};
ghost use Rattle.dx_select.specs.Answered.{one_result};
ghost use Rattle.dx_select.specs.Replace as spec;
ghost use Rattle.dx_select.specs.Replace.{replace_answer};
ghost use Rattle.dx_select.specs.Shown.{shown};

use crate::inputs::{field_in, input, name_or_data};
use crate::results::{new, refused};
use dx_base::Bytes;
use dx_objects::{Code, Kind, Object, Outs, RunFail, WithError};
use std::alloc::Global;
use std::rc::Rc;

/// A field with another component, or without one (User's Reference, Replace). The inputs are `srcfield`, an array, a field
/// or NULL; `dstfield`, a field; and `srcname` and `dstname`, each a text, or NULL for `data`. The component `srcname` of
/// the first field, or the array itself, is put into the second field under `dstname`, in the place of the component that
/// has this name, or last. Where `srcfield` is NULL, the component `dstname` is taken away. All components are shared and
/// keep their attributes, and so does the field.
///
/// BadArgument where an input is none of these; then NoComponent where the component to be taken isn't there; then TooLarge.
pub fn run_replace(alloc: Global, inputs: &Outs) -> Result<Outs, RunFail>
    requires { Takes Replace (length inputs.now) }
    ensures { Gives (replace_answer inputs.now) result }
{
    let Some(whole) = field_in(input(inputs, 1)) else {
        return refused(Code::BadArgument);
    };
    let Some(source_name) = name_or_data(input(inputs, 2)) else {
        return refused(Code::BadArgument);
    };
    let Some(name) = name_or_data(input(inputs, 3)) else {
        return refused(Code::BadArgument);
    };
    match input(inputs, 0) {
        None => without_part(alloc, name, whole),
        Some(source) => match taken_from(source, source_name) {
            Err(code) => refused(code),
            Ok(component) => with_part(alloc, name, component, whole),
        },
    }
}

// The component that is taken from an input.
#[tactic(auto, using(crate::proofs::ComponentLaws::component_array))]
fn taken_from<'a>(source: &'a Rc<Object>, name: &[u8]) -> Result<&'a Rc<Object>, Code>
    ensures taken { MatchResult result (λ o. spec.taken_from source.entry.now.value name.now ≡ Ok o.now.value) (λ code. spec.taken_from source.entry.now.value name.now ≡ Err code) }
    ensures array { IfOk result (λ o. is_array o.now.value ≡ true) }
{
    // Asked so that the proof knows that a field's components are arrays.
    let _size = source.size();
    match source.kind() {
        Kind::Array => Ok(source),
        Kind::Field => match source.component(name) {
            None => Err(Code::NoComponent),
            Some(component) => Ok(component),
        },
        Kind::Text | Kind::Group | Kind::Series => Err(Code::BadArgument),
    }
}

// The field with a component under a name.
fn with_part(
    alloc: Global,
    name: &[u8],
    component: &Rc<Object>,
    whole: &Object,
) -> Result<Outs, RunFail>
    requires whole { is_field whole.now ≡ true }
    requires component { is_array component.now.value ≡ true }
    ensures { Gives (one_result (spec.with_part name.now component.now.value whole.now)) result }
{
    let name = Bytes::copy_of(alloc, name)?;
    match whole.with_component(alloc, &name, component.clone()?) {
        Ok(field) => new(alloc, field),
        Err(WithError::TooLarge) => refused(Code::TooLarge),
        Err(WithError::Memory) => Err(RunFail::Memory),
        Err(_) => unreachable!(),
    }
}

// The field without the component of a name.
fn without_part(alloc: Global, name: &[u8], whole: &Object) -> Result<Outs, RunFail>
    requires { is_field whole.now ≡ true }
    ensures { Gives (one_result (spec.without_part name.now whole.now)) result }
{
    match whole.without_component(alloc, name) {
        Ok(field) => new(alloc, field),
        Err(WithError::NoComponent) => refused(Code::NoComponent),
        Err(WithError::Memory) => Err(RunFail::Memory),
        Err(_) => unreachable!(),
    }
}
