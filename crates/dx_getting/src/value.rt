//! Values that need no get, and results of known calls.
ghost use Rattle.std.specs.Prelude.{◌≡◌, ◌<◌, Some, None, true, length, is_some, slice_get, nat_eq, IfOk};
ghost use Rattle.std.specs.Map.{lookup};
ghost use Rattle.dx_objects.specs.Values.{value_of, value_at};
ghost use Rattle.dx_objects.specs.Runs.{Values};
ghost use Rattle.dx_ast.specs.Lawful.{IsLawfulConst};
ghost use Rattle.dx_ast.specs.Value.{value_of as constant_of};
ghost use Rattle.dx_tags.specs.Closed.{head_at, heads_of};
ghost use Rattle.dx_tags.specs.declared.term.Term.TheVariants.{Constant};
ghost use Rattle.dx_getting.specs.Stands.{setting_of, AreExact};
ghost use Rattle.dx_getting.specs.Steps.{GivenBy};

use crate::known::Known;
use crate::scene::{Called, Scene, Sites};
use dx_ast::Const;
use dx_consts::object_of;
use dx_links::Links;
use dx_objects::{Object, Outs, Value};
use dx_tags::{Named, Tag, Term, ValueTag};
use std::alloc::{AllocError, Global};
use std::rc::Rc;

/// A value that needs no get, or none.
#[derive(Drop)]
pub enum Given {
    Ready(Value),
    ToGet,
}

// An object that is shared.
pub(crate) fn shared(object: &Rc<Object>) -> Result<Value, AllocError>
    ensures { IfOk result (λ v. value_of v ≡ Some object.now.value) }
{
    Ok(Some(object.clone()?))
}

// A value of a list that is shared, NULL behind its end.
pub(crate) fn value_in(outs: &Outs, i: usize) -> Result<Value, AllocError>
    ensures { IfOk result (λ v. value_of v ≡ value_at outs.now i) }
{
    match outs.value(i) {
        None => Ok(None),
        Some(object) => shared(object),
    }
}

// The value of a number that was held at the last emptying.
fn value_held(links: &Links, n: u64) -> Result<Value, AllocError>
    ensures { IfOk result (λ v. value_of v ≡ value_at links.now.held n) }
{
    match links.value_held(n as usize) {
        None => Ok(None),
        Some(object) => shared(object),
    }
}

// The value of a constant that a tag names: its object is shared where the terms keep it, and else made.
#[tactic(auto, using(dx_tags::proofs::MadeLaws::made_value))]
fn constant_value(scene: &Scene, tag: Tag, c: &Const) -> Result<Value, AllocError>
    requires named { slice_get scene.now.tags.now tag ≡ Some (Constant c.now) }
    requires lawful { IsLawfulConst c.now }
    ensures { IfOk result (λ v. value_of v ≡ constant_of c.now) }
{
    match scene.tags.object(tag) {
        Some(object) => shared(object),
        None => object_of(scene.alloc, c),
    }
}

/// The value of a constant, of a held value, or of the links whose term it is.
pub(crate) fn value_given(scene: &Scene, t: ValueTag) -> Result<Given, AllocError>
    requires within { t.tag < length scene.now.tags.now }
    requires exact { AreExact scene.now.tags.now }
    ensures { IfOk result (λ g. (formed : _) → GivenBy (setting_of scene.now formed) t (head_at (heads_of scene.now.tags.now) t.tag) g) }
{
    match scene.tags.term(t.tag) {
        Named::Held(n) => Ok(Given::Ready(value_held(scene.held, n)?)),
        Named::Formed(Term::Held(n)) => Ok(Given::Ready(value_held(scene.held, *n)?)),
        Named::Formed(Term::Constant(c)) => Ok(Given::Ready(constant_value(scene, t.tag, c)?)),
        Named::Formed(Term::File(_)) => Ok(Given::Ready(None)),
        Named::Formed(Term::Call(_, _)) => match scene.links.get(t) {
            None => Ok(Given::ToGet),
            Some(object) => Ok(Given::Ready(shared(object)?)),
        },
    }
}

/// A result of a known call.
pub(crate) fn result_known(known: &Known, t: ValueTag) -> Result<Value, AllocError>
    ensures { IfOk result (λ v. (outs : Values) → lookup (nat_eq t.tag) known.now.calls ≡ Some outs → value_of v ≡ value_at outs t.result) }
{
    match known.outs(t.tag) {
        None => Ok(None),
        Some(outs) => value_in(outs, t.result as usize),
    }
}

/// The first call that formed a term.
pub(crate) fn called_at<S: Sites>(alloc: Global, sites: &S, tag: Tag) -> Result<Called, AllocError>
    requires formed { is_some (lookup (nat_eq tag) (S.formed sites.now)) ≡ true }
    ensures { IfOk result (λ called. lookup (nat_eq tag) (S.formed sites.now) ≡ Some called) }
{
    match sites.called(alloc, tag)? {
        None => unreachable!(),
        Some(called) => Ok(called),
    }
}
