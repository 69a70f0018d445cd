//! Texts, and groups of them.
ghost use Rattle.std.specs.Prelude.{◌≡◌, ◌≤◌, IfOk, IsTrue};
ghost use Rattle.dx_base.specs.Object as spec;
ghost use Rattle.dx_base.specs.ObjectLimits.{fits, max_size};
ghost use Rattle.dx_ast.specs.Value.{members as spec_members};

use dx_base::Bytes;
use dx_objects::{Object, Part, Parts};
use std::alloc::{AllocError, Global};
use std::rc::Rc;

/// The text of these bytes, in memory of its own.
pub(crate) fn text(alloc: Global, bytes: &[u8]) -> Result<Rc<Object>, AllocError>
    requires { IsTrue (fits (spec.text bytes.now spec.no_parts)) }
    ensures { IfOk result (λ o. o.value ≡ spec.text bytes.now spec.no_parts) }
{
    let copy = Bytes::copy_of(alloc, bytes)?;
    let object = Object::text(copy, Parts::new(alloc)).unwrap();
    Ok(Rc::new(alloc, object)?)
}

/// The group of these texts, which have no names.
#[tactic(auto, using(crate::proofs::Members::member_laws))]
pub(crate) fn group_of(alloc: Global, texts: &[Bytes]) -> Result<Rc<Object>, AllocError>
    requires { IsTrue (fits (spec.group (spec_members texts.now) spec.no_parts)) }
    ensures { IfOk result (λ o. o.value ≡ spec.group (spec_members texts.now) spec.no_parts) }
{
    let members = members(alloc, texts)?;
    let object = Object::group(members, Parts::new(alloc)).unwrap();
    Ok(Rc::new(alloc, object)?)
}

// The texts as parts without names.
#[tactic(auto, using(crate::proofs::Members::member_laws))]
fn members(alloc: Global, texts: &[Bytes]) -> Result<Parts, AllocError>
    requires { spec.total_size (spec_members texts.now) ≤ max_size }
    ensures { IfOk result (λ parts. parts ≡ spec_members texts.now) }
{
    let mut members = Vec::with_capacity(alloc, texts.len())?;
    for t in texts {
        members.push(Part {
            name: None,
            position: 0,
            object: text(alloc, t.bytes())?,
        })?;
    }
    let parts = Parts::from_vec(alloc, members)?;
    Ok(parts)
}
