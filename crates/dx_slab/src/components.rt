//! The slab of a field, component by component.
ghost use Rattle.std.specs.Prelude.{◌≡◌, ◌≢◌, false, OnOk, IfOk};
ghost use Rattle.dx_base.specs.Object.{array as array_tree, attributes, no_parts, part as one_part, append};
ghost use Rattle.dx_objects.specs.Shown.{parts_of};
ghost use Rattle.dx_slab.specs.Components as spec;
ghost use Rattle.dx_slab.specs.Gives.{GivesArray, GivesShared, GivesParts, Grows};
ghost use Rattle.dx_slab.specs.Lawful.{IsCutOf, PlaysRole, PlayRoles};
ghost use Rattle.dx_slab.specs.declared.role.Role.TheVariants.{Other};

use crate::cut::{Cut, cut_connections, cut_positions, joined_counts, on_cells, on_points};
use crate::results::shared;
use crate::role::{Role, role_of};
use dx_base::Bytes;
use dx_objects::{Array, Code, Object, Part, Parts, RunFail};
use std::alloc::{AllocError, Global};
use std::rc::Rc;

/// The components of the slab of a field that have these parts. TooLarge where no object can hold one of them.
pub(crate) fn cut_parts(
    alloc: Global,
    parts: &[Part],
    counts: &[u32],
    cut: Cut,
) -> Result<Parts, RunFail>
    requires cut { IsCutOf counts.now cut }
    requires roles { PlayRoles counts.now (parts_of parts.now) }
    ensures { GivesParts (spec.cut_parts counts.now cut (parts_of parts.now)) result }
{
    let has_no_cells = has_no_cells(alloc, counts, cut)?;
    let mut own = Parts::new(alloc);
    for part in parts {
        push_cut(alloc, &mut own, part, has_no_cells, counts, cut)?;
    }
    Ok(own)
}

fn has_no_cells(alloc: Global, counts: &[u32], cut: Cut) -> Result<bool, AllocError>
    requires { IsCutOf counts.now cut }
    ensures { IfOk result (λ none. none ≡ spec.has_no_cells counts.now cut) }
{
    Ok(joined_counts(alloc, counts, cut)?.is_empty())
}

// What becomes of a component, if it stays.
fn push_cut(
    alloc: Global,
    own: &mut Parts,
    part: &Part,
    has_no_cells: bool,
    counts: &[u32],
    cut: Cut,
) -> Result<(), RunFail>
    requires cut { IsCutOf counts.now cut }
    requires cells { has_no_cells ≡ spec.has_no_cells counts.now cut }
    requires role { PlaysRole counts.now (spec.role part.now.name part.now.object.value) part.now.object.value }
    ensures { Grows (spec.cut_part counts.now cut part.now.name part.now.position part.now.object.value) own.old own.new result }
{
    let role = role_of(part);
    if has_no_cells && role.is_of_cells() {
        return Ok(());
    }
    match cut_component(alloc, &part.object, role, counts, cut) {
        Err(fail) => Err(fail),
        Ok(object) => Ok(push(alloc, own, part, object)?),
    }
}

// A part with this object in the place of its own.
#[tactic(auto, using(dx_objects::proofs::PartsLaws::appending))]
fn push(alloc: Global, own: &mut Parts, part: &Part, object: Rc<Object>) -> Result<(), AllocError>
    ensures { OnOk result (own.new ≡ append own.old (one_part part.now.name part.now.position object.value no_parts)) }
{
    let name = copy_of_name(alloc, &part.name)?;
    own.push(Part {
        name,
        position: part.position,
        object,
    })
}

fn copy_of_name(alloc: Global, name: &Option<Bytes>) -> Result<Option<Bytes>, AllocError>
    ensures { IfOk result (λ own. own ≡ name.now) }
{
    match name {
        None => Ok(None),
        Some(bytes) => Ok(Some(Bytes::copy_of(alloc, bytes.bytes())?)),
    }
}

// What becomes of a component that stays.
fn cut_component(
    alloc: Global,
    object: &Rc<Object>,
    role: Role,
    counts: &[u32],
    cut: Cut,
) -> Result<Rc<Object>, RunFail>
    requires cut { IsCutOf counts.now cut }
    requires role { PlaysRole counts.now role object.now.value }
    requires stays { spec.is_dropped counts.now cut role ≡ false }
    ensures { GivesShared (spec.cut_component counts.now cut role object.now.value) result }
{
    if role == Role::Other {
        return Ok(object.clone()?);
    }
    match object.as_array() {
        None => Ok(object.clone()?),
        Some(array) => match cut_array(alloc, array, role, counts, cut) {
            Err(fail) => Err(fail),
            Ok(own) => remade(alloc, own, object),
        },
    }
}

// What becomes of an array.
fn cut_array(
    alloc: Global,
    array: &Array,
    role: Role,
    counts: &[u32],
    cut: Cut,
) -> Result<Array, RunFail>
    requires cut { IsCutOf counts.now cut }
    requires changes { role ≢ Other }
    requires role { PlaysRole counts.now role (array_tree array.now no_parts) }
    requires stays { spec.is_dropped counts.now cut role ≡ false }
    ensures { GivesArray (spec.cut_array counts.now cut role array.now) result }
{
    match role {
        Role::Positions => Ok(cut_positions(alloc, array, counts, cut)?),
        Role::Connections => Ok(cut_connections(alloc, array, counts, cut)?),
        Role::OnPoints => on_points(alloc, array, counts, cut),
        Role::OnCells => on_cells(alloc, array, counts, cut),
        Role::Other => unreachable!(),
    }
}

// An array with the attributes of an object.
fn remade(alloc: Global, own: Array, object: &Object) -> Result<Rc<Object>, RunFail>
    ensures { GivesShared (array_tree own (attributes object.now)) result }
{
    // Asked so that the proof knows that the object can be made.
    let _size = object.size();
    let attributes = Parts::copy_of(alloc, object.attributes())?;
    match Object::array(own, attributes) {
        Ok(own) => Ok(shared(alloc, own)?),
        // The attributes are good, so it is too large.
        Err(_) => Err(RunFail::Code(Code::TooLarge)),
    }
}
