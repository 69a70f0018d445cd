//! Slab.
ghost use Rattle.std.specs.Prelude.{◌≡◌, ◌<◌, ◌≤◌, ◌+◌, ◌-◌, true, pos, None, length, slice_index, OnOk};
ghost use Rattle.dx_base.specs.Modules.{Takes};
ghost use Rattle.dx_base.specs.Object.{field, parts, attributes, no_parts, part as one_part, append};
ghost use Rattle.dx_base.specs.ObjectLimits.{is_field};
ghost use Rattle.dx_base.specs.declared.function.Module.TheVariants.{Slab};
ghost use Rattle.dx_objects.specs.Runs.{Gives};
ghost use Rattle.dx_slab.specs.Answer.{slab_answer, slab_asked, series_of};
ghost use Rattle.dx_slab.specs.Answered.{in_limits};
ghost use Rattle.dx_slab.specs.Components as spec;
ghost use Rattle.dx_slab.specs.Gives.{GivesTree, GivesParts, Grows};
ghost use Rattle.dx_slab.specs.Lawful.{IsCutOf, IsAskedOf, PlayRoles};
ghost use Rattle.dx_slab.specs.Whole.{AreComponents, many_fit};

use crate::checks::counts_in;
use crate::components::cut_parts;
use crate::cut::Cut;
use crate::inputs::{Asked, asked_in, field_in, input};
use crate::results::{one, refused, shared};
use dx_objects::{Code, MAX_COUNT, MAX_LEVELS, MAX_SIZE, Object, Outs, Part, Parts, RunFail};
use std::alloc::{AllocError, Global};

/// A slab of a field that is a regular grid, or the series of all its slabs along one dimension (User's Reference, Slab).
/// The inputs are the field; the dimension, a number that counts from 0 or one of the letters `x`, `y` and `z`; the
/// position, a number, or NULL for each; and the thickness, a number, or NULL for 0. A slab at position q and of
/// thickness t keeps the points whose index in the dimension is q to q + t, and the cells between them; of thickness 0 it
/// keeps the cells behind its points, or before them at the last index. What depends on points or cells is cut with them
/// and becomes a plain array; `data` that names nothing depends on the points; another component that depends on a third
/// one, or on nothing, stays as it is. Dimensions of one point are no dimensions of the cells; where no dimension is left,
/// there are no cells. All attributes stay.
///
/// BadArgument where the first input is no field; then BadField where the field has a fault; then NotRegular where it is no
/// regular grid, or a component but `connections` refers to another one; then BadField where `data` depends on nothing and
/// hasn't an item for each point; then BadArgument where the dimension, the position or the thickness is none, or the slab
/// passes the last point; then TooLarge. A series that would be too large is told by its first slab.
pub fn run_slab(alloc: Global, inputs: &Outs) -> Result<Outs, RunFail>
    requires { Takes Slab (length inputs.now) }
    ensures { Gives (slab_answer inputs.now) result }
{
    let Some(whole) = field_in(input(inputs, 0)) else {
        return refused(Code::BadArgument);
    };
    let counts = match counts_in(whole) {
        Err(code) => return refused(code),
        Ok(counts) => counts,
    };
    match asked_in(counts, inputs) {
        None => refused(Code::BadArgument),
        Some(asked) => match made(alloc, whole, counts, asked) {
            Err(fail) => Err(fail),
            Ok(object) => one(alloc, object),
        },
    }
}

// The slab or the series that is asked for.
fn made(alloc: Global, whole: &Object, counts: &[u32], asked: Asked) -> Result<Object, RunFail>
    requires field { is_field whole.now ≡ true }
    requires asked { IsAskedOf counts.now asked }
    requires roles { PlayRoles counts.now (parts whole.now) }
    ensures { GivesTree (in_limits (slab_asked whole.now counts.now asked)) result }
{
    match asked {
        Asked::One(cut) => slab(alloc, whole, counts, cut),
        Asked::Each(dimension, thickness) => series(alloc, whole, counts, dimension, thickness),
    }
}

// The slab of a field.
fn slab(alloc: Global, whole: &Object, counts: &[u32], cut: Cut) -> Result<Object, RunFail>
    requires field { is_field whole.now ≡ true }
    requires cut { IsCutOf counts.now cut }
    requires roles { PlayRoles counts.now (parts whole.now) }
    ensures { GivesTree (in_limits (spec.slab counts.now cut whole.now)) result }
{
    // Asked so that the proof knows that the field can be made.
    let _size = whole.size();
    match cut_parts(alloc, whole.parts(), counts, cut) {
        Err(fail) => Err(fail),
        Ok(parts) => remade(alloc, whole, parts),
    }
}

// The field with these components in the place of its own.
fn remade(alloc: Global, whole: &Object, parts: Parts) -> Result<Object, RunFail>
    requires field { is_field whole.now ≡ true }
    requires parts { AreComponents parts }
    ensures { GivesTree (in_limits (field parts (attributes whole.now))) result }
{
    // Asked so that the proof knows that the field can be made.
    let _size = whole.size();
    let attributes = Parts::copy_of(alloc, whole.attributes())?;
    match Object::field(parts, attributes) {
        Ok(slab) => Ok(slab),
        // The components are good, so it is too large.
        Err(_) => Err(RunFail::Code(Code::TooLarge)),
    }
}

// The series of all slabs of a thickness. The first one tells how large all are.
fn series(
    alloc: Global,
    whole: &Object,
    counts: &[u32],
    dimension: usize,
    thickness: u64,
) -> Result<Object, RunFail>
    requires field { is_field whole.now ≡ true }
    requires cut { IsCutOf counts.now (record { dimension = dimension; first = 0; thickness = thickness }) }
    requires roles { PlayRoles counts.now (parts whole.now) }
    ensures { GivesTree (in_limits (series_of counts.now dimension thickness whole.now)) result }
{
    let number = counts[dimension] as u64 - thickness;
    let cut = Cut {
        dimension,
        first: 0,
        thickness,
    };
    match slab(alloc, whole, counts, cut) {
        Err(fail) => Err(fail),
        Ok(first) => series_from(alloc, whole, counts, cut, number, first),
    }
}

// The series of so many slabs, of which this is the first.
fn series_from(
    alloc: Global,
    whole: &Object,
    counts: &[u32],
    cut: Cut,
    number: u64,
    first: Object,
) -> Result<Object, RunFail>
    requires field { is_field whole.now ≡ true }
    requires cut { IsCutOf counts.now cut }
    requires begin { cut.first ≡ 0 }
    requires number { number + cut.thickness ≡ slice_index counts.now cut.dimension }
    requires roles { PlayRoles counts.now (parts whole.now) }
    requires first { first ≡ spec.slab counts.now cut whole.now }
    ensures { GivesTree (in_limits (series_of counts.now cut.dimension cut.thickness whole.now)) result }
{
    if !many_fit(&first, number) {
        return Err(RunFail::Code(Code::TooLarge));
    }
    match slabs(alloc, whole, counts, cut, number, first) {
        Err(fail) => Err(fail),
        Ok(members) => match Object::series(members, Parts::new(alloc)) {
            Ok(series) => Ok(series),
            // No member has a name, so it is too large.
            Err(_) => Err(RunFail::Code(Code::TooLarge)),
        },
    }
}

// Whether a series of so many members as large as this one is within the limits.
fn many_fit(first: &Object, number: u64) -> bool
    requires { number ≤ 16777216 }
    ensures { result ≡ many_fit first.now number }
{
    first.levels() < MAX_LEVELS
        && 1 + number * first.count() <= MAX_COUNT
        && 64 + 4 * number + number * first.size() <= MAX_SIZE
}

// So many slabs from the first one on.
fn slabs(
    alloc: Global,
    whole: &Object,
    counts: &[u32],
    cut: Cut,
    number: u64,
    first: Object,
) -> Result<Parts, RunFail>
    requires field { is_field whole.now ≡ true }
    requires cut { IsCutOf counts.now cut }
    requires begin { cut.first ≡ 0 }
    requires number { number + cut.thickness ≡ slice_index counts.now cut.dimension }
    requires few { number ≤ 16777216 }
    requires roles { PlayRoles counts.now (parts whole.now) }
    requires first { first ≡ spec.slab counts.now cut whole.now }
    ensures { GivesParts (spec.slabs counts.now cut.dimension cut.thickness whole.now 0 number) result }
{
    let mut members = Parts::new(alloc);
    push(alloc, &mut members, 0, first)?;
    for position in 1..number {
        let at = Cut {
            dimension: cut.dimension,
            first: position,
            thickness: cut.thickness,
        };
        push_slab(alloc, &mut members, whole, counts, at)?;
    }
    Ok(members)
}

// The slab at its position.
fn push_slab(
    alloc: Global,
    members: &mut Parts,
    whole: &Object,
    counts: &[u32],
    cut: Cut,
) -> Result<(), RunFail>
    requires field { is_field whole.now ≡ true }
    requires cut { IsCutOf counts.now cut }
    requires few { cut.first ≤ 16777216 }
    requires roles { PlayRoles counts.now (parts whole.now) }
    ensures { Grows (one_part None (pos cut.first) (spec.slab counts.now cut whole.now) no_parts) members.old members.new result }
{
    match slab(alloc, whole, counts, cut) {
        Err(fail) => Err(fail),
        Ok(own) => Ok(push(alloc, members, cut.first, own)?),
    }
}

#[tactic(auto, using(dx_objects::proofs::PartsLaws::appending))]
fn push(alloc: Global, members: &mut Parts, position: u64, object: Object) -> Result<(), AllocError>
    requires { position ≤ 16777216 }
    ensures { OnOk result (members.new ≡ append members.old (one_part None (pos position) object no_parts)) }
{
    let object = shared(alloc, object)?;
    members.push(Part {
        name: None,
        position: position as i32,
        object,
    })
}
