//! The field of a histogram: its borders as positions on a line, its bins as the cells between them, its counts as data.
ghost use Rattle.std.specs.Prelude.{◌≡◌, ◌≤◌, ◌&&◌, ◌+◌, ◌∷◌, [], pos, length, Some, OnOk, IfOk, IsTrue, true};
ghost use Rattle.dx_base.specs.Answers.{Answers};
ghost use Rattle.dx_base.specs.Array.{ArrayData};
ghost use Rattle.dx_base.specs.Object.{append, no_parts, part};
ghost use Rattle.dx_base.specs.ObjectLimits.{all_named, differ, is_array, unplaced};
ghost use Rattle.dx_arrays.specs.Makes.{Makes};
ghost use Rattle.dx_stats.specs.Bins.{AreBins};
ghost use Rattle.dx_stats.specs.Histogram as spec;
ghost use Rattle.dx_stats.specs.Results.{code_in};

use crate::bins::Bins;
use crate::results::shared;
use dx_base::{Bytes, Code};
use dx_objects::{Array, ArrayError, ElemType, Object, Part, Parts, RunFail, Shape};
use std::alloc::{AllocError, Global};

/// The field of the counts of some numbers. Overflow where a border is no int.
#[tactic(auto, using(crate::proofs::FieldLaws::made_array))]
pub(crate) fn histogram_field(alloc: Global, values: &[i64], bins: Bins) -> Result<Object, RunFail>
    requires bins { AreBins bins }
    requires few { length values.now ≤ 16777216 }
    ensures { Answers code_in (spec.histogram bins values.now) result }
{
    let positions = positions_of(alloc, bins)?;
    let connections = connections_of(alloc, bins)?;
    let counts = counts_of(alloc, values, bins)?;
    field_of(alloc, positions, connections, counts)
}

fn positions_of(alloc: Global, bins: Bins) -> Result<Object, RunFail>
    requires { AreBins bins }
    ensures { Answers code_in (spec.made_positions bins) result }
{
    let mut shape = Shape::new(alloc);
    shape.push(1)?;
    let array = Array::plain(ElemType::Int, shape, bins.borders(alloc)?);
    made(array, Parts::new(alloc))
}

fn connections_of(alloc: Global, bins: Bins) -> Result<Object, RunFail>
    requires { AreBins bins }
    ensures { Answers code_in (spec.made_connections bins) result }
{
    let mut attributes = Parts::new(alloc);
    push_text(alloc, &mut attributes, b"element type", b"lines")?;
    push_text(alloc, &mut attributes, b"ref", b"positions")?;
    let points = points_of(alloc, bins)?;
    made(Array::grid_connections(points), attributes)
}

// How many points there are along the one dimension of the grid.
fn points_of(alloc: Global, bins: Bins) -> Result<Vec<u32>, AllocError>
    requires { AreBins bins }
    ensures { IfOk result (λ points. points.items ≡ (bins.count + 1) ∷ []) }
{
    let mut points = Vec::new(alloc);
    points.push(bins.count as u32 + 1)?;
    Ok(points)
}

fn counts_of(alloc: Global, values: &[i64], bins: Bins) -> Result<Object, RunFail>
    requires bins { AreBins bins }
    requires few { length values.now ≤ 16777216 }
    ensures { Answers code_in (spec.made_counts bins values.now) result }
{
    let mut attributes = Parts::new(alloc);
    push_text(alloc, &mut attributes, b"dep", b"connections")?;
    let counts = bins.counts(alloc, values)?;
    let array = Array::plain(ElemType::Int, Shape::new(alloc), counts);
    made(array, attributes)
}

// The object of an array with attributes, if there are both.
#[tactic(auto, using(crate::proofs::FieldLaws::too_large))]
fn made(array: Result<Array, ArrayError>, attributes: Parts) -> Result<Object, RunFail>
    requires { IsTrue (all_named (unplaced attributes) && differ (unplaced attributes)) }
    ensures { (a : ArrayData) → Makes a array → Answers code_in (spec.made a (unplaced attributes)) result }
{
    match array {
        Err(e) => Err(RunFail::Code(code_of(e))),
        Ok(array) => match Object::array(array, attributes) {
            Err(_) => Err(RunFail::Code(Code::TooLarge)),
            Ok(object) => Ok(object),
        },
    }
}

fn code_of(e: ArrayError) -> Code
    ensures { result ≡ spec.code_of e }
{
    match e {
        ArrayError::RangeOfType => Code::Overflow,
        ArrayError::BadShape | ArrayError::TooManyItems | ArrayError::ItemCount => Code::TooLarge,
    }
}

// The field of these components.
#[tactic(auto, using(crate::proofs::FieldLaws::field_too_large))]
fn field_of(
    alloc: Global,
    positions: Object,
    connections: Object,
    counts: Object,
) -> Result<Object, RunFail>
    requires positions { is_array positions ≡ true }
    requires connections { is_array connections ≡ true }
    requires counts { is_array counts ≡ true }
    ensures { Answers code_in (spec.if_fits (spec.field_of positions connections counts)) result }
{
    let mut components = Parts::new(alloc);
    push_part(alloc, &mut components, b"positions", positions)?;
    push_part(alloc, &mut components, b"connections", connections)?;
    push_part(alloc, &mut components, b"data", counts)?;
    match Object::field(components, Parts::new(alloc)) {
        Err(_) => Err(RunFail::Code(Code::TooLarge)),
        Ok(object) => Ok(object),
    }
}

fn push_part(
    alloc: Global,
    parts: &mut Parts,
    name: &[u8],
    object: Object,
) -> Result<(), AllocError>
    ensures { OnOk result (parts.new ≡ append parts.old (part (Some name.now) (pos 0) object no_parts)) }
{
    let object = shared(alloc, object)?;
    parts.push(Part {
        name: Some(Bytes::copy_of(alloc, name)?),
        position: 0,
        object,
    })
}

// A short text under a name.
#[tactic(auto, using(crate::proofs::FieldLaws::short_text))]
fn push_text(alloc: Global, parts: &mut Parts, name: &[u8], words: &[u8]) -> Result<(), AllocError>
    requires { length words.now ≤ 100 }
    ensures { OnOk result (parts.new ≡ append parts.old (spec.text_part name.now words.now no_parts)) }
{
    let text = Object::text(Bytes::copy_of(alloc, words)?, Parts::new(alloc)).unwrap();
    push_part(alloc, parts, name, text)
}
