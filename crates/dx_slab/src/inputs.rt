//! What the inputs need to be: which slabs are asked for.
ghost use Rattle.std.specs.Prelude.{◌≡◌, ◌<◌, length, Some, None, true, MatchOption, IfSome};
ghost use Rattle.dx_base.specs.ObjectLimits.{is_field, IsLawful};
ghost use Rattle.dx_objects.specs.Values.{value_at};
ghost use Rattle.dx_slab.specs.Inputs as spec;
ghost use Rattle.dx_slab.specs.Shown.{shown};

use crate::cut::Cut;
use dx_objects::{Object, Outs};
use std::rc::Rc;

const X: &[u8] = b"x";

const Y: &[u8] = b"y";

const Z: &[u8] = b"z";

/// Which slabs are asked for.
#[derive(Clone, Copy, Debug, PartialEq, Eq)]
pub(crate) enum Asked {
    /// One.
    One(Cut),
    /// All of a thickness along a dimension.
    Each(usize, u64),
}

/// Input number i.
pub(crate) fn input(inputs: &Outs, i: usize) -> Option<&Rc<Object>>
    ensures { shown result ≡ value_at inputs.now i }
{
    inputs.value(i)
}

/// The input, if it is a field.
pub(crate) fn field_in(input: Option<&Rc<Object>>) -> Option<&Rc<Object>>
    ensures field { shown result ≡ spec.field_in (shown input.entry) }
    ensures kind { IfSome result (λ o. is_field o.now.value ≡ true) }
    ensures lawful { IfSome result (λ o. IsLawful o.now.value) }
{
    match input {
        Some(object) if object.is_field() => {
            // Asked so that the proof knows that the field can be made.
            let _size = object.size();
            Some(object)
        }
        _ => None,
    }
}

/// The slabs that the inputs behind the field ask for, of a grid with these counts.
pub(crate) fn asked_in(counts: &[u32], inputs: &Outs) -> Option<Asked>
    ensures { result ≡ spec.asked_in counts.now inputs.now }
{
    let dimension = dimension_in(counts.len(), input(inputs, 1))?;
    let position = position_in(input(inputs, 2))?;
    let thickness = thickness_in(input(inputs, 3))?;
    placed(counts[dimension] as u64, dimension, thickness, position)
}

// Within so many points: the slab at a position, or each one.
fn placed(points: u64, dimension: usize, thickness: u64, position: Option<i64>) -> Option<Asked>
    requires { points < 4294967296 }
    ensures { result ≡ spec.placed points dimension thickness position }
{
    let last = points.saturating_sub(1);
    let Some(first) = position else {
        return if thickness <= last {
            Some(Asked::Each(dimension, thickness))
        } else {
            None
        };
    };
    let first = natural(first)?;
    if thickness <= last && first <= last - thickness {
        Some(Asked::One(Cut {
            dimension,
            first,
            thickness,
        }))
    } else {
        None
    }
}

// The number, if it is at least 0.
fn natural(n: i64) -> Option<u64>
    ensures { result ≡ spec.natural n }
{
    if n < 0 { None } else { Some(n as u64) }
}

// One of so many dimensions, as a number or a letter.
fn dimension_in(dimensions: usize, input: Option<&Rc<Object>>) -> Option<usize>
    ensures dimension { result ≡ spec.dimension_in dimensions (shown input.entry) }
    ensures within { IfSome result (λ d. d < dimensions) }
{
    let object = input?;
    let dimension = match object.as_number() {
        Some(n) => natural(n)?,
        None => lettered(object.as_text())?,
    };
    if dimension < dimensions as u64 {
        Some(dimension as usize)
    } else {
        None
    }
}

fn lettered(letter: Option<&[u8]>) -> Option<u64>
    ensures { MatchOption letter.entry (result ≡ None) (λ name. result ≡ spec.lettered name.now) }
{
    let letter = letter?;
    if letter == X {
        Some(0)
    } else if letter == Y {
        Some(1)
    } else if letter == Z {
        Some(2)
    } else {
        None
    }
}

// A position or none, where it is NULL or a number.
fn position_in(input: Option<&Rc<Object>>) -> Option<Option<i64>>
    ensures { result ≡ spec.position_in (shown input.entry) }
{
    match input {
        None => Some(None),
        Some(object) => match object.as_number() {
            None => None,
            Some(position) => Some(Some(position)),
        },
    }
}

// A thickness, of which NULL is none.
fn thickness_in(input: Option<&Rc<Object>>) -> Option<u64>
    ensures { result ≡ spec.thickness_in (shown input.entry) }
{
    match input {
        None => Some(0),
        Some(object) => natural(object.as_number()?),
    }
}
