//! The inputs that an expression speaks of.
ghost use Rattle.std.specs.Prelude.{◌≡◌, ◌≤◌, length, IfOk};
ghost use Rattle.dx_objects.specs.Values.{value_of, values_of, value_at};
ghost use Rattle.dx_compute_meaning.specs.Operands as spec;
ghost use Rattle.dx_compute_meaning.specs.Shown.{shown, shown_one};

use dx_expr::{Expression, uses_input};
use dx_objects::{Object, Value};
use std::alloc::{AllocError, Global};

/// The inputs of an expression are numbered from 0 up to before this.
const NUMBERS: u8 = 21;

/// The numbers of the inputs that occur.
#[tactic(auto, unfolding(dx_compute_meaning::specs::Operands::used))]
pub(crate) fn used(alloc: Global, e: &Expression) -> Result<Vec<u8>, AllocError>
    ensures { IfOk result (λ found. found.items ≡ spec.used e.now) }
{
    let mut found = Vec::new(alloc);
    for k in 0..NUMBERS {
        if uses_input(e, k) {
            found.push(k)?;
        }
    }
    Ok(found)
}

fn object_in(value: &Value) -> Option<&Object>
    ensures { shown_one result ≡ value_of value.now }
{
    match value {
        None => None,
        Some(object) => Some(object),
    }
}

fn if_used<'a>(e: &Expression, k: u8, value: &'a Value) -> Option<&'a Object>
    ensures { shown_one result ≡ spec.if_used e.now k (value_of value.now) }
{
    if uses_input(e, k) {
        object_in(value)
    } else {
        None
    }
}

/// The inputs that occur, each at its number, and NULL in the place of each other one.
pub(crate) fn occurring<'a>(
    alloc: Global,
    e: &Expression,
    further: &'a [Value],
) -> Result<Vec<Option<&'a Object>>, AllocError>
    requires { length further.now ≤ 20 }
    ensures { IfOk result (λ found. shown found.items ≡ spec.occurring e.now 0 (values_of further.now)) }
{
    let mut found = Vec::new(alloc);
    for k in 0..further.len() {
        found.push(if_used(e, k as u8, &further[k]))?;
    }
    Ok(found)
}

fn is_given(operand: Option<&Object>) -> bool
    ensures { result ≡ spec.is_given (shown_one operand.entry) }
{
    match operand {
        None => false,
        Some(object) => object.as_text().is_none(),
    }
}

#[tactic(auto, using(dx_compute_meaning::proofs::Places::operand_places))]
fn operand_at<'a>(operands: &[Option<&'a Object>], k: usize) -> Option<&'a Object>
    ensures { shown_one result ≡ value_at (shown operands.now) k }
{
    if k < operands.len() {
        operands[k]
    } else {
        None
    }
}

fn is_given_at(operands: &[Option<&Object>], k: u8) -> bool
    ensures { result ≡ spec.is_given (value_at (shown operands.now) k) }
{
    is_given(operand_at(operands, usize::from(k)))
}

/// Whether each of these numbers has an input that isn't NULL or a text.
pub(crate) fn all_given(used: &[u8], operands: &[Option<&Object>]) -> bool
    ensures { result ≡ spec.all_given used.now (shown operands.now) }
{
    used.iter().all(|k| is_given_at(operands, *k))
}
