//! An operator on the values of two sides.

ghost use Rattle.std.specs.Prelude.{◌≡◌, ◌<◌, ℕ, IfOk, None, length, replicate};
ghost use Rattle.dx_expr.specs.declared.operators.Sides.TheVariants as sides;
ghost use Rattle.dx_expr.specs.Value.{binary_value, sides_of};
ghost use Rattle.dx_expr_blocks.specs.Block.{up_to, steps, both, run_of};
ghost use Rattle.dx_expr_blocks.specs.Found.{IsFound, run_found};

use crate::operators::{
    Add, Divide, Equal, Greater, GreaterEqual, Less, LessEqual, Maximum, Minimum, Multiply,
    NotEqual, Operator, Remainder, Subtract,
};
use crate::side::{Beside, Same, Side};
use crate::steps::{Step, fill};
use crate::sure::{Sure, are_sure, make_all};
use crate::{Found, Spare};
use dx_expr::{Binary, ItemFault};
use std::alloc::AllocError;

/// An operator with its right side at hand.
#[derive(Drop)]
struct OnTwo<'a, O: Operator, R: Side> {
    operator: O,
    right: &'a R,
}

impl<O: Operator, R: Side> Step for OnTwo<'_, O, R> {
    ghost can_step = { λ s place. R.stands s.right.now place };

    ghost gives = { λ s place v. O.makes s.operator v (R.value s.right.now place) };

    fn step(&self, place: usize, value: i32) -> Result<i32, ItemFault> {
        self.operator.apply(value, self.right.at(place))
    }
}

/// An operator on each value and what stands beside it; the values give way to what it makes.
fn on_two<O: Operator + Drop, R: Side>(
    operator: O,
    left: &mut Vec<i32>,
    right: &R,
) -> Option<ItemFault>
    requires { (place : ℕ) → place < length left.old.items → R.stands right.now place }
    ensures { run_of left.new.items result ≡ up_to (steps (λ place v. O.makes operator v (R.value right.now place)) 0 left.old.items) }
{
    let stop = fill(&OnTwo { operator, right }, left.as_mut_slice());
    left.truncate(stop.count);
    stop.fault
}

/// The same, where it makes a value of any two that are near enough to 0: then no fault is looked for.
fn on_two_near<O: Sure + Drop, R: Side>(
    operator: O,
    left: &mut Vec<i32>,
    right: &R,
) -> Option<ItemFault>
    requires { (place : ℕ) → place < length left.old.items → R.stands right.now place }
    ensures { run_of left.new.items result ≡ up_to (steps (λ place v. O.makes operator v (R.value right.now place)) 0 left.old.items) }
{
    if are_sure(&operator, left.as_slice(), right) {
        make_all(&operator, left.as_mut_slice(), right);
        return None;
    }
    on_two(operator, left, right)
}

/// An operator of two values on each value and what stands beside it; the values give way to what it makes.
fn operate<R: Side>(operator: Binary, left: &mut Vec<i32>, right: &R) -> Option<ItemFault>
    requires both { sides_of operator ≡ sides.Both }
    requires stands { (place : ℕ) → place < length left.old.items → R.stands right.now place }
    ensures { run_of left.new.items result ≡ up_to (steps (λ place v. binary_value operator v (R.value right.now place)) 0 left.old.items) }
{
    match operator {
        Binary::Equal => on_two(Equal, left, right),
        Binary::NotEqual => on_two(NotEqual, left, right),
        Binary::Less => on_two(Less, left, right),
        Binary::LessEqual => on_two(LessEqual, left, right),
        Binary::Greater => on_two(Greater, left, right),
        Binary::GreaterEqual => on_two(GreaterEqual, left, right),
        Binary::Add => on_two_near(Add, left, right),
        Binary::Subtract => on_two_near(Subtract, left, right),
        Binary::Multiply => on_two_near(Multiply, left, right),
        Binary::Divide => on_two(Divide, left, right),
        Binary::Remainder => on_two(Remainder, left, right),
        Binary::Minimum => on_two(Minimum, left, right),
        Binary::Maximum => on_two(Maximum, left, right),
        Binary::Or | Binary::And | Binary::Dot => unreachable!(),
    }
}

/// An operator on two runs, of which the right one goes no further than the left one.
pub(crate) fn on_both(
    spare: &mut Spare,
    operator: Binary,
    mut left: Found,
    right: Found,
) -> Result<Found, AllocError>
    requires { sides_of operator ≡ sides.Both }
    ensures { IfOk result (λ found. IsFound (both (binary_value operator) (run_found left) (run_found right)) found) }
{
    let values = right.values.as_slice();
    left.values.truncate(values.len());
    let fault = operate(operator, &mut left.values, &Beside { values });
    left.fault = fault.or(right.fault).or(left.fault);
    spare.keep_values(right.values)?;
    Ok(left)
}

/// An operator on a run and one value on the right of all of its own.
pub(crate) fn on_one_value(operator: Binary, mut left: Found, value: i32) -> Found
    requires { sides_of operator ≡ sides.Both }
    ensures { IsFound (both (binary_value operator) (run_found left) (run_of (replicate (length left.values.items) value) None)) result }
{
    let fault = operate(operator, &mut left.values, &Same { value });
    left.fault = fault.or(left.fault);
    left
}
