//! Operators that make a value of any two that are near enough to 0: over a block of such values none is looked at.

ghost use Rattle.std.specs.Prelude.{◌≡◌, ◌<◌, ◌≤◌, ℕ, ℤ, true, Ok, IsOk, None, length, pos, slice_index_or, unsigned_abs};
ghost use Rattle.dx_expr_blocks.specs.Block.{up_to, steps, run_of};
ghost use Rattle.dx_expr_blocks.specs.Sure.{AreSure};

use crate::operators::{Add, Multiply, Operator, Subtract};
use crate::side::Side;

/// How far from 0 a value of the int range may be on either side.
const MOST: u64 = 2_147_483_647;

/// An operator that makes a value of any two that are near enough to 0.
pub(crate) trait Sure: Operator {
    /// Whether it makes one of any two that are no further from 0 than these.
    fn is_sure(&self, left: u32, right: u32) -> bool
        ensures { result ≡ true → (a b : ℤ) → unsigned_abs a ≤ left → unsigned_abs b ≤ right → IsOk (Self.makes self.now a b) };

    /// What it makes of two values, of which it makes one.
    fn made(&self, a: i32, b: i32) -> i32
        requires { IsOk (Self.makes self.now a b) }
        ensures { Self.makes self.now a b ≡ Ok result };
}

impl Sure for Add {
    fn is_sure(&self, left: u32, right: u32) -> bool {
        u64::from(left) + u64::from(right) <= MOST
    }

    fn made(&self, a: i32, b: i32) -> i32 {
        a + b
    }
}

impl Sure for Subtract {
    fn is_sure(&self, left: u32, right: u32) -> bool {
        u64::from(left) + u64::from(right) <= MOST
    }

    fn made(&self, a: i32, b: i32) -> i32 {
        a - b
    }
}

impl Sure for Multiply {
    fn is_sure(&self, left: u32, right: u32) -> bool {
        u64::from(left) * u64::from(right) <= MOST
    }

    fn made(&self, a: i32, b: i32) -> i32 {
        a * b
    }
}

/// How far from 0 these values are at most: all of their bits at once, which is less than twice the farthest and found
/// sooner.
#[tactic(auto, using(std::proofs::lemmas::Nat::le_or_l, std::proofs::lemmas::Nat::le_or_r))]
pub(crate) fn reach(values: &[i32]) -> u32
    ensures { (k : ℕ) → k < length values.now → unsigned_abs (slice_index_or values.now k (pos 0)) ≤ result }
{
    let mut reach = 0;
    for value in values {
        reach |= value.unsigned_abs();
    }
    reach
}

/// Whether the operator makes a value at each place, as far as their distance from 0 tells.
pub(crate) fn are_sure<O: Sure, R: Side>(operator: &O, left: &[i32], right: &R) -> bool
    requires { (k : ℕ) → k < length left.now → R.stands right.now k }
    ensures { result ≡ true → AreSure (O.makes operator.now) left.now (R.value right.now) }
{
    operator.is_sure(reach(left), right.reach())
}

/// The operator at each place, where it makes a value.
pub(crate) fn make_all<O: Sure, R: Side>(operator: &O, left: &mut [i32], right: &R)
    requires stands { (k : ℕ) → k < length left.old → R.stands right.now k }
    requires sure { AreSure (O.makes operator.now) left.old (R.value right.now) }
    ensures { run_of left.new None ≡ up_to (steps (λ place v. O.makes operator.now v (R.value right.now place)) 0 left.old) }
{
    for place in 0..left.len() {
        left[place] = operator.made(left[place], right.at(place));
    }
}
