//! Whether the values of an expression lie where each item has them.
ghost use Rattle.std.specs.Prelude.{◌≡◌, ℕ, map, true, Ok, is_some};
ghost use Rattle.dx_expr.specs.Value.{Inputs};
ghost use Rattle.dx_expr_eval.specs.Items.{values_from, faultless};
ghost use Rattle.dx_expr_ranges.specs.Ranges as spec;

use crate::operators::{of_one, of_two};
use crate::range::{Range, and_next, either, known, none, number, part};
use dx_expr::Expression;

/// The range that is given for an input.
fn given_for(ranges: &[Option<Range>], k: u8) -> Option<Range>
    ensures { result ≡ spec.given_for ranges.now k }
{
    match ranges.get(usize::from(k)) {
        Some(range) => *range,
        None => None,
    }
}

/// The values of all of these, one behind the other.
#[cycle(ranges)]
fn all_of(parts: &[Expression], ranges: &[Option<Range>]) -> Option<Range>
    ensures { result ≡ spec.all_of spec.none (map (spec.range_of ranges.now) parts.now) }
{
    let mut all = none();
    for part in parts {
        all = and_next(all, range_of(part, ranges)?)?;
    }
    Some(all)
}

/// Where the values of an expression lie, if each input keeps to its range and it can be told.
#[cycle(ranges)]
#[tactic(auto, using(crate::proofs::Equations::ranges_by_parts))]
fn range_of(e: &Expression, ranges: &[Option<Range>]) -> Option<Range>
    ensures { result ≡ spec.range_of ranges.now e.now }
{
    match e {
        Expression::Number(n) => number(*n),
        Expression::Input(k) => known(given_for(ranges, *k)?),
        Expression::Unary(operator, a) => of_one(*operator, range_of(a.get(), ranges)?),
        Expression::Binary(operator, a, b) => {
            let a = range_of(a.get(), ranges)?;
            let b = range_of(b.get(), ranges)?;
            of_two(*operator, a, b)
        }
        Expression::Choice(condition, a, b) => {
            range_of(condition.get(), ranges)?;
            let a = range_of(a.get(), ranges)?;
            let b = range_of(b.get(), ranges)?;
            either(a, b)
        }
        Expression::Part(a, k) => part(*k, range_of(a.get(), ranges)?),
        Expression::Vector(parts) => all_of(parts.as_slice(), ranges),
    }
}

/// Whether it is certain that each item has its values, from where those of each input lie: these ranges stand in the order
/// of the inputs' numbers, and None says nothing.
pub fn is_faultless(e: &Expression, ranges: &[Option<Range>]) -> bool
    ensures known { result ≡ is_some (spec.range_of ranges.now e.now) }
    // Where the inputs keep to their ranges, no item from one to before another has a fault.
    ensures faultless { (inputs : Inputs) (from to : ℕ) → spec.AreWithin inputs from to ranges.now → result ≡ true →
        faultless (values_from inputs e.now from to) ≡ Ok tt }
{
    range_of(e, ranges).is_some()
}
