//! What operators make of values of which it is known where they lie.
ghost use Rattle.std.specs.Prelude.{◌≡◌, ◌+ℤ◌, ◌-ℤ◌, ◌*ℤ◌, neg_ℤ, pos};
ghost use Rattle.std.specs.Int.{int_min, int_max};
ghost use Rattle.dx_expr_ranges.specs.Ranges as spec;

use crate::range::{Range, between, has_zero, have_zero, truths};
use dx_expr::{Binary, Unary};

fn wide(v: i32) -> i64
    ensures { result ≡ v }
{
    i64::from(v)
}

fn opposite(v: i32) -> i64
    ensures { result ≡ neg_ℤ v }
{
    -i64::from(v)
}

fn lesser(v: i64, w: i64) -> i64
    ensures { result ≡ int_min v w }
{
    v.min(w)
}

fn greater(v: i64, w: i64) -> i64
    ensures { result ≡ int_max v w }
{
    v.max(w)
}

fn lesser_of(v: i32, w: i32) -> i64
    ensures { result ≡ int_min v w }
{
    wide(v.min(w))
}

fn greater_of(v: i32, w: i32) -> i64
    ensures { result ≡ int_max v w }
{
    wide(v.max(w))
}

/// How far from zero the values lie at most.
fn farthest(a: Range) -> i64
    ensures { result ≡ spec.farthest a }
{
    greater(opposite(a.low), wide(a.high))
}

/// The same below zero.
fn farthest_below(a: Range) -> i64
    ensures { result ≡ spec.farthest_below a }
{
    lesser(wide(a.low), opposite(a.high))
}

/// An operator of one operand.
pub(crate) fn of_one(operator: Unary, a: Range) -> Option<Range>
    ensures { result ≡ spec.of_one operator a }
{
    match operator {
        Unary::Negate => between(a.count, opposite(a.high), opposite(a.low), a.zero),
        Unary::Not => Some(truths(a.count)),
        Unary::Absolute => {
            let low = greater(0, wide(a.low));
            between(a.count, low, farthest(a), has_zero(a))
        }
        Unary::Sign => Some(Range {
            low: -1,
            high: 1,
            zero: has_zero(a),
            ..a
        }),
    }
}

// How many values stand side by side; a single one stands beside each of the other side.
fn places(a: Range, b: Range) -> Option<u32>
    ensures { result ≡ spec.places a b }
{
    if a.count == 1 {
        Some(b.count)
    } else if b.count == 1 || a.count == b.count {
        Some(a.count)
    } else {
        None
    }
}

// What is made of values side by side lies from one to another.
#[tactic(auto, unfolding(crate::specs::Ranges::beside))]
fn beside(a: Range, b: Range, low: i64, high: i64, may_be_zero: bool) -> Option<Range>
    ensures { result ≡ spec.beside a b low high may_be_zero }
{
    between(places(a, b)?, low, high, may_be_zero)
}

fn plus(v: i32, w: i32) -> i64
    ensures { result ≡ v +ℤ w }
{
    i64::from(v) + i64::from(w)
}

fn minus(v: i32, w: i32) -> i64
    ensures { result ≡ v -ℤ w }
{
    i64::from(v) - i64::from(w)
}

fn product(v: i32, w: i32) -> i64
    ensures { result ≡ v *ℤ w }
{
    i64::from(v) * i64::from(w)
}

// The least of the products of a value and the values of a range.
fn lowest_by(v: i32, b: Range) -> i64
    ensures { result ≡ int_min (v *ℤ b.low) (v *ℤ b.high) }
{
    lesser(product(v, b.low), product(v, b.high))
}

// The greatest of them.
fn highest_by(v: i32, b: Range) -> i64
    ensures { result ≡ int_max (v *ℤ b.low) (v *ℤ b.high) }
{
    greater(product(v, b.low), product(v, b.high))
}

#[tactic(auto, unfolding(crate::specs::Ranges::lowest_product))]
fn lowest_product(a: Range, b: Range) -> i64
    ensures { result ≡ spec.lowest_product a b }
{
    lesser(lowest_by(a.low, b), lowest_by(a.high, b))
}

#[tactic(auto, unfolding(crate::specs::Ranges::highest_product))]
fn highest_product(a: Range, b: Range) -> i64
    ensures { result ≡ spec.highest_product a b }
{
    greater(highest_by(a.low, b), highest_by(a.high, b))
}

// So many times the least value, where that is below zero.
fn times_least(a: Range) -> i64
    ensures { result ≡ pos a.count *ℤ int_min (pos 0) a.low }
{
    times(a.count, a.low.min(0))
}

// So many times the greatest value, where that is above zero.
fn times_greatest(a: Range) -> i64
    ensures { result ≡ pos a.count *ℤ int_max (pos 0) a.high }
{
    times(a.count, a.high.max(0))
}

fn times(count: u32, value: i32) -> i64
    ensures { result ≡ pos count *ℤ value }
{
    i64::from(count) * i64::from(value)
}

// The sums of up to so many values, from none on.
fn sums(a: Range) -> Option<Range>
    ensures { result ≡ spec.sums a }
{
    between(1, times_least(a), times_greatest(a), true)
}

fn dot(a: Range, b: Range) -> Option<Range>
    ensures { result ≡ spec.dot a b }
{
    if a.count == b.count {
        let products = between(a.count, lowest_product(a, b), highest_product(a, b), true)?;
        sums(products)
    } else {
        None
    }
}

// A quotient lies no further from zero than what is divided.
fn quotient(a: Range, b: Range) -> Option<Range>
    ensures { result ≡ spec.quotient a b }
{
    if has_zero(b) {
        None
    } else {
        beside(a, b, farthest_below(a), farthest(a), true)
    }
}

// A remainder lies between zero and what is divided.
fn remainder(a: Range, b: Range) -> Option<Range>
    ensures { result ≡ spec.remainder a b }
{
    if has_zero(b) {
        None
    } else {
        beside(a, b, lesser(0, wide(a.low)), greater(0, wide(a.high)), true)
    }
}

// The lesser of each two values.
fn minimum(a: Range, b: Range) -> Option<Range>
    ensures { result ≡ spec.minimum a b }
{
    let low = lesser_of(a.low, b.low);
    let high = lesser_of(a.high, b.high);
    beside(a, b, low, high, have_zero(a, b))
}

// The greater of each two values.
fn maximum(a: Range, b: Range) -> Option<Range>
    ensures { result ≡ spec.maximum a b }
{
    let low = greater_of(a.low, b.low);
    let high = greater_of(a.high, b.high);
    beside(a, b, low, high, have_zero(a, b))
}

fn sum(a: Range, b: Range) -> Option<Range>
    ensures { result ≡ spec.sum a b }
{
    beside(a, b, plus(a.low, b.low), plus(a.high, b.high), true)
}

fn difference(a: Range, b: Range) -> Option<Range>
    ensures { result ≡ spec.difference a b }
{
    beside(a, b, minus(a.low, b.high), minus(a.high, b.low), true)
}

/// An operator of two operands.
pub(crate) fn of_two(operator: Binary, a: Range, b: Range) -> Option<Range>
    ensures { result ≡ spec.of_two operator a b }
{
    match operator {
        Binary::Or | Binary::And => Some(truths(1)),
        Binary::Equal
        | Binary::NotEqual
        | Binary::Less
        | Binary::LessEqual
        | Binary::Greater
        | Binary::GreaterEqual => beside(a, b, 0, 1, true),
        Binary::Add => sum(a, b),
        Binary::Subtract => difference(a, b),
        Binary::Multiply => beside(a, b, lowest_product(a, b), highest_product(a, b), true),
        Binary::Divide => quotient(a, b),
        Binary::Remainder => remainder(a, b),
        Binary::Minimum => minimum(a, b),
        Binary::Maximum => maximum(a, b),
        Binary::Dot => dot(a, b),
    }
}
