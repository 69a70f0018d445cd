//! Where values lie.
ghost use Rattle.std.specs.Prelude.{◌≡◌, ◌||◌};
ghost use Rattle.dx_expr_ranges.specs.Ranges as spec;

/// How many values an item has, and from which int to which they lie.
#[derive(Clone, Copy, Debug)]
pub struct Range {
    /// How many values an item has.
    pub count: u32,
    /// The least int that one of them can be.
    pub low: i32,
    /// The greatest int that one of them can be.
    pub high: i32,
    /// Whether one of them can be zero.
    pub zero: bool,
}

fn int_of(v: i64) -> Option<i32>
    ensures { result ≡ spec.int_of v }
{
    if v < -2_147_483_648 || 2_147_483_647 < v {
        return None;
    }
    Some(v as i32)
}

/// So many values from one to another, where both are ints.
pub(crate) fn between(count: u32, low: i64, high: i64, may_be_zero: bool) -> Option<Range>
    ensures { result ≡ spec.between count low high may_be_zero }
{
    let low = int_of(low)?;
    let high = int_of(high)?;
    Some(Range {
        count,
        low,
        high,
        zero: may_be_zero,
    })
}

/// The same range, of which the ends are ints.
pub(crate) fn known(r: Range) -> Option<Range>
    ensures { result ≡ spec.known r }
{
    between(r.count, i64::from(r.low), i64::from(r.high), r.zero)
}

/// Whether a value can be zero.
pub(crate) fn has_zero(r: Range) -> bool
    ensures { result ≡ spec.has_zero r }
{
    r.zero && (r.low <= 0 && 0 <= r.high)
}

/// Whether a value of either can be zero.
pub(crate) fn have_zero(a: Range, b: Range) -> bool
    ensures { result ≡ (spec.has_zero a || spec.has_zero b) }
{
    has_zero(a) || has_zero(b)
}

/// The truths of so many values.
pub(crate) fn truths(count: u32) -> Range
    ensures { result ≡ spec.truths count }
{
    Range {
        count,
        low: 0,
        high: 1,
        zero: true,
    }
}

/// A number of the expression.
pub(crate) fn number(n: u32) -> Option<Range>
    ensures { result ≡ spec.number n }
{
    between(1, i64::from(n), i64::from(n), n == 0)
}

// The values of one side or the other, in so many places.
fn in_either(count: u32, a: Range, b: Range) -> Range
    ensures { result ≡ spec.in_either count a b }
{
    Range {
        count,
        low: a.low.min(b.low),
        high: a.high.max(b.high),
        zero: have_zero(a, b),
    }
}

/// The values of either side, which has as many as the other.
pub(crate) fn either(a: Range, b: Range) -> Option<Range>
    ensures { result ≡ spec.either a b }
{
    if a.count == b.count {
        Some(in_either(a.count, a, b))
    } else {
        None
    }
}

/// One of the values.
pub(crate) fn part(k: u8, a: Range) -> Option<Range>
    ensures { result ≡ spec.part k a }
{
    if u32::from(k) < a.count {
        Some(Range { count: 1, ..a })
    } else {
        None
    }
}

/// No values.
pub(crate) fn none() -> Range
    ensures { result ≡ spec.none }
{
    Range {
        count: 0,
        low: 0,
        high: 0,
        zero: false,
    }
}

/// The values of one and of the next behind them; an item has at most so many.
pub(crate) fn and_next(a: Range, b: Range) -> Option<Range>
    ensures { result ≡ spec.and_next a b }
{
    let count = u64::from(a.count) + u64::from(b.count);
    if count <= 65_536 {
        Some(in_either(count as u32, a, b))
    } else {
        None
    }
}
