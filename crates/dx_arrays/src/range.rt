//! Whether the values of a whole array are of its type. Lines and grids are decided from their ends, without going
//! over their items.
ghost use Rattle.std.specs.Prelude.{◌≡◌, ◌<◌, ◌≤◌, ◌+◌, ◌*◌, ◌%◌, ◌^◌, ◌∷◌, [], ◌+ℤ◌, ◌&&◌, length, All};
ghost use Rattle.std.specs.List.{list_all};
ghost use Rattle.dx_base.specs.Elem.{in_range as spec_in_range};
ghost use Rattle.dx_base.specs.Array as spec;
ghost use Rattle.dx_base.specs.ArrayLimits.{is_in_type};
ghost use Rattle.dx_base.specs.declared.elem.ElemType.TheVariants.{Int};
ghost use Rattle.dx_arrays.specs.Reach.{lowest_offset, highest_offset, below_zero, above_zero, IsWithin, line_fits, lines_fit, points_fit};

use crate::extents::Extents;
use crate::number::{along, is_wide_in_range, scaled, widened};
use dx_base::{ElemType, in_range};

/// The least and the greatest value in one place.
#[derive(Clone, Copy)]
struct Reach {
    low: i128,
    high: i128,
}

pub(crate) fn plain_fits(t: ElemType, extents: &Extents, values: &[i64]) -> bool
    requires { length values.now % spec.product extents.now ≡ 0 }
    ensures { result ≡ is_in_type (record { elem = t; extents = extents.now; class = spec.plain values.now }) }
{
    let _width = extents.width();
    are_in_range(t, values)
}

pub(crate) fn ints_fit(extents: &Extents, values: &[i32]) -> bool
    requires { length values.now % spec.product extents.now ≡ 0 }
    ensures { result ≡ is_in_type (record { elem = Int; extents = extents.now; class = spec.plain values.now }) }
{
    let _width = extents.width();
    are_ints(values)
}

pub(crate) fn constant_fits(t: ElemType, extents: &Extents, items: u64, value: &[i64]) -> bool
    ensures { result ≡ is_in_type (record { elem = t; extents = extents.now; class = spec.constant items value.now }) }
{
    are_in_range(t, value)
}

pub(crate) fn regular_fits(
    t: ElemType,
    extents: &Extents,
    items: u64,
    origin: &[i64],
    delta: &[i64],
) -> bool
    requires origin { length origin.now ≡ spec.product extents.now }
    requires delta { length delta.now ≡ spec.product extents.now }
    ensures { result ≡ is_in_type (record { elem = t; extents = extents.now; class = spec.regular items origin.now delta.now }) }
{
    items == 0 || do_lines_fit(t, items - 1, origin, delta)
}

pub(crate) fn positions_fit(counts: &[u32], origin: &[i64], deltas: &[i64]) -> bool
    requires dimensions { length counts.now ≤ 3 }
    requires counts { All (λ c. 0 < c) counts.now }
    requires origin { length origin.now ≡ length counts.now }
    requires deltas { length deltas.now ≡ length counts.now * length counts.now }
    ensures { result ≡ is_in_type (record { elem = Int; extents = length counts.now ∷ []; class = spec.grid_positions counts.now origin.now deltas.now }) }
{
    do_points_fit(counts, origin, deltas)
}

fn are_in_range(t: ElemType, values: &[i64]) -> bool
    ensures { result ≡ list_all (spec_in_range t) values.now }
{
    values.iter().all(|v| in_range(t, *v))
}

fn are_ints(values: &[i32]) -> bool
    ensures { result ≡ list_all (spec_in_range Int) values.now }
{
    values
        .iter()
        .all(|v| in_range(ElemType::Int, i64::from(*v)))
}

// Whether the first value of the line is of the type, and the last one too.
fn do_ends_fit(t: ElemType, origin: i64, last: u64, delta: i64) -> bool
    ensures { result ≡ line_fits t last origin delta }
{
    in_range(t, origin) && is_wide_in_range(t, along(origin, last, delta))
}

fn do_lines_fit(t: ElemType, last: u64, origin: &[i64], delta: &[i64]) -> bool
    requires { length delta.now ≡ length origin.now }
    ensures { result ≡ lines_fit t last origin.now delta.now }
{
    for place in 0..origin.len() {
        if !do_ends_fit(t, origin[place], last, delta[place]) {
            return false;
        }
    }
    true
}

fn do_points_fit(counts: &[u32], origin: &[i64], deltas: &[i64]) -> bool
    requires dimensions { length counts.now ≤ 3 }
    requires origin { length origin.now ≡ length counts.now }
    requires deltas { length deltas.now ≡ length counts.now * length counts.now }
    ensures { result ≡ points_fit counts.now origin.now deltas.now }
{
    for place in 0..counts.len() {
        let reach = reach_of(counts, origin[place], deltas, place);
        if !reach.is_in_range(ElemType::Int) {
            return false;
        }
    }
    true
}

impl Reach {
    // The reach with what one more dimension adds at most.
    fn and(self, span: i128) -> Reach
        requires low { IsWithin (2 ^ 100) self.low }
        requires high { IsWithin (2 ^ 100) self.high }
        requires span { IsWithin (2 ^ 95) span }
        ensures low { result.low ≡ self.low +ℤ below_zero span }
        ensures high { result.high ≡ self.high +ℤ above_zero span }
    {
        if span < 0 {
            Reach {
                low: self.low + span,
                high: self.high,
            }
        } else {
            Reach {
                low: self.low,
                high: self.high + span,
            }
        }
    }

    fn is_in_range(self, t: ElemType) -> bool
        ensures { result ≡ (spec_in_range t self.low && spec_in_range t self.high) }
    {
        is_wide_in_range(t, self.low) && is_wide_in_range(t, self.high)
    }
}

fn reach_of(counts: &[u32], origin: i64, deltas: &[i64], place: usize) -> Reach
    requires dimensions { length counts.now ≤ 3 }
    requires deltas { length deltas.now ≡ length counts.now * length counts.now }
    requires place { place < length counts.now }
    ensures low { result.low ≡ origin +ℤ lowest_offset (length counts.now) counts.now deltas.now place }
    ensures high { result.high ≡ origin +ℤ highest_offset (length counts.now) counts.now deltas.now place }
{
    let n = counts.len();
    let mut reach = Reach {
        low: widened(origin),
        high: widened(origin),
    };
    for k in 0..n {
        let last = counts[k].saturating_sub(1) as u64;
        reach = reach.and(scaled(last, deltas[k * n + place]));
    }
    reach
}
