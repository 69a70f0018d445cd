//! The points and the cells of grids, by the numbers that they have where the last index varies fastest.
ghost use Rattle.std.specs.Prelude.{◌≡◌, ◌<◌, ◌≤◌, ◌*◌, ◌^◌, ◌+ℤ◌, length, All, FitsSigned, slice_index};
ghost use Rattle.std.specs.Int.{w64};
ghost use Rattle.dx_base.specs.Array.{product, cells, indices_of, offset, corner_numbers};

use crate::number::{narrowed, scaled, widened};

/// The value of point number `item` in a place, `deltas` having as many values for each dimension as there are
/// dimensions.
pub(crate) fn position(counts: &[u32], origin: i64, deltas: &[i64], item: u64, place: u64) -> i64
    requires dimensions { length counts.now ≤ 3 }
    requires counts { All (λ c. 0 < c) counts.now }
    requires deltas { length deltas.now ≡ length counts.now * length counts.now }
    requires place { place < length counts.now }
    requires fits { FitsSigned w64 (origin +ℤ offset (length counts.now) (indices_of counts.now item) deltas.now place) }
    ensures { result ≡ origin +ℤ offset (length counts.now) (indices_of counts.now item) deltas.now place }
{
    let n = counts.len();
    let mut rest = item;
    let mut sum: i128 = 0;
    let mut k = n;
    while k > 0 {
        k -= 1;
        let count = counts[k] as u64;
        let index = rest % count;
        rest /= count;
        sum += scaled(index, deltas[k * n + place as usize]);
    }
    narrowed(widened(origin) + sum)
}

/// The number of the corner point number `place` of cell number `item`.
pub(crate) fn corner(counts: &[u32], item: u64, place: u64) -> u64
    requires dimensions { length counts.now ≤ 3 }
    requires counts { All (λ c. 1 < c) counts.now }
    requires place { place < 2 ^ length counts.now }
    requires points { product counts.now < 2 ^ 32 }
    ensures number { result ≡ slice_index (corner_numbers counts.now (indices_of (cells counts.now) item)) place }
    ensures small { result < 2 ^ 32 }
{
    let mut cell = item;
    let mut side = place;
    let mut stride: u64 = 1;
    let mut number: u64 = 0;
    let mut k = counts.len();
    while k > 0 {
        k -= 1;
        let count = counts[k] as u64;
        number += (cell % (count - 1) + side % 2) * stride;
        cell /= count - 1;
        side /= 2;
        stride *= count;
    }
    number
}
