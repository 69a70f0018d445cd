//! Lists of extents and of counts.
ghost use Rattle.std.specs.Prelude.{◌≡◌, ◌<◌, ◌≤◌, ◌^◌, ◌*◌, ◌&&◌, take, [], ◌∷◌, min, length, IsTrue, MatchOption, false, nat_le};
ghost use Rattle.std.specs.List.{list_all};
ghost use Rattle.dx_base.specs.Array.{product, cells};
ghost use Rattle.dx_arrays.specs.Block.{last_count};
ghost use Rattle.dx_base.specs.ArrayLimits.{is_shape as spec_is_shape, is_grid as spec_is_grid, max_items, max_values};

use std::marker::Model;

/// How many extents a shape may have.
pub const MAX_RANK: usize = 2;

/// The greatest extent.
pub const MAX_EXTENT: u32 = 256;

/// How many dimensions a grid may have.
pub const MAX_DIMENSIONS: usize = 3;

/// How many items an array may have.
pub const MAX_ITEMS: u64 = 16_777_216;

/// How many values the items of an array may have in all.
pub const MAX_VALUES: u64 = 134_217_728;

/// The extents of an item, which are kept in place, and their product.
#[derive(Debug, Drop)]
pub(crate) struct Extents {
    rank: usize,
    sides: [u32; 2],
    width: u64,
}

impl Model for Extents {
    ghost use Rattle.std.specs.Prelude.{◌≡◌, ◌≤◌, List, ℕ, take, IsTrue};
    ghost use Rattle.dx_base.specs.Array.{product};
    ghost use Rattle.dx_arrays.specs.Block.{last_count};
    ghost use Rattle.dx_base.specs.ArrayLimits.{is_shape};

    ghost Value = { List ℕ };

    ghost view = { λ e. take e.rank e.sides };

    ghost invariant = { λ e. (e.rank ≤ 2) × IsTrue (is_shape (take e.rank e.sides)) × (e.width ≡ product (take e.rank e.sides)) };
}

impl Extents {
    /// The extents of a shape, or none where the list isn't one.
    pub(crate) fn of(shape: &[u32]) -> Option<Extents>
        ensures { MatchOption result (spec_is_shape shape.now ≡ false) (λ e. (e ≡ shape.now) × IsTrue (spec_is_shape shape.now)) }
    {
        if !is_shape(shape) {
            return None;
        }
        Some(Extents {
            rank: shape.len(),
            sides: padded(shape),
            width: product_of(shape),
        })
    }

    /// The extents of a list of so many values.
    pub(crate) fn of_list(len: u32) -> Extents
        requires some { 0 < len }
        requires few { len ≤ 256 }
        ensures { result ≡ len ∷ [] }
    {
        Extents {
            rank: 1,
            sides: [len, 1],
            width: len as u64,
        }
    }

    pub(crate) fn as_slice(&self) -> &[u32]
        ensures { result.now ≡ self.now }
    {
        &self.sides[..self.rank]
    }

    /// How many values an item has.
    pub(crate) fn width(&self) -> u64
        ensures width { result ≡ product self.now }
        ensures some { 0 < result }
        ensures few { result ≤ 65536 }
        ensures shape { IsTrue (spec_is_shape self.now) }
    {
        self.width
    }
}

// The extents with ones behind them.
fn padded(shape: &[u32]) -> [u32; 2]
    requires { length shape.now ≤ 2 }
    ensures { take (length shape.now) result ≡ shape.now }
{
    match shape {
        [] => [1, 1],
        [first] => [*first, 1],
        [first, second, ..] => [*first, *second],
    }
}

pub(crate) fn is_shape(extents: &[u32]) -> bool
    ensures { result ≡ spec_is_shape extents.now }
{
    extents.len() <= MAX_RANK && extents.iter().all(|e| 1 <= *e && *e <= MAX_EXTENT)
}

pub(crate) fn is_grid(counts: &[u32]) -> bool
    ensures { result ≡ spec_is_grid counts.now }
{
    1 <= counts.len() && counts.len() <= MAX_DIMENSIONS && are_some(counts)
}

fn are_some(counts: &[u32]) -> bool
    ensures { result ≡ list_all (λ c. nat_le 1 c) counts.now }
{
    counts.iter().all(|c| 1 <= *c)
}

/// The product, or the greatest number where it is greater.
pub(crate) fn product_of(extents: &[u32]) -> u64
    ensures { result ≡ min (product extents.now) 18446744073709551615 }
{
    let mut product: u64 = 1;
    for extent in extents {
        product = product.saturating_mul(*extent as u64);
    }
    product
}

/// How many points a grid with these counts has, which is how many items its positions are, or the greatest number
/// where there are more. Nothing is made for it.
pub fn point_count(counts: &[u32]) -> u64
    ensures { result ≡ min (product counts.now) 18446744073709551615 }
{
    product_of(counts)
}

/// How many cells a grid with these counts of points has, which is how many items its connections are, or the greatest
/// number where there are more. Nothing is made for it.
pub fn cell_count(counts: &[u32]) -> u64
    ensures { result ≡ min (product (cells counts.now)) 18446744073709551615 }
{
    let mut product: u64 = 1;
    for count in counts {
        product = product.saturating_mul(count.saturating_sub(1) as u64);
    }
    product
}

/// The last of some counts.
pub(crate) fn last_of(counts: &[u32]) -> u32
    requires { 0 < length counts.now }
    ensures { result ≡ last_count counts.now }
{
    counts[counts.len() - 1]
}

/// How many corners a cell of the grid has.
pub(crate) fn corner_count(counts: &[u32]) -> u32
    requires { length counts.now ≤ 3 }
    ensures { result ≡ 2 ^ length counts.now }
{
    1 << counts.len()
}

/// Whether an array may have so many items of so many values: at most `MAX_ITEMS` items, and at most `MAX_VALUES` values
/// in all.
pub fn has_room(items: u64, width: u64) -> bool
    requires some { 0 < width }
    requires few { width ≤ 65536 }
    ensures room { result ≡ (nat_le (items * width) (max_items * width) && nat_le (items * width) max_values) }
    ensures items { IsTrue result → items ≤ max_items }
{
    items <= MAX_ITEMS && items * width <= MAX_VALUES
}
