//! An array, the calls that make one from stored values, one item for all, lines and grids, and those that read it.
ghost use Rattle.std.specs.Prelude.{◌≡◌, ◌<◌, ◌≤◌, ◌^◌, ◌/◌, ◌∷◌, [], length, None, Some, MatchOption, MatchResult};
ghost use Rattle.dx_base.specs.Array as spec;
ghost use Rattle.dx_base.specs.Array.{ArrayData};
ghost use Rattle.dx_base.specs.ArrayLimits.{IsLawfulArray};
ghost use Rattle.dx_base.specs.declared.elem.ElemType.TheVariants.{Int};
ghost use Rattle.dx_arrays.specs.Makes.{Makes, refused_count};
ghost use Rattle.dx_arrays.specs.Classes.{kind_of, plain_of};
ghost use Rattle.dx_arrays.specs.Kept.{values_in};
ghost use Rattle.dx_arrays.specs.Block.{line_len};

use crate::extents::{
    Extents, MAX_ITEMS, MAX_VALUES, cell_count, corner_count, has_room, is_grid, last_of,
    product_of,
};
use crate::grid::{corner, position};
use crate::number::{along, narrowed};
use crate::range::{constant_fits, ints_fit, plain_fits, positions_fit, regular_fits};
use dx_base::{ElemType, Items};
use std::marker::Model;
use thiserror::Error;

/// The extents of an item: none for a number, one for a vector, two for a matrix.
pub type Shape = Items<u32>;

/// Why no array is made. Where several reasons stand together, the answer is the first of `BadShape`, `TooManyItems`,
/// `ItemCount` and `RangeOfType`.
#[derive(Clone, Copy, Debug, PartialEq, Eq, Error)]
pub enum ArrayError {
    /// An item has a value outside the type, or the one item that a constant array stores has one.
    #[error("a value is outside its type")]
    RangeOfType,
    /// A list has another length than the shape or the counts ask for.
    #[error("a list has the wrong length")]
    ItemCount,
    /// The list of extents is no shape, or the list of counts no grid's.
    #[error("no shape of an array")]
    BadShape,
    /// There are more items or more values than an array may have.
    #[error("too many items")]
    TooManyItems,
}

/// How the items of an array are given.
#[derive(Clone, Copy, Debug, PartialEq, Eq)]
pub enum ArrayClass {
    /// Each item is stored.
    Plain,
    /// One stored item stands for all.
    Constant,
    /// Item number i is the origin and i times the delta.
    Regular,
    /// The points of a grid, as vectors of ints. The last index varies fastest.
    GridPositions,
    /// The cells of a grid, each as the numbers of its corner points in ascending order.
    GridConnections,
}

/// The values of a plain array as they are kept, item by item, which contracts see as the list of them.
#[derive(Clone, Copy, Debug)]
pub enum Values<'a> {
    /// Ints, in 4 bytes each.
    Ints(&'a [i32]),
    /// Values of any type.
    Wide(&'a [i64]),
}

#[derive(Debug, Drop)]
enum Stored {
    Plain(Vec<i64>),
    Ints(Vec<i32>),
    Constant(Vec<i64>),
    Regular(Vec<i64>, Vec<i64>),
    Positions(Vec<u32>, Vec<i64>, Vec<i64>),
    Connections(Vec<u32>),
}

/// An array of integers: a type, a shape, and items by class.
#[derive(Debug, Drop)]
pub struct Array {
    elem: ElemType,
    extents: Extents,
    items: u64,
    stored: Stored,
}

impl Model for Array {
    ghost use Rattle.dx_base.specs.Array.{ArrayData};
    ghost use Rattle.dx_base.specs.ObjectCode.{coded_array};

    ghost Value = { ArrayData };

    ghost coded = { coded_array };

    ghost use Rattle.dx_arrays.specs.View.{data_of, IsKept};

    ghost view = { λ a. data_of a.elem a.extents a.items a.stored };

    ghost invariant = { λ a. IsKept (data_of a.elem a.extents a.items a.stored) a.items };
}

impl Array {
    /// An array of these values, item by item.
    pub fn plain(t: ElemType, s: Shape, values: Vec<i64>) -> Result<Array, ArrayError>
        ensures { Makes (record { elem = t; extents = s; class = spec.plain values.items }) result }
    {
        let Some(extents) = Extents::of(s.as_slice()) else {
            return Err(ArrayError::BadShape);
        };
        let items = item_count(values.len() as u64, extents.width())?;
        if !plain_fits(t, &extents, &values) {
            return Err(ArrayError::RangeOfType);
        }
        Ok(Array {
            elem: t,
            extents,
            items,
            stored: Stored::Plain(values),
        })
    }

    /// An array of these ints, item by item, which are kept in 4 bytes each.
    pub fn ints(s: Shape, values: Vec<i32>) -> Result<Array, ArrayError>
        ensures { Makes (record { elem = Int; extents = s; class = spec.plain values.items }) result }
    {
        let Some(extents) = Extents::of(s.as_slice()) else {
            return Err(ArrayError::BadShape);
        };
        let items = item_count(values.len() as u64, extents.width())?;
        // This holds of every list: the compiler sees it from the type and leaves the test out.
        if !ints_fit(&extents, &values) {
            return Err(ArrayError::RangeOfType);
        }
        Ok(Array {
            elem: ElemType::Int,
            extents,
            items,
            stored: Stored::Ints(values),
        })
    }

    /// An array of so many items that are all this one.
    pub fn constant(t: ElemType, s: Shape, items: u64, value: Vec<i64>) -> Result<Array, ArrayError>
        ensures { Makes (record { elem = t; extents = s; class = spec.constant items value.items }) result }
    {
        let Some(extents) = Extents::of(s.as_slice()) else {
            return Err(ArrayError::BadShape);
        };
        let width = extents.width();
        if !has_room(items, width) {
            return Err(ArrayError::TooManyItems);
        }
        if value.len() as u64 != width {
            return Err(ArrayError::ItemCount);
        }
        if !constant_fits(t, &extents, items, &value) {
            return Err(ArrayError::RangeOfType);
        }
        Ok(Array {
            elem: t,
            extents,
            items,
            stored: Stored::Constant(value),
        })
    }

    /// An array whose item number i is `origin + i * delta`, value by value.
    pub fn regular(
        t: ElemType,
        s: Shape,
        items: u64,
        origin: Vec<i64>,
        delta: Vec<i64>,
    ) -> Result<Array, ArrayError>
        ensures { Makes (record { elem = t; extents = s; class = spec.regular items origin.items delta.items }) result }
    {
        let Some(extents) = Extents::of(s.as_slice()) else {
            return Err(ArrayError::BadShape);
        };
        let width = extents.width();
        if !has_room(items, width) {
            return Err(ArrayError::TooManyItems);
        }
        if origin.len() as u64 != width || delta.len() as u64 != width {
            return Err(ArrayError::ItemCount);
        }
        if !regular_fits(t, &extents, items, &origin, &delta) {
            return Err(ArrayError::RangeOfType);
        }
        Ok(Array {
            elem: t,
            extents,
            items,
            stored: Stored::Regular(origin, delta),
        })
    }

    /// The points of a grid with these counts: the item of the indices `(i1, .., in)` is
    /// `origin + i1 * delta1 + .. + in * deltan`, and the deltas stand one after the other.
    pub fn grid_positions(
        counts: Vec<u32>,
        origin: Vec<i64>,
        deltas: Vec<i64>,
    ) -> Result<Array, ArrayError>
        ensures { Makes (record { elem = Int; extents = length counts.items ∷ []; class = spec.grid_positions counts.items origin.items deltas.items }) result }
    {
        if !is_grid(&counts) {
            return Err(ArrayError::BadShape);
        }
        let dimensions = counts.len();
        let items = product_of(&counts);
        if !has_room(items, dimensions as u64) {
            return Err(ArrayError::TooManyItems);
        }
        if origin.len() != dimensions || deltas.len() != dimensions * dimensions {
            return Err(ArrayError::ItemCount);
        }
        if !positions_fit(&counts, &origin, &deltas) {
            return Err(ArrayError::RangeOfType);
        }
        Ok(Array {
            elem: ElemType::Int,
            extents: Extents::of_list(dimensions as u32),
            items,
            stored: Stored::Positions(counts, origin, deltas),
        })
    }

    /// The cells of a grid with these counts of points: each item gives the points at the corners of its cell by their
    /// numbers, in ascending order.
    pub fn grid_connections(counts: Vec<u32>) -> Result<Array, ArrayError>
        ensures { Makes (record { elem = Int; extents = 2 ^ length counts.items ∷ []; class = spec.grid_connections counts.items }) result }
    {
        if !is_grid(&counts) {
            return Err(ArrayError::BadShape);
        }
        let corners = corner_count(&counts);
        let items = cell_count(&counts);
        if !has_room(items, corners as u64) {
            return Err(ArrayError::TooManyItems);
        }
        Ok(Array {
            elem: ElemType::Int,
            extents: Extents::of_list(corners),
            items,
            stored: Stored::Connections(counts),
        })
    }
}

impl Array {
    /// How many items there are.
    pub fn items(&self) -> u64
        ensures items { result ≡ spec.items self.now }
        ensures lawful { IsLawfulArray self.now }
    {
        self.items
    }

    /// How many values an item has.
    pub fn width(&self) -> u64
        ensures width { result ≡ spec.width self.now }
        ensures some { 0 < result }
        ensures lawful { IsLawfulArray self.now }
    {
        self.extents.width()
    }

    pub fn elem(&self) -> ElemType
        ensures { result ≡ self.now.elem }
    {
        self.elem
    }

    pub fn class(&self) -> ArrayClass
        ensures { result ≡ kind_of self.now.class }
    {
        match &self.stored {
            Stored::Plain(_) | Stored::Ints(_) => ArrayClass::Plain,
            Stored::Constant(_) => ArrayClass::Constant,
            Stored::Regular(_, _) => ArrayClass::Regular,
            Stored::Positions(_, _, _) => ArrayClass::GridPositions,
            Stored::Connections(_) => ArrayClass::GridConnections,
        }
    }

    pub fn extents(&self) -> &[u32]
        ensures { result.now ≡ self.now.extents }
    {
        self.extents.as_slice()
    }

    /// The counts of a grid's points along its dimensions, and nothing for other classes.
    pub fn counts(&self) -> &[u32]
        ensures { result.now ≡ spec.counts_of self.now.class }
    {
        match &self.stored {
            Stored::Positions(counts, _, _) | Stored::Connections(counts) => counts,
            _ => &[],
        }
    }

    /// The origin of a regular array or of a grid's points, the one item of a constant array, and else nothing.
    pub fn origin(&self) -> &[i64]
        ensures { result.now ≡ spec.origin_of self.now.class }
    {
        match &self.stored {
            Stored::Constant(value) => value,
            Stored::Regular(origin, _) | Stored::Positions(_, origin, _) => origin,
            _ => &[],
        }
    }

    /// A regular array's delta; the deltas of a grid's points, one behind the other; and nothing for other classes.
    pub fn deltas(&self) -> &[i64]
        ensures { result.now ≡ spec.deltas_of self.now.class }
    {
        match &self.stored {
            Stored::Regular(_, deltas) | Stored::Positions(_, _, deltas) => deltas,
            _ => &[],
        }
    }

    /// All values of a plain array, item by item, and none for other classes.
    pub fn plain_values(&self) -> Option<Values<'_>>
        ensures { MatchOption result (plain_of self.now.class ≡ None) (λ values. plain_of self.now.class ≡ Some (values_in values)) }
    {
        match &self.stored {
            Stored::Plain(values) => Some(Values::Wide(values)),
            Stored::Ints(values) => Some(Values::Ints(values)),
            _ => None,
        }
    }

    /// The value of an item in a place.
    pub fn value(&self, item: u64, place: u64) -> i64
        requires item { item < spec.items self.now }
        requires place { place < spec.width self.now }
        ensures { result ≡ spec.value self.now item place }
    {
        match &self.stored {
            Stored::Plain(values) => values[(item * self.extents.width() + place) as usize],
            Stored::Ints(values) => {
                i64::from(values[(item * self.extents.width() + place) as usize])
            }
            Stored::Constant(value) => value[place as usize],
            Stored::Regular(origin, delta) => {
                narrowed(along(origin[place as usize], item, delta[place as usize]))
            }
            Stored::Positions(counts, origin, deltas) => {
                position(counts, origin[place as usize], deltas, item, place)
            }
            Stored::Connections(counts) => corner(counts, item, place) as i64,
        }
    }

    /// How many items stand on one line, along which each place grows by the same from item to item.
    pub(crate) fn line_len(&self) -> u64
        ensures len { result ≡ line_len self.now.class }
        ensures lawful { IsLawfulArray self.now }
    {
        match &self.stored {
            Stored::Plain(_) | Stored::Ints(_) => 1,
            Stored::Constant(_) | Stored::Regular(_, _) => self.items,
            Stored::Positions(counts, _, _) => last_of(counts) as u64,
            Stored::Connections(counts) => last_of(counts).saturating_sub(1) as u64,
        }
    }

    /// The stated size in bytes.
    pub fn size(&self) -> u64
        ensures { result ≡ spec.array_size self.now }
    {
        let item = self.extents.width() * self.elem.byte_count();
        match &self.stored {
            Stored::Plain(values) => 64 + values.len() as u64 * self.elem.byte_count(),
            Stored::Ints(values) => 64 + values.len() as u64 * self.elem.byte_count(),
            Stored::Constant(_) => 64 + item,
            Stored::Regular(_, _) => 64 + 2 * item,
            Stored::Positions(counts, _, _) => {
                let dimensions = counts.len() as u64;
                64 + 4 * (2 * dimensions + dimensions * dimensions)
            }
            Stored::Connections(counts) => 64 + 4 * counts.len() as u64,
        }
    }
}

// How many items of this width so many values are, if an array may have them.
fn item_count(values: u64, width: u64) -> Result<u64, ArrayError>
    requires some { 0 < width }
    requires few { width ≤ 65536 }
    ensures { MatchResult result (λ items. (items ≡ values / width) × (refused_count values width ≡ None)) (λ e. refused_count values width ≡ Some e) }
{
    if values > MAX_ITEMS * width || values > MAX_VALUES {
        return Err(ArrayError::TooManyItems);
    }
    if values % width != 0 {
        return Err(ArrayError::ItemCount);
    }
    Ok(values / width)
}
