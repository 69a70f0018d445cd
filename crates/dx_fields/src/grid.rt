//! Fields that are regular grids.
ghost use Rattle.std.specs.Prelude.{◌≡◌, ◌<◌, ◌≤◌, length, None, Some, MatchOption, IfSome, slice_index, bytes_eq};
ghost use Rattle.dx_base.specs.ArrayLimits.{max_dimensions};
ghost use Rattle.dx_fields.specs.Grids as spec;

use dx_objects::{Array, ArrayClass, Object};
use std::marker::Model;
use std::rc::Rc;

/// The counts of the points of a regular grid along its dimensions, of which there are one to three.
#[derive(Drop)]
pub struct Grid<'a> {
    counts: &'a [u32],
}

impl<'a> Model for Grid<'a> {
    ghost use Rattle.std.specs.Prelude.{◌≤◌, List, ℕ, length};
    ghost use Rattle.dx_base.specs.ArrayLimits.{max_dimensions};

    ghost Value = { List ℕ };

    ghost view = { λ grid. grid.counts.now };

    ghost invariant = { λ grid. length grid.counts.now ≤ max_dimensions };
}

impl<'a> Grid<'a> {
    /// How many points stand along dimension number d, counted from 0.
    pub fn count(&self, d: u32) -> u32
        requires { d < length self.now }
        ensures { result ≡ slice_index self.now d }
    {
        self.counts[d as usize]
    }

    pub fn dimensions(&self) -> u32
        ensures { result ≡ length self.now }
    {
        self.counts.len() as u32
    }
}

/// The grid that a field is, if it is one: its `positions` are the points of a grid, and its `connections` the cells of
/// the grid with the same counts but those that are 1. Where all counts are 1 there are no `connections`. It takes no
/// memory.
pub fn grid_of(object: &Object) -> Option<Grid<'_>>
    ensures { MatchOption result (spec.grid_counts object.now ≡ None) (λ grid. spec.grid_counts object.now ≡ Some grid) }
{
    let counts = points_in(object.component(b"positions")?)?;
    if are_joined(counts, object.component(b"connections")) {
        Some(Grid { counts })
    } else {
        None
    }
}

// The counts of the points of a grid.
fn points_in(positions: &Object) -> Option<&[u32]>
    ensures counts { MatchOption result (spec.points_of positions.now ≡ None) (λ cs. spec.points_of positions.now ≡ Some cs.now) }
    ensures few { IfSome result (λ cs. length cs.now ≤ max_dimensions) }
{
    let array = positions.as_array()?;
    // Asked so that the proof knows that the array can be made.
    let _items = array.items();
    match array.class() {
        ArrayClass::GridPositions => Some(array.counts()),
        _ => None,
    }
}

// Whether these are the cells of the points with these counts.
fn are_joined(counts: &[u32], cells: Option<&Rc<Object>>) -> bool
    ensures { MatchOption cells.entry (result ≡ spec.are_joined (spec.without_ones counts.now) None) (λ c. result ≡ spec.are_joined (spec.without_ones counts.now) (Some c.now.value)) }
{
    match cells {
        None => are_without_ones(counts, &[]),
        Some(cells) => are_counts_of(counts, cells),
    }
}

// Whether there is a count other than 1, and the cells are given by just those.
fn are_counts_of(counts: &[u32], cells: &Object) -> bool
    ensures { result ≡ spec.are_joined (spec.without_ones counts.now) (Some cells.now) }
{
    let Some(array) = cells.as_array() else {
        return false;
    };
    match array.class() {
        ArrayClass::GridConnections => {
            !are_without_ones(counts, &[]) && are_without_ones(counts, array.counts())
        }
        _ => false,
    }
}

// Whether the others are the counts without those that are 1.
fn are_without_ones(counts: &[u32], others: &[u32]) -> bool
    ensures { result ≡ bytes_eq (spec.without_ones counts.now) others.now }
{
    let mut rest = others;
    for count in counts {
        if *count != 1 {
            let Some((first, after)) = rest.split_first() else {
                return false;
            };
            if *count != *first {
                return false;
            }
            rest = after;
        }
    }
    rest.is_empty()
}
