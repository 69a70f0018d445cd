//! Lists of places of which few have a value.
ghost use Rattle.std.specs.Prelude.{◌≡◌, ℕ, None, Some, replicate, option_map, is_some, length, nat_lt, ◌&&◌, not, slice_index_or, slice_set, OnOk, OnErr};
ghost use Rattle.std.specs.Ordering.{nat_cmp, eq_by_cmp};
ghost use Rattle.std.specs.List.Sorted.{IsStrictlySortedBy};
ghost use Rattle.std.specs.Set.{is_member};

use std::alloc::{AllocError, Global};
use std::collections::BTreeMap;
use std::collections::btree_map::Keys;
use std::marker::Model;

/// A list of places, each of which is empty or has a value, as contracts see it too. An empty place takes no memory.
#[derive(Drop)]
pub struct Sparse<T> {
    count: usize,
    filled: BTreeMap<usize, T>,
}

impl<T> Model for Sparse<T> {
    ghost use Rattle.std.specs.Prelude.{List, Option};
    ghost use Rattle.std.specs.Coded.{coded_list, coded_option};
    ghost use Rattle.std.specs.Ordering.{nat_cmp};
    ghost use Rattle.std.specs.BTreeMap.{get};
    ghost use Rattle.dx_base.specs.Places.{at_places, IsWithin};

    ghost Value = { List (Option T) };

    ghost coded = { coded_list (coded_option T.code) };

    ghost view = { λ s. at_places (get nat_cmp s.filled) 0 s.count };

    ghost invariant = { λ s. IsWithin s.count s.filled };
}

impl<T: Drop> Sparse<T> {
    /// So many empty places.
    pub fn new(alloc: Global, count: usize) -> Sparse<T>
        ensures { result ≡ replicate count None }
    {
        Sparse {
            count,
            filled: BTreeMap::new(alloc),
        }
    }

    /// What is at a place: None where it is empty, or where there is no such place.
    pub fn get(&self, place: usize) -> Option<&T>
        ensures { option_map (λ x. x.now) result ≡ slice_index_or self.now place None }
    {
        if place < self.count {
            self.filled.get(&place)
        } else {
            None
        }
    }

    /// There is such a place, and it is empty.
    pub fn is_empty_at(&self, place: usize) -> bool
        ensures { result ≡ (nat_lt place (length self.now) && not (is_some (slice_index_or self.now place None))) }
    {
        place < self.count && self.get(place).is_none()
    }

    /// Puts a value at a place, if there is such a place. Where memory runs out the list stays as it was.
    pub fn set(&mut self, place: usize, value: T) -> Result<(), AllocError>
        ensures ok { OnOk result (self.new ≡ slice_set self.old place (Some value)) }
        ensures err { OnErr result (self.new ≡ self.old) }
    {
        if place >= self.count {
            return Ok(());
        }
        self.filled.insert(place, value)?;
        Ok(())
    }

    /// The places that have a value, in ascending order.
    pub fn places(&self) -> Keys<'_, usize, T>
        ensures ascending { IsStrictlySortedBy nat_cmp result }
        ensures all { (place : ℕ) → is_member (eq_by_cmp nat_cmp) result place ≡ is_some (slice_index_or self.now place None) }
    {
        self.filled.keys()
    }
}
