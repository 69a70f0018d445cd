//! Where a key and a slot stand in the order of the keys, which is searched by halving.
ghost use Rattle.std.specs.Prelude.{◌≡◌, ◌<◌, length, slice_get, slice_index};
ghost use Rattle.std.specs.List.{All};
ghost use Rattle.std.specs.List.Sorted.{IsBinarySearchResult, IsSearchInRange};
ghost use Rattle.dx_links.specs.LinkMap.{key_cmp};
ghost use Rattle.dx_links.specs.Slots.{links_of, slot_cmp, AreOrdered};

use crate::held::Held;
use crate::key::Key;
use std::cmp::Ordering;

/// The place of a key, or the place before which it would stand.
pub(crate) fn place_of(slots: &[(Key, Held)], order: &[usize], key: &Key) -> Result<usize, usize>
    requires below { All (λ n. n < length slots.now) order.now }
    ensures place { IsBinarySearchResult (λ link. key_cmp link.0 key.now) (links_of slots.now order.now) result }
    ensures range { IsSearchInRange result (length order.now) }
{
    order.binary_search_by(
        |n: &usize| -> Ordering
            ensures { result ≡ slot_cmp (slice_get slots.entry.now n.now) key.entry.now }
        { compare(slots, *n, key) },
    )
}

fn compare(slots: &[(Key, Held)], n: usize, key: &Key) -> Ordering
    ensures { result ≡ slot_cmp (slice_get slots.now n) key.now }
{
    match slots.get(n) {
        Some(link) => link.0.cmp(key),
        None => Ordering::Less,
    }
}

/// The place of a slot.
pub(crate) fn place_of_slot(slots: &[(Key, Held)], order: &[usize], n: usize) -> usize
    requires ordered { AreOrdered slots.now order.now }
    requires within { n < length slots.now }
    ensures within { result < length order.now }
    ensures place { slice_index order.now result ≡ n }
{
    match place_of(slots, order, &slots[n].0) {
        Ok(i) => i,
        Err(_) => unreachable!(),
    }
}
