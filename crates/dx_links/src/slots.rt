//! Links in slots, in the order in which they came, and the numbers of the slots in the order of the keys, which is searched by halving.

ghost use Rattle.std.specs.Prelude.{◌≡◌, ◌+◌, ◌<◌, ◌≤◌, [], None, Some, length, MatchOption, OnOk, IfOk, slice_get};
ghost use Rattle.std.specs.List.{range_with_len};
ghost use Rattle.std.specs.List.Sorted.{IsStrictlySortedBy};
ghost use Rattle.std.specs.Map.{keys_of};
ghost use Rattle.dx_links.specs.LinkMap.{held_at, after, tag_at, key_cmp};
ghost use Rattle.dx_links.specs.Slots.{StandsAt};

use crate::changes::Changes;
use crate::held::Held;
use crate::key::Key;
use crate::places::place_of;
use dx_tags::ValueTag;
use std::alloc::{AllocError, Global};
use std::marker::Model;

/// Links with tags of their own, which contracts see as a finite map from keys, in their order, with the room for more keys.
#[derive(Drop)]
pub(crate) struct Slots {
    // In the order in which they came.
    pub(crate) slots: Vec<(Key, Held)>,
    // The numbers of the slots, in the order of their keys.
    pub(crate) order: Vec<usize>,
}

impl Model for Slots {
    ghost use Rattle.std.specs.Prelude.{◌-◌, min, vec_len, vec_capacity};
    ghost use Rattle.dx_links.specs.LinkMap.{Slotted, coded_slotted};
    ghost use Rattle.dx_links.specs.Slots.{links_of, AreOrdered};

    ghost Value = { Slotted };

    ghost coded = { coded_slotted };

    ghost view = { λ a. record { links = links_of a.slots.items a.order.items; room = min (vec_capacity a.slots - vec_len a.slots) (vec_capacity a.order - vec_len a.order) } };

    ghost invariant = { λ a. AreOrdered a.slots.items a.order.items };
}

impl Slots {
    /// No links, which takes no memory.
    pub(crate) fn new(alloc: Global) -> Slots
        ensures { result.links ≡ [] }
    {
        Slots {
            slots: Vec::new(alloc),
            order: Vec::new(alloc),
        }
    }

    /// The number of links.
    pub(crate) fn len(&self) -> usize
        ensures { result ≡ length self.now.links }
    {
        self.order.len()
    }

    /// The place of a key in their order; None exactly where there is no such link.
    pub(crate) fn find(&self, key: &Key) -> Option<usize>
        ensures { MatchOption result (held_at key.now self.now.links ≡ None) (λ i. StandsAt key.now self.now.links i) }
    {
        match place_of(&self.slots, &self.order, key) {
            Ok(i) => Some(i),
            Err(_) => None,
        }
    }

    /// The link at a place in the order of the keys, counted from 0: a key, and what it holds.
    pub(crate) fn at(&self, i: usize) -> (&Key, &Held)
        requires within { i < length self.now.links }
        ensures at { slice_get self.now.links i ≡ Some (result.0.now, result.1.now) }
        ensures sorted { IsStrictlySortedBy key_cmp (keys_of self.now.links) }
    {
        let (key, held) = &self.slots[self.order[i]];
        (key, held)
    }

    /// Room for so many more keys. Where memory runs out the links stay.
    pub(crate) fn reserve(&mut self, keys: usize) -> Result<(), AllocError>
        ensures links { self.new.links ≡ self.old.links }
        ensures room { OnOk result (keys ≤ self.new.room) }
        ensures kept { self.old.room ≤ self.new.room }
        ensures counted { OnOk result (length self.new.links + keys < 18446744073709551616) }
        ensures sorted { IsStrictlySortedBy key_cmp (keys_of self.new.links) }
    {
        self.slots.reserve(keys)?;
        self.order.reserve(keys)
    }

    /// Gives another tag to the value at a place in the order of the keys.
    pub(crate) fn set_tag(&mut self, i: usize, tag: ValueTag)
        requires within { i < length self.old.links }
        ensures links { self.new.links ≡ tag_at self.old.links i tag }
        ensures room { self.old.room ≤ self.new.room }
    {
        self.slots[self.order[i]].1.set_tag(tag);
    }

    /// The same links in memory of their own, which share the values.
    pub(crate) fn copy(&self, alloc: Global) -> Result<Slots, AllocError>
        ensures { IfOk result (λ copy. copy.links ≡ self.now.links) }
    {
        let mut slots = Vec::with_capacity(alloc, self.order.len())?;
        for n in &self.order {
            let (key, held) = &self.slots[*n];
            slots.push((Key::copy_of(alloc, key)?, held.share()?))?;
        }
        let order = numbers(alloc, slots.len())?;
        Ok(Slots { slots, order })
    }

    /// Makes the changes in their order, the last of one key counting, each as `put` does. This takes no memory.
    pub(crate) fn commit(&mut self, changes: Changes)
        requires room { length changes ≤ self.old.room }
        ensures { self.new.links ≡ after self.old.links changes }
    {
        for change in changes.into_vec() {
            self.put(change);
        }
    }
}

// The numbers below this one, ascending.
fn numbers(alloc: Global, count: usize) -> Result<Vec<usize>, AllocError>
    ensures { IfOk result (λ numbers. numbers.items ≡ range_with_len 0 count) }
{
    let mut numbers = Vec::with_capacity(alloc, count)?;
    for n in 0..count {
        numbers.push(n)?;
    }
    Ok(numbers)
}
