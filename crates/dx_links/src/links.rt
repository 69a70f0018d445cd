//! The links. At an emptying each gets the term of its place, and its value is held by that number: while no link changes neither is written down.

ghost use Rattle.std.specs.Prelude.{◌≡◌, ◌+◌, ◌<◌, ◌≤◌, [], None, Some, length, MatchOption, OnOk, IfOk, slice_get};
ghost use Rattle.std.specs.List.Sorted.{IsStrictlySortedBy};
ghost use Rattle.std.specs.Map.{keys_of};
ghost use Rattle.dx_objects.specs.Values.{value_at};
ghost use Rattle.dx_links.specs.Emptied.{all_held, values_held};
ghost use Rattle.dx_links.specs.Holding.{holding_of};
ghost use Rattle.dx_links.specs.LinkMap.{held_at, put_at, after, key_cmp};

use crate::changes::Changes;
use crate::held::{Change, HeldRef};
use crate::key::Key;
use crate::settling::{tag_of, unsettle};
use crate::slots::Slots;
use dx_objects::{Object, Outs};
use std::alloc::{AllocError, Global};
use std::marker::Model;
use std::rc::Rc;

/// What is kept between executions, which contracts see as a finite map from keys, in their order, with the values that were
/// held at the last emptying, and the room for more keys.
pub struct Links {
    alloc: Global,
    slots: Slots,
    // The values that were held at the last emptying, where links have changed since.
    held: Outs,
    // No link has changed since the last emptying: each has the term of its place, and the values held are those of the links.
    settled: bool,
}

// A function of its own, so that whoever drops links doesn't prove again how their parts are dropped.
impl Drop for Links {
    fn drop(self) {
        let Links {
            alloc: _,
            slots: _,
            held: _,
            settled: _,
        } = self;
    }
}

impl Model for Links {
    ghost use Rattle.dx_links.specs.LinkMap.{Linked, coded_linked};
    ghost use Rattle.dx_links.specs.Settled.{links_seen, held_seen, room_seen};

    ghost Value = { Linked };

    ghost coded = { coded_linked };

    ghost view = { λ a. record { links = links_seen a.settled a.slots.links; held = held_seen a.settled a.slots.links a.held; room = room_seen a.settled a.slots.room; spare = a.slots.room } };
}

impl Links {
    /// No links and no values that are held, which takes no memory.
    pub fn new(alloc: Global) -> Links
        ensures links { result.links ≡ [] }
        ensures held { result.held ≡ [] }
    {
        Links {
            alloc,
            slots: Slots::new(alloc),
            held: Outs::new(alloc),
            settled: false,
        }
    }

    /// What the link under a key holds; None exactly where there is no such link.
    pub fn get(&self, key: &Key) -> Option<HeldRef<'_>>
        ensures { MatchOption result (held_at key.now self.now.links ≡ None) (λ h. held_at key.now self.now.links ≡ Some (holding_of h)) }
    {
        match self.slots.find(key) {
            None => None,
            Some(i) => Some(self.at(i).1),
        }
    }

    /// The number of links.
    pub fn len(&self) -> usize
        ensures { result ≡ length self.now.links }
    {
        self.slots.len()
    }

    /// The link at a place in the order of the keys, counted from 0: a key, and what it holds.
    pub fn at(&self, i: usize) -> (&Key, HeldRef<'_>)
        requires within { i < length self.now.links }
        ensures at { slice_get self.now.links i ≡ Some (result.0.now, holding_of result.1) }
        ensures held { held_at result.0.now self.now.links ≡ Some (holding_of result.1) }
    {
        let (key, held) = self.slots.at(i);
        let tag = tag_of(self.settled, i, held);
        let value = held.value();
        (key, HeldRef { value, tag })
    }

    /// The value of this number that was held at the last emptying, and none where no value has it.
    pub fn value_held(&self, k: usize) -> Option<&Rc<Object>>
        ensures { MatchOption result (value_at self.now.held k ≡ None) (λ o. value_at self.now.held k ≡ Some o.now.value) }
    {
        if !self.settled {
            return self.held.value(k);
        }
        if k < self.slots.len() {
            Some(self.slots.at(k).1.value())
        } else {
            None
        }
    }

    /// Room for so many more keys. Where memory runs out the links stay.
    pub fn reserve(&mut self, keys: usize) -> Result<(), AllocError>
        ensures links { self.new.links ≡ self.old.links }
        ensures room { OnOk result (keys ≤ self.new.room) }
        ensures kept { self.old.room ≤ self.new.room }
        ensures counted { OnOk result (length self.new.links + keys < 18446744073709551616) }
        ensures sorted { IsStrictlySortedBy key_cmp (keys_of self.new.links) }
        ensures held { self.new.held ≡ self.old.held }
    {
        self.slots.reserve(keys)?;
        unsettle(
            self.alloc,
            &mut self.slots,
            &mut self.held,
            &mut self.settled,
        )
    }

    /// A key holds this from now on, or nothing any more. This takes no memory. The order is searched by halving; a new key, and
    /// one that is taken away, moves the numbers of those above it, and no links.
    pub fn put(&mut self, change: Change)
        requires room { 0 < self.old.room }
        ensures made { self.new.links ≡ put_at self.old.links change.key change.held }
        ensures room { self.old.room ≤ self.new.room + 1 }
        ensures held { self.new.held ≡ self.old.held }
    {
        self.slots.put(change);
    }

    /// Makes the changes in their order, the last of one key counting, each as `put` does. This takes no memory.
    pub fn commit(&mut self, changes: Changes)
        requires room { length changes ≤ self.old.room }
        ensures links { self.new.links ≡ after self.old.links changes }
        ensures held { self.new.held ≡ self.old.held }
    {
        self.slots.commit(changes);
    }

    /// The same links in memory of their own, which share the values, with the values that were held at the last emptying.
    pub fn copy(&self, alloc: Global) -> Result<Links, AllocError>
        ensures links { IfOk result (λ copy. copy.links ≡ self.now.links) }
        ensures held { IfOk result (λ copy. copy.held ≡ self.now.held) }
    {
        Ok(Links {
            alloc,
            slots: self.slots.copy(alloc)?,
            held: self.held.copy(alloc)?,
            settled: self.settled,
        })
    }

    /// Room for so many more keys at an emptying. Where memory runs out the links stay.
    pub fn reserve_emptying(&mut self, keys: usize) -> Result<(), AllocError>
        ensures links { self.new.links ≡ self.old.links }
        ensures held { self.new.held ≡ self.old.held }
        ensures spare { OnOk result (keys ≤ self.new.spare) }
    {
        self.slots.reserve(keys)
    }

    /// Makes the changes in their order and empties: each link has the term of its place then, and the values held are those of
    /// the links. This takes no memory and goes through the changes alone; where links had changed since the last emptying, the
    /// list of the values that were held goes.
    pub fn empty(&mut self, changes: Changes)
        requires spare { length changes ≤ self.old.spare }
        ensures links { self.new.links ≡ all_held (after self.old.links changes) }
        ensures held { self.new.held ≡ values_held (after self.old.links changes) }
    {
        self.slots.commit(changes);
        self.held = Outs::new(self.alloc);
        self.settled = true;
    }
}
