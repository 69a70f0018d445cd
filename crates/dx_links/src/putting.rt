//! How a change is made: the slots of the other keys stay where they are, and so do their links.
ghost use Rattle.std.specs.Prelude.{◌≡◌, ◌+◌, ◌<◌, ◌≤◌, length};
ghost use Rattle.std.specs.List.{insert, remove};
ghost use Rattle.std.specs.List.Sorted.{IsStrictlySortedBy};
ghost use Rattle.std.specs.Map.{keys_of};
ghost use Rattle.dx_links.specs.LinkMap.{key_cmp, put_at};

use crate::held::{Change, Held};
use crate::key::Key;
use crate::places::{place_of, place_of_slot};
use crate::slots::Slots;

impl Slots {
    /// A key holds this from now on, or nothing any more. This takes no memory. The order is searched by halving; a new key, and
    /// one that is taken away, moves the numbers of those above it, and no links.
    pub(crate) fn put(&mut self, change: Change)
        requires room { 0 < self.old.room }
        ensures made { self.new.links ≡ put_at self.old.links change.key change.held }
        ensures room { self.old.room ≤ self.new.room + 1 }
    {
        let Change { key, held } = change;
        match (place_of(&self.slots, &self.order, &key), held) {
            (Ok(i), Some(held)) => self.slots[self.order[i]].1 = held,
            (Ok(i), None) => self.take(i),
            (Err(i), Some(held)) => self.insert(i, (key, held)),
            (Err(_), None) => {}
        }
    }

    // A link of a new key goes into a slot behind the others.
    fn insert(&mut self, i: usize, link: (Key, Held))
        requires within { i ≤ length self.old.links }
        requires room { 0 < self.old.room }
        requires sorted { IsStrictlySortedBy key_cmp (keys_of (insert self.old.links i link)) }
        ensures links { self.new.links ≡ insert self.old.links i link }
        ensures room { self.old.room ≤ self.new.room + 1 }
    {
        let n = self.slots.len();
        match (self.slots.push(link), self.order.insert(i, n)) {
            (Ok(()), Ok(())) => {}
            _ => unreachable!(),
        }
    }

    // The last slot comes into the place of the one that is taken away.
    fn take(&mut self, i: usize)
        requires within { i < length self.old.links }
        ensures links { self.new.links ≡ remove self.old.links i }
        ensures room { self.old.room ≤ self.new.room }
    {
        let last = self.slots.len() - 1;
        let j = place_of_slot(&self.slots, &self.order, last);
        self.slots.swap(self.order[i], last);
        self.order.swap(i, j);
        self.slots.pop();
        self.order.remove(i);
    }
}
