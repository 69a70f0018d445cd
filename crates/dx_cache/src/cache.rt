//! The cache: entries stand in slots, over which a chain of all entries and one of each site's run, the oldest first; a
//! table leads from tags to slots, and one from sites to the ends of their chains.

ghost use Rattle.std.specs.Prelude.{◌≡◌, ℕ, ◌+◌, ◌-◌, ◌<◌, ◌≤◌, [], ◌∷◌, ◌++◌, Some, None, length, OnOk, MatchOption, true, false, is_some, slice_get};
ghost use Rattle.std.specs.List.{remove};
ghost use Rattle.dx_cache.specs.Cached.{Cached, total, find, moved, place, has_tag, next_place, Drops, IsTagAt};
ghost use Rattle.dx_cache.specs.Sound.{AreKept, IsBounded, IsKept};

use crate::chains::{Ends, Link, after_steps, no_ends, put_last, take_out};
use crate::entry::Entry;
use crate::names::Names;
use crate::slots::{Body, fill, grow, lift, next, tag_of};
use dx_base::Bytes;
use dx_objects::Outs;
use indexmap::IndexMap;
use std::alloc::{AllocError, Global};
use std::marker::Model;

/// A bounded cache of results. Contracts see its budget, its entries from the oldest to the newest, and the room that is
/// reserved. At every exit of each call the sum of the stated sizes is at most the budget, each entry has the size of its
/// results, attribute 1 or 2 and a site, and no tag stands twice. All calls but `reserve_one` take no memory; all but
/// `remove` and `clear` cost the same with a million entries as with ten.
#[derive(Drop)]
pub struct Cache {
    budget: u64,
    used: u64,
    // What each slot has, its site, and its neighbours: among all entries or the free slots, and among its site's.
    slots: Vec<Option<Body>>,
    names: Names,
    links: Vec<Link>,
    own: Vec<Link>,
    // The ends of the chain of all entries, and of that of the free slots.
    all: Ends,
    free: Ends,
    // The slot of each tag's entry.
    tags: IndexMap<u64, usize>,
}

impl Model for Cache {
    ghost use Rattle.std.specs.Prelude.{length, min};
    ghost use Rattle.indexmap.specs.IndexMap.{spare};
    ghost use Rattle.dx_cache.specs.Cached.{Cached};
    ghost use Rattle.dx_cache.specs.CachedCode.{coded_cached};
    ghost use Rattle.dx_cache.specs.Tied.{IsSound, entries_at, order_in};

    ghost Value = { Cached };

    ghost coded = { coded_cached };

    ghost view = { λ a. record {
      budget = a.budget;
      entries = entries_at a.slots.items a.names.names (order_in a.links.items a.slots.items a.all);
      room = min (length (order_in a.links.items a.slots.items a.free)) (min (spare a.tags) a.names.room);
    } };

    ghost invariant = { λ a. IsSound a.budget a.used a.slots.items a.names.names a.names.ends a.links.items a.own.items a.all a.free a.tags.entries };
}

impl Cache {
    /// An empty cache of this budget in bytes of stated size, which takes no memory.
    pub fn new(alloc: Global, budget: u64) -> Cache
        ensures budget { result.budget ≡ budget }
        ensures entries { result.entries ≡ [] }
        ensures sound { IsBounded result }
    {
        Cache {
            budget,
            used: 0,
            slots: Vec::new(alloc),
            names: Names::new(alloc),
            links: Vec::new(alloc),
            own: Vec::new(alloc),
            all: no_ends(),
            free: no_ends(),
            tags: IndexMap::new(alloc),
        }
    }

    /// The budget that the cache was made with.
    pub fn budget(&self) -> u64
        ensures { result ≡ self.now.budget }
    {
        self.budget
    }

    /// The sum of the stated sizes.
    pub fn used(&self) -> u64
        ensures used { result ≡ total self.now.entries }
        ensures bounded { result ≤ self.now.budget }
        ensures kept { AreKept self.now.entries }
    {
        self.used
    }

    /// The results that are kept for a tag, and none exactly where no entry has it. Nothing is moved.
    pub fn outs(&self, tag: u64) -> Option<&Outs>
        ensures { MatchOption result (find tag self.now.entries ≡ None) (λ outs. (e : _) × (find tag self.now.entries ≡ Some e) × (e.outs ≡ outs.now)) }
    {
        match self.tags.get(&tag) {
            None => None,
            Some(&i) => match &self.slots[i] {
                None => unreachable!(),
                Some(body) => Some(&body.outs),
            },
        }
    }

    /// Whether an entry has the tag. Nothing is moved.
    pub fn has(&self, tag: u64) -> bool
        ensures { result ≡ is_some (find tag self.now.entries) }
    {
        self.outs(tag).is_some()
    }

    /// The number of entries.
    pub fn len(&self) -> u64
        ensures { result ≡ length self.now.entries }
    {
        self.tags.len() as u64
    }

    /// Moves the entry of a tag behind all others, and says whether there is one.
    pub fn get(&mut self, tag: u64) -> bool
        ensures found { result ≡ is_some (find tag self.old.entries) }
        ensures entries { self.new.entries ≡ moved tag self.old.entries }
        ensures sound { IsBounded self.new }
        ensures budget { self.new.budget ≡ self.old.budget }
        ensures room { self.old.room ≤ self.new.room }
    {
        match self.tags.get(&tag) {
            None => false,
            Some(&i) => {
                take_out(&mut self.links, &mut self.all, i);
                put_last(&mut self.links, &mut self.all, i);
                let mut ends = self.names.ends_at(i);
                take_out(&mut self.own, &mut ends, i);
                put_last(&mut self.own, &mut ends, i);
                self.names.set_ends(i, ends);
                true
            }
        }
    }

    /// Makes room for one more entry, in the slots and in both tables. No entry changes, also where memory runs out.
    pub fn reserve_one(&mut self) -> Result<(), AllocError>
        ensures entries { self.new.entries ≡ self.old.entries }
        ensures sound { IsBounded self.new }
        ensures budget { self.new.budget ≡ self.old.budget }
        ensures room { self.old.room ≤ self.new.room }
        ensures spare { OnOk result (0 < self.new.room) }
    {
        self.tags.reserve(1)?;
        self.names.reserve_one()?;
        if self.free.first.is_none() {
            let i = self.slots.len();
            grow(
                &mut self.slots,
                &mut self.links,
                &mut self.own,
                &mut self.names,
            )?;
            put_last(&mut self.links, &mut self.free, i);
        }
        Ok(())
    }

    /// Takes out and hands back the next entry that is dropped before one of this site, attribute and size is stored, and
    /// none exactly where none is dropped. Under attribute 0 none is; under 2 the oldest entry of the site is, where there
    /// is one; else the oldest of all is, where the size is within the budget and with the sum above it.
    pub fn make_room(&mut self, site: &Bytes, attribute: u8, size: u64) -> Option<Entry>
        ensures drops { Drops (next_place site.now attribute size self.old.budget self.old.entries) self.old result self.new }
        ensures sound { IsBounded self.new }
    {
        match self.next_tag(site, attribute, size) {
            None => None,
            Some(tag) => Some(self.take(tag)),
        }
    }

    // The tag of the next entry that is dropped.
    fn next_tag(&self, site: &Bytes, attribute: u8, size: u64) -> Option<u64>
        ensures tag { IsTagAt (next_place site.now attribute size self.now.budget self.now.entries) self.now.entries result }
        ensures sound { IsBounded self.now }
    {
        match next(
            &self.names,
            self.all.first,
            self.used,
            self.budget,
            site,
            attribute,
            size,
        ) {
            None => None,
            Some(i) => tag_of(&self.slots, i),
        }
    }

    // Takes out the entry of a tag.
    fn take(&mut self, tag: u64) -> Entry
        requires found { (i : ℕ) × (place (has_tag tag) self.old.entries ≡ Some i) }
        ensures drops { Drops (place (has_tag tag) self.old.entries) self.old (Some result) self.new }
        ensures sound { IsBounded self.new }
    {
        match self.tags.swap_remove(&tag) {
            None => unreachable!(),
            Some(i) => match lift(&mut self.slots, i) {
                None => unreachable!(),
                Some(body) => {
                    let Body {
                        tag,
                        attribute,
                        size,
                        outs,
                    } = body;
                    self.used -= size;
                    take_out(&mut self.links, &mut self.all, i);
                    put_last(&mut self.links, &mut self.free, i);
                    let mut ends = self.names.ends_at(i);
                    take_out(&mut self.own, &mut ends, i);
                    self.names.set_ends(i, ends);
                    let site = self.names.take(i, ends.first);
                    Entry {
                        tag,
                        site,
                        attribute,
                        size,
                        outs,
                    }
                }
            },
        }
    }

    /// Takes out the entry at place `i`, where the oldest stands at 0, and hands it back, in time of `i`.
    pub fn remove(&mut self, i: u64) -> Entry
        requires within { i < length self.old.entries }
        ensures entry { slice_get self.old.entries i ≡ Some result }
        ensures entries { self.new.entries ≡ remove self.old.entries i }
        ensures sound { IsBounded self.new }
        ensures budget { self.new.budget ≡ self.old.budget }
        ensures room { self.old.room ≤ self.new.room }
    {
        match self.tag_at(i) {
            None => unreachable!(),
            Some(tag) => self.take(tag),
        }
    }

    // The tag of the entry at a place.
    fn tag_at(&self, i: u64) -> Option<u64>
        requires within { i < length self.now.entries }
        ensures { IsTagAt (Some i) self.now.entries result }
    {
        match after_steps(&self.links, self.all.first, i) {
            None => None,
            Some(slot) => tag_of(&self.slots, slot),
        }
    }

    /// Puts an entry behind all others. Room for it was reserved, no entry has its tag, its size is that of its results,
    /// its attribute is 1 or 2, its site isn't empty, and nothing has to be dropped for it.
    pub fn store(&mut self, entry: Entry)
        requires spare { 0 < self.old.room }
        requires absent { find entry.tag self.old.entries ≡ None }
        requires kept { IsKept entry }
        requires fits { total self.old.entries + entry.size ≤ self.old.budget }
        requires none_to_drop { next_place entry.site entry.attribute entry.size self.old.budget self.old.entries ≡ None }
        ensures entries { self.new.entries ≡ self.old.entries ++ entry ∷ [] }
        ensures sound { IsBounded self.new }
        ensures budget { self.new.budget ≡ self.old.budget }
        ensures room { self.old.room ≤ self.new.room + 1 }
    {
        match self.free.first {
            None => unreachable!(),
            Some(i) => {
                let Entry {
                    tag,
                    site,
                    attribute,
                    size,
                    outs,
                } = entry;
                take_out(&mut self.links, &mut self.free, i);
                put_last(&mut self.links, &mut self.all, i);
                match self.tags.insert(tag, i) {
                    Ok(_) => {}
                    Err(_) => unreachable!(),
                }
                self.names.add(i, site);
                let mut ends = self.names.ends_at(i);
                put_last(&mut self.own, &mut ends, i);
                self.names.set_ends(i, ends);
                self.used += size;
                fill(
                    &mut self.slots,
                    i,
                    Body {
                        tag,
                        attribute,
                        size,
                        outs,
                    },
                );
            }
        }
    }

    /// Drops all entries.
    pub fn clear(&mut self)
        ensures entries { self.new.entries ≡ [] }
        ensures sound { IsBounded self.new }
        ensures budget { self.new.budget ≡ self.old.budget }
    {
        self.slots.clear();
        self.names.clear();
        self.links.clear();
        self.own.clear();
        self.tags.clear();
        self.all = no_ends();
        self.free = no_ends();
        self.used = 0;
    }
}
