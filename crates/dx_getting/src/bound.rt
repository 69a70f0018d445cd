//! The values of links by their terms.
ghost use Rattle.std.specs.Prelude.{◌≡◌, ◌<◌, ◌≤◌, ◌+◌, ◌-◌, ◌==◌, ◌&&◌, [], Some, None, MatchOption, OnOk, if◌then◌else◌};
ghost use Rattle.std.specs.List.{IsDistinct};
ghost use Rattle.std.specs.Map.{keys_of, lookup};
ghost use Rattle.dx_tags.specs.contracts.term.ValueTagPartialEq.TheImpl as tags;
ghost use Rattle.dx_getting.specs.Terms.{count_in};

use dx_objects::Object;
use dx_tags::{Tag, ValueTag};
use indexmap::IndexMap;
use std::alloc::{AllocError, Global};
use std::marker::Model;
use std::rc::Rc;

// A value of links, and how many of them hold it.
#[derive(Drop)]
struct Binding {
    value: Rc<Object>,
    links: usize,
}

/// What links hold, by the tags of their terms, so that a term is looked up in one step, however many links there are, and so
/// is whether the last link of a term goes. The terms of held values are below the tag from which on values are kept: those
/// need no look. Contracts see that tag, a list of pairs in which no tag stands twice, how many links hold each, and the room
/// for more terms.
#[derive(Drop)]
pub struct Bound {
    alloc: Global,
    from: Tag,
    table: IndexMap<ValueTag, Binding>,
}

impl Model for Bound {
    ghost use Rattle.indexmap.specs.IndexMap.{spare};
    ghost use Rattle.dx_getting.specs.Terms.{Table, bound_values, bound_counts, coded_table};

    ghost Value = { Table };

    ghost coded = { coded_table };

    ghost view = { λ b. record { from = b.from; pairs = bound_values b.table.entries; counts = bound_counts b.table.entries; room = spare b.table } };
}

impl Bound {
    /// No links, which takes no memory.
    pub fn new(alloc: Global) -> Bound
        ensures from { result.from ≡ 0 }
        ensures pairs { result.pairs ≡ [] }
        ensures counts { result.counts ≡ [] }
    {
        Bound {
            alloc,
            from: 0,
            table: IndexMap::new(alloc),
        }
    }

    /// The value that is kept under a tag, which is that of the links with this term, and none exactly where none is kept.
    pub fn get(&self, tag: ValueTag) -> Option<&Rc<Object>>
        ensures { MatchOption result (lookup (tags.ghosts.eq tag) self.now.pairs ≡ None) (λ o. lookup (tags.ghosts.eq tag) self.now.pairs ≡ Some o.now.value) }
    {
        match self.table.get(&tag) {
            Some(binding) => Some(&binding.value),
            None => None,
        }
    }

    /// The tag from which on values are kept.
    pub fn from(&self) -> Tag
        ensures { result ≡ self.now.from }
    {
        self.from
    }

    /// No values, and from which tag on they are kept. This takes no memory, and gives back what the values took.
    pub fn empty(&mut self, from: Tag)
        ensures from { self.new.from ≡ from }
        ensures pairs { self.new.pairs ≡ [] }
        ensures counts { self.new.counts ≡ [] }
    {
        self.from = from;
        self.table = IndexMap::new(self.alloc);
    }

    // How many links hold the value of a term.
    fn count(&self, tag: ValueTag) -> usize
        ensures { result ≡ count_in tag self.now.counts }
    {
        match self.table.get(&tag) {
            Some(binding) => binding.links,
            None => 0,
        }
    }

    /// Room for so many more terms. Where memory runs out the values stay.
    pub fn reserve(&mut self, terms: usize) -> Result<(), AllocError>
        ensures pairs { self.new.pairs ≡ self.old.pairs }
        ensures counts { self.new.counts ≡ self.old.counts }
        ensures from { self.new.from ≡ self.old.from }
        ensures room { OnOk result (terms ≤ self.new.room) }
        ensures kept { self.old.room ≤ self.new.room }
    {
        self.table.reserve(terms)
    }

    /// One link more holds a value under a tag, which comes in the place of what others hold there. This takes no memory.
    pub fn hold(&mut self, tag: ValueTag, value: Rc<Object>)
        requires room { 0 < self.old.room }
        requires few { 1 + count_in tag self.old.counts < 18446744073709551616 }
        ensures values { (t : ValueTag) → lookup (tags.ghosts.eq t) self.new.pairs ≡ (if tags.ghosts.eq tag t then Some value.value else lookup (tags.ghosts.eq t) self.old.pairs) }
        ensures counts { (t : ValueTag) → count_in t self.new.counts ≡ (if tags.ghosts.eq tag t then 1 + count_in tag self.old.counts else count_in t self.old.counts) }
        ensures once { IsDistinct tags.ghosts.eq (keys_of self.new.pairs) }
        ensures from { self.new.from ≡ self.old.from }
        ensures room { self.old.room ≤ self.new.room + 1 }
    {
        let links = self.count(tag) + 1;
        match self.table.insert(tag, Binding { value, links }) {
            Ok(_) => {}
            Err(_) => unreachable!(),
        }
    }

    // One link fewer holds a value that others hold too.
    fn leave(&mut self, tag: ValueTag)
        requires others { 1 < count_in tag self.old.counts }
        ensures values { (t : ValueTag) → lookup (tags.ghosts.eq t) self.new.pairs ≡ lookup (tags.ghosts.eq t) self.old.pairs }
        ensures counts { (t : ValueTag) → count_in t self.new.counts ≡ (if tags.ghosts.eq tag t then count_in tag self.old.counts - 1 else count_in t self.old.counts) }
        ensures once { IsDistinct tags.ghosts.eq (keys_of self.new.pairs) }
        ensures from { self.new.from ≡ self.old.from }
        ensures room { self.old.room ≤ self.new.room }
    {
        match self.table.get_mut(&tag) {
            Some(binding) => binding.links -= 1,
            None => unreachable!(),
        }
    }

    // No link holds a value under this tag.
    fn forget(&mut self, tag: ValueTag)
        ensures values { (t : ValueTag) → lookup (tags.ghosts.eq t) self.new.pairs ≡ (if tags.ghosts.eq tag t then None else lookup (tags.ghosts.eq t) self.old.pairs) }
        ensures counts { (t : ValueTag) → count_in t self.new.counts ≡ (if tags.ghosts.eq tag t then 0 else count_in t self.old.counts) }
        ensures once { IsDistinct tags.ghosts.eq (keys_of self.new.pairs) }
        ensures from { self.new.from ≡ self.old.from }
        ensures room { self.old.room ≤ self.new.room }
    {
        self.table.swap_remove(&tag);
    }

    /// One link fewer holds the value under a tag, which goes with the last one.
    pub fn release(&mut self, tag: ValueTag)
        ensures values { (t : ValueTag) → lookup (tags.ghosts.eq t) self.new.pairs ≡ (if tags.ghosts.eq tag t && (count_in tag self.old.counts - 1 == 0) then None else lookup (tags.ghosts.eq t) self.old.pairs) }
        ensures counts { (t : ValueTag) → count_in t self.new.counts ≡ (if tags.ghosts.eq tag t then count_in tag self.old.counts - 1 else count_in t self.old.counts) }
        ensures once { IsDistinct tags.ghosts.eq (keys_of self.new.pairs) }
        ensures from { self.new.from ≡ self.old.from }
        ensures room { self.old.room ≤ self.new.room }
    {
        if self.count(tag) > 1 {
            self.leave(tag);
        } else {
            self.forget(tag);
        }
    }
}
