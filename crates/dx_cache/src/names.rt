//! The sites of slots, each with the ends of its chain. The table's key is the bytes of one of the site's slots, and that
//! slot knows their place there; each other slot of the site keeps its own. So a site goes in and comes out with no copy.

ghost use Rattle.std.specs.Prelude.{◌≡◌, ◌+◌, ◌≤◌, ◌<◌, ℕ, [], ◌∷◌, ◌++◌, List, Some, None, OnOk, OnErr, slice_get, slice_set, bytes_eq, vec_len, map};
ghost use Rattle.std.specs.Prelude.{if◌then◌else◌};
ghost use Rattle.std.specs.List.{IsDistinct};
ghost use Rattle.std.specs.Map.{lookup, keys_of};
ghost use Rattle.indexmap.specs.IndexMap.{index_map_len, spare, set_value_at};
ghost use Rattle.dx_cache.specs.declared.names.Name.TheVariants.{Own, Shared};
ghost use Rattle.dx_cache.specs.Held.{Removed, Holds, place_of, name_place};
ghost use Rattle.dx_cache.specs.Named.{Named, HasName, IsNamed, HasHeir, added_ends, given_ends, taken_ends};

use crate::chains::{Ends, no_ends};
use dx_base::Bytes;
use indexmap::IndexMap;
use std::alloc::{AllocError, Global};
use std::marker::Model;
use std::mem;

/// Where the bytes of a slot's site are.
#[derive(Drop)]
pub enum Name {
    Own(Bytes),
    Shared(usize),
}

/// What the table has of a site: the slot whose bytes are the key, and the ends of the chain.
#[derive(Clone, Copy)]
pub struct Group {
    pub holder: usize,
    pub ends: Ends,
}

/// The sites of slots.
#[derive(Drop)]
pub struct Names {
    table: IndexMap<Bytes, Group>,
    held: Vec<Option<Name>>,
}

impl Model for Names {
    ghost use Rattle.std.specs.Prelude.{map};
    ghost use Rattle.std.specs.Map.{keys_of};
    ghost use Rattle.indexmap.specs.IndexMap.{spare};
    ghost use Rattle.dx_cache.specs.Named.{Named};
    ghost use Rattle.dx_cache.specs.NamedCode.{coded_named};
    ghost use Rattle.dx_cache.specs.Held.{name_in, ends_in, IsHeld};

    ghost Value = { Named };

    ghost coded = { coded_named };

    ghost view = { λ a. record {
      names = map (name_in (keys_of a.table.entries)) a.held.items;
      ends = map ends_in a.table.entries;
      room = spare a.table;
    } };

    ghost invariant = { λ a. IsHeld a.held.items a.table.entries };
}

impl Names {
    /// No slots.
    pub fn new(alloc: Global) -> Names
        ensures names { result.names ≡ [] }
        ensures ends { result.ends ≡ [] }
    {
        Names {
            table: IndexMap::new(alloc),
            held: Vec::new(alloc),
        }
    }

    /// Makes room for one more site.
    pub fn reserve_one(&mut self) -> Result<(), AllocError>
        ensures names { self.new.names ≡ self.old.names }
        ensures ends { self.new.ends ≡ self.old.ends }
        ensures room { self.old.room ≤ self.new.room }
        ensures spare { OnOk result (0 < self.new.room) }
    {
        self.table.reserve(1)
    }

    /// One more slot, with no site.
    pub fn grow(&mut self) -> Result<(), AllocError>
        ensures ok { OnOk result (self.new.names ≡ self.old.names ++ None ∷ []) }
        ensures err { OnErr result (self.new.names ≡ self.old.names) }
        ensures ends { self.new.ends ≡ self.old.ends }
        ensures room { self.new.room ≡ self.old.room }
    {
        self.held.push(None)?;
        Ok(())
    }

    /// The ends of a site's chain.
    pub fn ends_of(&self, site: &Bytes) -> Option<Ends>
        ensures { result ≡ lookup (bytes_eq site.now) self.now.ends }
    {
        match self.table.get_index_of(site) {
            None => None,
            Some(k) => Some(self.table[k].ends),
        }
    }

    /// The ends of the chain of a slot's site.
    pub fn ends_at(&self, i: usize) -> Ends
        requires named { IsNamed self.now.names i }
        ensures ends { (site : List ℕ) → HasName self.now.names i site → lookup (bytes_eq site) self.now.ends ≡ Some result }
    {
        let k = self.place(i);
        self.table[k].ends
    }

    // The place in the table of a slot's site.
    fn place(&self, i: usize) -> usize
        requires named { IsNamed self.now.names i }
        ensures place { (site : List ℕ) → HasName self.now.names i site → slice_get (map (λ p. p.0) self.now.ends) result ≡ Some site }
    {
        match place_in(&self.table, &self.held, i) {
            None => unreachable!(),
            Some(k) => k,
        }
    }

    /// Sets the ends of the chain of a slot's site.
    pub fn set_ends(&mut self, i: usize, ends: Ends)
        requires named { IsNamed self.old.names i }
        ensures names { self.new.names ≡ self.old.names }
        ensures ends { (site other : List ℕ) → HasName self.old.names i site → lookup (bytes_eq other) self.new.ends ≡ given_ends site ends other (lookup (bytes_eq other) self.old.ends) }
        ensures room { self.new.room ≡ self.old.room }
    {
        let k = self.place(i);
        let holder = self.table[k].holder;
        self.table[k] = Group { holder, ends };
    }

    /// A slot gets a site.
    pub fn add(&mut self, i: usize, site: Bytes)
        requires spare { 0 < self.old.room }
        requires free { slice_get self.old.names i ≡ Some None }
        ensures names { self.new.names ≡ slice_set self.old.names i (Some site) }
        ensures ends { (other : List ℕ) → lookup (bytes_eq other) self.new.ends ≡ added_ends site other (lookup (bytes_eq other) self.old.ends) }
        ensures room { self.old.room ≤ self.new.room + 1 }
    {
        hold(&mut self.table, &mut self.held, i, site);
    }

    /// Takes a slot's site, where another slot of it is named if there is one.
    pub fn take(&mut self, i: usize, heir: Option<usize>) -> Bytes
        requires named { IsNamed self.old.names i }
        requires heir { HasHeir self.old.names i heir }
        ensures site { HasName self.old.names i result }
        ensures names { self.new.names ≡ slice_set self.old.names i None }
        ensures ends { (site other : List ℕ) → HasName self.old.names i site → lookup (bytes_eq other) self.new.ends ≡ taken_ends heir site other (lookup (bytes_eq other) self.old.ends) }
        ensures room { self.old.room ≤ self.new.room }
    {
        match lift(&mut self.held, i) {
            None => unreachable!(),
            Some(Name::Own(site)) => site,
            Some(Name::Shared(k)) => match heir {
                None => remove(&mut self.table, &mut self.held, k),
                Some(j) => inherit(&mut self.table, &mut self.held, k, j),
            },
        }
    }

    /// Forgets all slots.
    pub fn clear(&mut self)
        ensures names { self.new.names ≡ [] }
        ensures ends { self.new.ends ≡ [] }
    {
        self.table.clear();
        self.held.clear();
    }
}

// The place in the table of what a slot holds.
fn place_in(table: &IndexMap<Bytes, Group>, held: &Vec<Option<Name>>, i: usize) -> Option<usize>
    requires { i < vec_len held.now }
    ensures { result ≡ place_of (keys_of table.now.entries) (slice_get held.now.items i) }
{
    match &held[i] {
        None => None,
        Some(name) => place_of_name(table, name),
    }
}

// The place in the table of a name.
fn place_of_name(table: &IndexMap<Bytes, Group>, name: &Name) -> Option<usize>
    ensures { result ≡ name_place (keys_of table.now.entries) name.now }
{
    match name {
        Name::Shared(k) => Some(*k),
        Name::Own(site) => table.get_index_of(site),
    }
}

// Writes where the bytes of a slot's site are.
fn put(held: &mut Vec<Option<Name>>, i: usize, name: Name)
    requires { i < vec_len held.old }
    ensures { held.new.items ≡ slice_set held.old.items i (Some name) }
{
    held[i] = Some(name);
}

// Takes out what a slot holds.
fn lift(held: &mut Vec<Option<Name>>, i: usize) -> Option<Name>
    requires { i < vec_len held.old }
    ensures was { slice_get held.old.items i ≡ Some result }
    ensures held { held.new.items ≡ slice_set held.old.items i None }
{
    mem::replace(&mut held[i], None)
}

// A slot gets a site.
fn hold(table: &mut IndexMap<Bytes, Group>, held: &mut Vec<Option<Name>>, i: usize, site: Bytes)
    requires spare { 0 < spare table.old }
    requires within { i < vec_len held.old }
    ensures holds { Holds table.old.entries held.old.items i site (lookup (bytes_eq site) table.old.entries) table.new.entries held.new.items }
    ensures unique { IsDistinct bytes_eq (keys_of table.new.entries) }
    ensures room { spare table.old ≤ spare table.new + 1 }
{
    match table.get_index_of(&site) {
        Some(_) => put(held, i, Name::Own(site)),
        None => {
            let k = table.len();
            let group = Group {
                holder: i,
                ends: no_ends(),
            };
            match table.insert(site, group) {
                Ok(_) => {}
                Err(_) => unreachable!(),
            }
            put(held, i, Name::Shared(k));
        }
    }
}

// Takes out a site that no slot has any more.
fn remove(table: &mut IndexMap<Bytes, Group>, held: &mut Vec<Option<Name>>, k: usize) -> Bytes
    requires within { k < index_map_len table.old }
    requires holders { (m : ℕ) (p : _) → slice_get table.old.entries m ≡ Some p → p.1.holder < vec_len held.old }
    ensures removed { Removed table.old.entries held.old.items k result table.new.entries held.new.items }
    ensures lookups { (other : List ℕ) → lookup (bytes_eq other) table.new.entries ≡ (if bytes_eq result other then None else lookup (bytes_eq other) table.old.entries) }
    ensures unique { IsDistinct bytes_eq (keys_of table.new.entries) }
    ensures room { spare table.old ≤ spare table.new }
{
    match table.swap_remove_index(k) {
        None => unreachable!(),
        Some((site, _)) => {
            if k < table.len() {
                let holder = table[k].holder;
                put(held, holder, Name::Shared(k));
            }
            site
        }
    }
}

// Another slot becomes the holder of a site, and its own bytes go out.
fn inherit(
    table: &mut IndexMap<Bytes, Group>,
    held: &mut Vec<Option<Name>>,
    k: usize,
    heir: usize,
) -> Bytes
    requires within { k < index_map_len table.old }
    requires own { (site : List ℕ) × (slice_get held.old.items heir ≡ Some (Some (Own site))) }
    ensures site { slice_get held.old.items heir ≡ Some (Some (Own result)) }
    ensures held { held.new.items ≡ slice_set held.old.items heir (Some (Shared k)) }
    ensures entries { (p : _) → slice_get table.old.entries k ≡ Some p → table.new.entries ≡ set_value_at table.old.entries k (record { holder = heir; ends = p.1.ends }) }
    ensures room { spare table.new ≡ spare table.old }
{
    match mem::replace(&mut held[heir], Some(Name::Shared(k))) {
        Some(Name::Own(site)) => {
            let ends = table[k].ends;
            table[k] = Group { holder: heir, ends };
            site
        }
        _ => unreachable!(),
    }
}
