//! Lists of names that know how often a name stands in them.
ghost use Rattle.std.specs.Prelude.{◌≡◌, ◌≤◌, ◌<◌, ◌∷◌, ◌++◌, [], length, OnOk, OnErr, IfOk};
ghost use Rattle.dx_base.specs.NameLists.{has, count, texts, times_of, IsCounted, IsRaised, IsSame};

use std::alloc::{AllocError, Global};
use std::collections::BTreeMap;
use std::marker::Model;

/// A list of at most so many names is gone over at each look; a longer one has a table.
const FEW: usize = 8;

/// A list of names, which contracts see as the list of their texts. How often a name stands in it is known by one look-up,
/// and no name is copied.
#[derive(Drop)]
pub struct Names<'a> {
    alloc: Global,
    all: Vec<&'a [u8]>,
    times: BTreeMap<&'a [u8], usize>,
}

impl<'a> Model for Names<'a> {
    ghost use Rattle.std.specs.Prelude.{◌<◌, List, ℕ, length};
    ghost use Rattle.dx_base.specs.NameLists.{texts, few, IsCounted};

    ghost Value = { List (List ℕ) };

    ghost view = { λ a. texts a.all.items };

    ghost invariant = { λ a. few < length a.all.items → IsCounted a.times (texts a.all.items) };
}

impl<'a> Names<'a> {
    /// No names, which take no memory.
    pub fn new(alloc: Global) -> Names<'a>
        ensures { result ≡ [] }
    {
        Names {
            alloc,
            all: Vec::new(alloc),
            times: BTreeMap::new(alloc),
        }
    }

    /// How often the name stands here.
    pub fn count(&self, name: &[u8]) -> usize
        ensures times { result ≡ count name.now self.now }
        ensures bound { result ≤ length self.now }
        ensures fits { result < 9223372036854775808 }
    {
        if self.all.len() <= FEW {
            count_in(&self.all, name)
        } else {
            times_in(&self.times, name)
        }
    }

    /// The name stands here.
    pub fn has(&self, name: &[u8]) -> bool
        ensures { result ≡ has self.now name.now }
    {
        self.count(name) > 0
    }

    /// One more name at the end. Where memory runs out the list stays as it was.
    pub fn push(&mut self, name: &'a [u8]) -> Result<(), AllocError>
        ensures ok { OnOk result (self.new ≡ self.old ++ name.now ∷ []) }
        ensures err { OnErr result (self.new ≡ self.old) }
    {
        if self.all.len() < FEW {
            self.all.push(name)?;
            return Ok(());
        }
        if self.all.len() == FEW {
            self.times = table_of(self.alloc, &self.all)?;
        }
        push_counted(&mut self.all, &mut self.times, name)
    }
}

// How often a name is among these, by going over them.
fn count_in(names: &[&[u8]], name: &[u8]) -> usize
    ensures { result ≡ count name.now (texts names.now) }
{
    names.iter().filter(|n| **n == name).count()
}

// What a table has under a name.
fn times_in(table: &BTreeMap<&[u8], usize>, name: &[u8]) -> usize
    ensures { result ≡ times_of table.now name.now }
{
    match table.get(name) {
        Some(times) => *times,
        None => 0,
    }
}

// Raises what the table has under a name by one.
fn count_once<'a>(table: &mut BTreeMap<&'a [u8], usize>, name: &'a [u8]) -> Result<(), AllocError>
    requires { times_of table.old name.now < 9223372036854775808 }
    ensures ok { OnOk result (IsRaised table.old name.now table.new) }
    ensures err { OnErr result (IsSame table.old table.new) }
{
    let times = times_in(table, name);
    table.insert(name, times + 1)?;
    Ok(())
}

// The table of these names.
fn table_of<'a>(alloc: Global, names: &[&'a [u8]]) -> Result<BTreeMap<&'a [u8], usize>, AllocError>
    ensures { IfOk result (λ table. IsCounted table (texts names.now)) }
{
    let mut table = BTreeMap::new(alloc);
    for name in names {
        count_once(&mut table, *name)?;
    }
    Ok(table)
}

// One more name at the end of a list that has a table.
fn push_counted<'a>(
    all: &mut Vec<&'a [u8]>,
    times: &mut BTreeMap<&'a [u8], usize>,
    name: &'a [u8],
) -> Result<(), AllocError>
    requires { IsCounted times.old (texts all.old.items) }
    ensures ok { OnOk result (texts all.new.items ≡ texts all.old.items ++ name.now ∷ []) }
    ensures err { OnErr result (texts all.new.items ≡ texts all.old.items) }
    ensures counted { IsCounted times.new (texts all.new.items) }
{
    all.push(name)?;
    match count_once(times, name) {
        Ok(()) => Ok(()),
        Err(e) => {
            all.pop();
            Err(e)
        }
    }
}
