//! The definitions of the top level, and under each name the positions of its definitions.
ghost use Rattle.std.specs.Prelude.{◌≡◌, ◌<◌, ◌≤◌, ◌∷◌, ◌++◌, [], ℕ, List, Some, map, slice_get, length, nat_lt, true, false, OnOk, OnErr, IfSome, IsOk};
ghost use Rattle.std.specs.List.Sorted.{IsNonDecreasing, IsPartitionPoint};
ghost use Rattle.dx_base.specs.NameLists.{has};
ghost use Rattle.dx_definitions.specs.Constants.{StandsIn, IsDefined, constant_at};
ghost use Rattle.dx_definitions.specs.TopTexts.{TopText, definition, last_named};
ghost use Rattle.dx_definitions.specs.Index.{text_of, index_of, with_position, noted, ArePositions, Indexes, IsIndexed, IsLastFrom};

use dx_ast::{Assign, Const, Expr};
use dx_base::Bytes;
use indexmap::IndexMap;
use std::alloc::{AllocError, Global};
use std::marker::Model;

/// The definitions of the top level in the order in which they joined, which contracts see as a list with room for more.
#[derive(Drop)]
pub struct Definitions {
    list: Vec<Assign>,
    /// Under each name the positions of its definitions, in ascending order, as far as they are noted.
    positions: IndexMap<Vec<u8>, Vec<usize>>,
    /// How many definitions are noted: all, unless memory ran out when the last ones joined.
    noted: usize,
    /// For each definition the position of the one in which the constant stands that it assigns, where that is seen from assignments
    /// alone; it lacks the last ones where memory ran out when they joined.
    constants: Vec<Option<usize>>,
}

impl Model for Definitions {
    ghost use Rattle.dx_definitions.specs.Held.{Held, coded_held};

    ghost Value = { Held };

    ghost coded = { coded_held };

    ghost use Rattle.std.specs.Prelude.{map, length, ◌-◌, vec_capacity};
    ghost use Rattle.dx_definitions.specs.Index.{text_of, index_of, IsIndexed};
    ghost use Rattle.dx_definitions.specs.Constants.{AreNoted};

    ghost view = { λ d. record { items = d.list.items; room = vec_capacity d.list - length d.list.items } };

    ghost invariant = { λ d. IsIndexed d.noted (index_of d.positions) (map text_of d.list.items) × AreNoted (map text_of d.list.items) d.constants.items };
}

fn is_one(names: &[Bytes]) -> bool
    ensures { result ≡ true → (name : List ℕ) × (names.now ≡ name ∷ []) }
{
    match names {
        [_] => true,
        _ => false,
    }
}

fn noted_at(constants: &[Option<usize>], i: usize) -> Option<usize>
    ensures { (j : ℕ) → result ≡ Some j → slice_get constants.now i ≡ Some (Some j) }
{
    match constants.get(i) {
        Some(Some(j)) => Some(*j),
        _ => None,
    }
}

fn has_text(names: &[Bytes], name: &[u8]) -> bool
    ensures { result ≡ has names.now name.now }
{
    for n in names {
        if n.bytes() == name {
            return true;
        }
    }
    false
}

/// How many of some ascending positions are before a position.
fn count_before(positions: &[usize], position: usize) -> usize
    requires { IsNonDecreasing positions.now }
    ensures bound { result ≤ length positions.now }
    ensures parts { IsPartitionPoint (λ p. nat_lt p position ≡ true) (λ p. nat_lt p position ≡ false) positions.now result }
{
    // (most names are looked up from behind all definitions)
    let count = positions.len();
    if count > 0 && positions[count - 1] < position {
        return count;
    }
    positions.partition_point(
        |p: &usize| -> bool
            ensures { result ≡ nat_lt p.now position }
        { *p < position },
    )
}

/// The last of the definitions before a position that has this target. All of those are among the positions, which ascend; but
/// where memory ran out once, a position can be that of another definition.
fn last_named(
    definitions: &[Assign],
    positions: &[usize],
    position: usize,
    name: &[u8],
) -> Option<usize>
    requires { ArePositions positions.now (map text_of definitions.now) name.now }
    ensures last { result ≡ last_named (map text_of definitions.now) position name.now }
    ensures below { IfSome result (λ i. i < length definitions.now) }
{
    let mut left = count_before(positions, position);
    while left > 0 {
        left -= 1;
        let i = positions[left];
        if let Some(a) = definitions.get(i) {
            if has_text(a.targets.as_slice(), name) {
                return Some(i);
            }
        }
    }
    None
}

/// A name is defined at a position behind all definitions.
fn note(
    alloc: Global,
    positions: &mut IndexMap<Vec<u8>, Vec<usize>>,
    name: &[u8],
    position: usize,
) -> Result<(), AllocError>
    ensures ok { OnOk result (index_of positions.new ≡ with_position (index_of positions.old) name.now position) }
    ensures err { OnErr result (index_of positions.new ≡ index_of positions.old) }
{
    match positions.get_mut(name) {
        Some(list) => {
            list.push(position)?;
            Ok(())
        }
        None => note_first(alloc, positions, name, position),
    }
}

fn note_first(
    alloc: Global,
    positions: &mut IndexMap<Vec<u8>, Vec<usize>>,
    name: &[u8],
    position: usize,
) -> Result<(), AllocError>
    requires { index_of positions.old name.now ≡ [] }
    ensures ok { OnOk result (index_of positions.new ≡ with_position (index_of positions.old) name.now position) }
    ensures err { OnErr result (index_of positions.new ≡ index_of positions.old) }
{
    let key = Vec::from_slice(alloc, name)?;
    let mut list = Vec::new(alloc);
    list.push(position)?;
    positions.insert(key, list)?;
    Ok(())
}

fn note_all(
    alloc: Global,
    positions: &mut IndexMap<Vec<u8>, Vec<usize>>,
    names: &[Bytes],
    position: usize,
) -> Result<(), AllocError>
    ensures ok { OnOk result (index_of positions.new ≡ noted (index_of positions.old) names.now position) }
    ensures keeps { (defs : List TopText) → length defs ≡ position → Indexes (index_of positions.old) defs → Indexes (index_of positions.new) defs }
{
    for n in names {
        note(alloc, positions, n.bytes(), position)?;
    }
    Ok(())
}

/// The last definition before a position that has this target, and isn't among the first so many.
fn last_from(definitions: &[Assign], from: usize, position: usize, name: &[u8]) -> Option<usize>
    requires { from ≤ position }
    ensures last { IsLastFrom (map text_of definitions.now) from position name.now result }
    ensures below { IfSome result (λ i. i < length definitions.now) }
{
    let mut left = position;
    while left > from {
        left -= 1;
        if let Some(a) = definitions.get(left) {
            if has_text(a.targets.as_slice(), name) {
                return Some(left);
            }
        }
    }
    None
}

/// The last definition before a position of those that are noted.
fn last_noted(
    definitions: &[Assign],
    positions: &IndexMap<Vec<u8>, Vec<usize>>,
    noted: usize,
    position: usize,
    name: &[u8],
) -> Option<usize>
    requires indexed { IsIndexed noted (index_of positions.now) (map text_of definitions.now) }
    requires within { position ≤ noted }
    ensures last { result ≡ last_named (map text_of definitions.now) position name.now }
    ensures below { IfSome result (λ i. i < length definitions.now) }
{
    match positions.get(name) {
        None => None,
        Some(positions) => last_named(&definitions[..noted], positions, position, name),
    }
}

/// The definition right before a position, if it has this target: most names are used right behind their definition.
fn right_before(definitions: &[Assign], position: usize, name: &[u8]) -> Option<usize>
    ensures last { IfSome result (λ i. Some i ≡ last_named (map text_of definitions.now) position name.now) }
    ensures below { IfSome result (λ i. i < length definitions.now) }
{
    if position == 0 {
        return None;
    }
    let i = position - 1;
    if let Some(a) = definitions.get(i) {
        if has_text(a.targets.as_slice(), name) {
            return Some(i);
        }
    }
    None
}

/// Notes the definitions that aren't noted yet, and answers how many are. Where memory runs out some are left.
fn note_new(
    alloc: Global,
    definitions: &[Assign],
    positions: &mut IndexMap<Vec<u8>, Vec<usize>>,
    noted: usize,
) -> usize
    requires { IsIndexed noted (index_of positions.old) (map text_of definitions.now) }
    ensures { IsIndexed result (index_of positions.new) (map text_of definitions.now) }
{
    let mut noted = noted;
    while noted < definitions.len() {
        let a = &definitions[noted];
        match note_all(alloc, positions, a.targets.as_slice(), noted) {
            Ok(()) => noted += 1,
            Err(_) => return noted,
        }
    }
    noted
}

impl Definitions {
    /// No definitions, which take no memory.
    pub fn new(alloc: Global) -> Definitions
        ensures { result.items ≡ [] }
    {
        Definitions {
            list: Vec::new(alloc),
            positions: IndexMap::new(alloc),
            noted: 0,
            constants: Vec::new(alloc),
        }
    }

    pub fn as_slice(&self) -> &[Assign]
        ensures { result.now ≡ self.now.items }
    {
        self.list.as_slice()
    }

    /// Makes room for one more definition.
    pub fn reserve(&mut self) -> Result<(), AllocError>
        ensures items { self.new.items ≡ self.old.items }
        ensures room { OnOk result (0 < self.new.room) }
    {
        self.list.reserve(1)
    }

    /// Puts a definition at the end. Where memory runs out the list stays as it was, and with room it doesn't.
    pub fn push(&mut self, alloc: Global, a: Assign) -> Result<(), AllocError>
        ensures ok { OnOk result (self.new.items ≡ self.old.items ++ a ∷ []) }
        ensures err { OnErr result (self.new.items ≡ self.old.items) }
        ensures room { 0 < self.old.room → IsOk result }
    {
        self.list.push(a)?;
        self.noted = note_new(alloc, &self.list, &mut self.positions, self.noted);
        self.note_constant();
        Ok(())
    }

    // Notes where the constant stands that the first definition assigns for which that isn't noted.
    fn note_constant(&mut self)
        ensures { self.new ≡ self.old }
    {
        let position = self.constants.len();
        if position < self.list.len() {
            let constant = self.constant_position(position);
            match self.constants.push(constant) {
                Ok(()) => {}
                Err(_) => {}
            }
        }
    }

    // The position where the constant stands that the definition at a position assigns, as far as that is noted for those before it.
    fn constant_position(&self, position: usize) -> Option<usize>
        requires { position < length self.now.items }
        ensures { (j : ℕ) → result ≡ Some j → StandsIn (map text_of self.now.items) position j }
    {
        let a = self.at(position);
        if !is_one(a.targets.as_slice()) {
            return None;
        }
        match &a.value {
            Expr::Constant(_) => Some(position),
            Expr::Name(name) => {
                let named = self.last_before(position, name.bytes())?;
                self.noted_constant(named)
            }
            _ => None,
        }
    }

    // The position that is noted for the constant of a definition.
    fn noted_constant(&self, i: usize) -> Option<usize>
        ensures { (j : ℕ) → result ≡ Some j → StandsIn (map text_of self.now.items) i j }
    {
        noted_at(&self.constants, i)
    }

    // Definition number i.
    fn at(&self, i: usize) -> &Assign
        requires { i < length self.now.items }
        ensures { text_of result.now ≡ definition (map text_of self.now.items) i }
    {
        &self.as_slice()[i]
    }

    /// The position of the last definition of a name before a position.
    pub fn last_before(&self, position: usize, name: &[u8]) -> Option<usize>
        ensures last { result ≡ last_named (map text_of self.now.items) position name.now }
        ensures below { IfSome result (λ i. i < length self.now.items) }
    {
        if let Some(i) = right_before(&self.list, position, name) {
            return Some(i);
        }
        if position <= self.noted {
            return last_noted(&self.list, &self.positions, self.noted, position, name);
        }
        match last_from(&self.list, self.noted, position, name) {
            Some(i) => Some(i),
            None => last_noted(&self.list, &self.positions, self.noted, self.noted, name),
        }
    }

    /// The constant that a name means at a position, where that is seen at once: its last definition before the position assigns it to
    /// this name alone, as it stands or by a name that means it so. None where it is anything else.
    pub fn constant_before(&self, position: usize, name: &[u8]) -> Option<&Const>
        ensures means { IfSome result (λ c. constant_at (map text_of self.now.items) position name.now ≡ Some c.now) }
        ensures defined { IfSome result (λ c. IsDefined (map text_of self.now.items) c.now) }
    {
        let i = self.last_before(position, name)?;
        let j = self.noted_constant(i)?;
        match &self.at(j).value {
            Expr::Constant(c) => Some(c),
            _ => None,
        }
    }
}
