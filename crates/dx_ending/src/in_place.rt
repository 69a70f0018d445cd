//! Links that are changed where they are, with the values of links by their terms.
ghost use Rattle.std.specs.Prelude.{◌≡◌, ◌+◌, ◌<◌, ◌≤◌, ◌∷◌, [], Some, IfOk, if◌then◌else◌};
ghost use Rattle.std.specs.List.{IsDistinct};
ghost use Rattle.std.specs.List.Sorted.{IsStrictlySortedBy};
ghost use Rattle.std.specs.Map.{keys_of, lookup};
ghost use Rattle.dx_tags.specs.declared.term.ValueTag.{ValueTag};
ghost use Rattle.dx_tags.specs.contracts.term.ValueTagPartialEq.TheImpl as tags;
ghost use Rattle.dx_links.specs.LinkMap.{key_cmp, after, held_at, put_at};
ghost use Rattle.dx_getting.specs.Terms.{count_in};
ghost use Rattle.dx_getting.specs.Bound.{IsBound};
ghost use Rattle.dx_ending.specs.InPlace.{HasRoom, IsReady, IsShared, AreShared, IsReleased, ComeFrom, changes_in, held_with, found_with};

use dx_getting::Bound;
use dx_links::{Change, Changes, Held, Key, Links};
use dx_objects::Object;
use dx_tags::ValueTag;
use std::alloc::{AllocError, Global};
use std::rc::Rc;

/// A change, with what it sets once more for the values by their terms.
#[derive(Drop)]
pub struct Ready {
    pub change: Change,
    pub value: Option<Rc<Object>>,
}

/// Changes that are ready to be made.
#[derive(Drop)]
pub struct InPlace {
    pub changes: Vec<Ready>,
}

// What a change sets, once more.
fn shared(held: &Option<Held>) -> Result<Option<Rc<Object>>, AllocError>
    ensures { IfOk result (λ value. IsShared held.now value) }
{
    match held {
        None => Ok(None),
        Some(held) => Ok(Some(held.value().clone()?)),
    }
}

// Each change with what it sets once more.
fn all_shared(alloc: Global, changes: Changes) -> Result<Vec<Ready>, AllocError>
    ensures changes { IfOk result (λ ready. changes_in ready.items ≡ changes) }
    ensures shared { IfOk result (λ ready. AreShared ready.items) }
{
    let mut ready = Vec::with_capacity(alloc, changes.len())?;
    for change in changes.into_vec() {
        let value = shared(&change.held)?;
        ready.push(Ready { change, value })?;
    }
    Ok(ready)
}

/// Makes room for the changes. No link and no value changes yet.
pub fn prepare_in_place(
    alloc: Global,
    links: &mut Links,
    bound: &mut Bound,
    changes: Changes,
) -> Result<InPlace, AllocError>
    ensures links { links.new.links ≡ links.old.links }
    ensures pairs { bound.new.pairs ≡ bound.old.pairs }
    ensures counts { bound.new.counts ≡ bound.old.counts }
    ensures changes { IfOk result (λ ready. changes_in ready.changes.items ≡ changes) }
    ensures ready { IfOk result (λ ready. IsReady links.new bound.new ready.changes.items) }
    ensures held { links.new.held ≡ links.old.held }
    ensures from { bound.new.from ≡ bound.old.from }
{
    links.reserve(changes.len())?;
    bound.reserve(changes.len())?;
    let changes = all_shared(alloc, changes)?;
    Ok(InPlace { changes })
}

// What a key holds is counted no more.
fn release_old(links: &Links, bound: &mut Bound, key: &Key)
    requires bound { IsBound links.now.links bound.old }
    ensures bound { IsReleased links.now.links (held_at key.now links.now.links) bound.new }
    ensures values { ComeFrom [] bound.old.pairs bound.new.pairs }
    ensures from { bound.new.from ≡ bound.old.from }
    ensures room { bound.old.room ≤ bound.new.room }
{
    if let Some(held) = links.get(key) {
        bound.release(held.tag);
    }
}

// One link more holds a value under a tag, which is kept from the tag on from which values are.
fn hold_from(bound: &mut Bound, tag: ValueTag, value: Rc<Object>)
    requires once { IsDistinct tags.ghosts.eq (keys_of bound.old.pairs) }
    requires room { 0 < bound.old.room }
    requires few { 1 + count_in tag bound.old.counts < 18446744073709551616 }
    ensures once { IsDistinct tags.ghosts.eq (keys_of bound.new.pairs) }
    ensures counts { (t : ValueTag) → bound.old.from ≤ t.tag → count_in t bound.new.counts ≡ (if tags.ghosts.eq tag t then 1 + count_in tag bound.old.counts else count_in t bound.old.counts) }
    ensures values { (t : ValueTag) → bound.old.from ≤ t.tag → lookup (tags.ghosts.eq t) bound.new.pairs ≡ (if tags.ghosts.eq tag t then Some value.value else lookup (tags.ghosts.eq t) bound.old.pairs) }
    ensures counts_below { (t : ValueTag) → t.tag < bound.old.from → count_in t bound.new.counts ≡ count_in t bound.old.counts }
    ensures values_below { (t : ValueTag) → t.tag < bound.old.from → lookup (tags.ghosts.eq t) bound.new.pairs ≡ lookup (tags.ghosts.eq t) bound.old.pairs }
    ensures from { bound.new.from ≡ bound.old.from }
    ensures room { bound.old.room ≤ bound.new.room + 1 }
{
    if tag.tag >= bound.from() {
        bound.hold(tag, value);
    }
}

// What a key is to hold is counted.
fn hold_new(bound: &mut Bound, held: &Option<Held>, value: Option<Rc<Object>>)
    requires once { IsDistinct tags.ghosts.eq (keys_of bound.old.pairs) }
    requires room { 0 < bound.old.room }
    requires few { (t : ValueTag) → 1 + count_in t bound.old.counts < 18446744073709551616 }
    requires shared { IsShared held.now value }
    ensures once { IsDistinct tags.ghosts.eq (keys_of bound.new.pairs) }
    ensures counts { (t : ValueTag) → bound.old.from ≤ t.tag → count_in t bound.new.counts ≡ held_with t held.now + count_in t bound.old.counts }
    ensures values { (t : ValueTag) → bound.old.from ≤ t.tag → lookup (tags.ghosts.eq t) bound.new.pairs ≡ found_with t held.now (lookup (tags.ghosts.eq t) bound.old.pairs) }
    ensures counts_below { (t : ValueTag) → t.tag < bound.old.from → count_in t bound.new.counts ≡ count_in t bound.old.counts }
    ensures values_below { (t : ValueTag) → t.tag < bound.old.from → lookup (tags.ghosts.eq t) bound.new.pairs ≡ lookup (tags.ghosts.eq t) bound.old.pairs }
    ensures from { bound.new.from ≡ bound.old.from }
    ensures room { bound.old.room ≤ bound.new.room + 1 }
{
    if let (Some(held), Some(value)) = (held, value) {
        hold_from(bound, held.tag(), value);
    }
}

// Makes a change, so that the values are those of the new links.
fn change_one(links: &mut Links, bound: &mut Bound, ready: Ready)
    requires bound { IsBound links.old.links bound.old }
    requires room { HasRoom links.old bound.old 1 }
    requires shared { IsShared ready.change.held ready.value }
    ensures links { links.new.links ≡ put_at links.old.links ready.change.key ready.change.held }
    ensures bound { IsBound links.new.links bound.new }
    ensures values { ComeFrom (ready.change ∷ []) bound.old.pairs bound.new.pairs }
    ensures sorted { IsStrictlySortedBy key_cmp (keys_of links.new.links) }
    ensures held { links.new.held ≡ links.old.held }
    ensures from { bound.new.from ≡ bound.old.from }
    ensures room { links.old.room ≤ links.new.room + 1 }
    ensures values_room { bound.old.room ≤ bound.new.room + 1 }
{
    let Ready { change, value } = ready;
    release_old(links, bound, &change.key);
    hold_new(bound, &change.held, value);
    links.put(change);
}

/// Makes the changes in their order, so that the values are those of the new links. This takes no memory, and goes through the
/// changes and not through the values of all links.
pub fn change_in_place(links: &mut Links, bound: &mut Bound, ready: InPlace)
    requires bound { IsBound links.old.links bound.old }
    requires ready { IsReady links.old bound.old ready.changes.items }
    ensures links { links.new.links ≡ after links.old.links (changes_in ready.changes.items) }
    ensures bound { IsBound links.new.links bound.new }
    ensures values { ComeFrom (changes_in ready.changes.items) bound.old.pairs bound.new.pairs }
    ensures held { links.new.held ≡ links.old.held }
    ensures from { bound.new.from ≡ bound.old.from }
{
    for change in ready.changes {
        change_one(links, bound, change);
    }
}
