//! The slots of a cache, and what is done to them.

ghost use Rattle.std.specs.Prelude.{◌≡◌, ◌∷◌, ◌++◌, ◌<◌, ◌+◌, None, Some, [], OnOk, OnErr, slice_get, slice_set, vec_len, bytes_eq};
ghost use Rattle.std.specs.Map.{lookup};
ghost use Rattle.dx_cache.specs.Tied.{next_slot, tag_in};

use crate::chains::{Link, alone};
use crate::names::Names;
use dx_base::Bytes;
use dx_objects::Outs;
use std::alloc::AllocError;
use std::mem;

/// What a slot has of an entry, beside its site.
#[derive(Drop)]
pub struct Body {
    pub tag: u64,
    pub attribute: u8,
    pub size: u64,
    pub outs: Outs,
}

// Takes out what a slot has.
pub(crate) fn lift(slots: &mut Vec<Option<Body>>, i: usize) -> Option<Body>
    requires { i < vec_len slots.old }
    ensures was { slice_get slots.old.items i ≡ Some result }
    ensures slots { slots.new.items ≡ slice_set slots.old.items i None }
{
    mem::replace(&mut slots[i], None)
}

// Puts a body into a slot.
pub(crate) fn fill(slots: &mut Vec<Option<Body>>, i: usize, body: Body)
    requires { i < vec_len slots.old }
    ensures { slots.new.items ≡ slice_set slots.old.items i (Some body) }
{
    slots[i] = Some(body);
}

// The tag of what a slot has.
pub(crate) fn tag_of(slots: &[Option<Body>], i: usize) -> Option<u64>
    ensures { result ≡ tag_in (slice_get slots.now i) }
{
    match slots.get(i) {
        None => None,
        Some(slot) => match slot {
            None => None,
            Some(body) => Some(body.tag),
        },
    }
}

// The next slot that is taken out.
pub(crate) fn next(
    names: &Names,
    first: Option<usize>,
    used: u64,
    budget: u64,
    site: &Bytes,
    attribute: u8,
    size: u64,
) -> Option<usize>
    ensures { result ≡ next_slot (lookup (bytes_eq site.now) names.now.ends) attribute size budget used first }
{
    if attribute == 0 {
        return None;
    }
    if attribute == 2 {
        if let Some(ends) = names.ends_of(site) {
            if let Some(i) = ends.first {
                return Some(i);
            }
        }
    }
    if size <= budget && used > budget - size {
        first
    } else {
        None
    }
}

// One more slot, which is free. Either all grow or none.
pub(crate) fn grow(
    slots: &mut Vec<Option<Body>>,
    links: &mut Vec<Link>,
    own: &mut Vec<Link>,
    names: &mut Names,
) -> Result<(), AllocError>
    ensures ok { OnOk result (slots.new.items ≡ slots.old.items ++ None ∷ []) }
    ensures links_ok { OnOk result (links.new.items ≡ links.old.items ++ record { before = None; after = None } ∷ []) }
    ensures own_ok { OnOk result (own.new.items ≡ own.old.items ++ record { before = None; after = None } ∷ []) }
    ensures names_ok { OnOk result (names.new.names ≡ names.old.names ++ None ∷ []) }
    ensures err { OnErr result (slots.new.items ≡ slots.old.items) }
    ensures links_err { OnErr result (links.new.items ≡ links.old.items) }
    ensures own_err { OnErr result (own.new.items ≡ own.old.items) }
    ensures names_err { OnErr result (names.new.names ≡ names.old.names) }
    ensures ends { names.new.ends ≡ names.old.ends }
    ensures room { names.new.room ≡ names.old.room }
{
    slots.reserve(1)?;
    links.reserve(1)?;
    own.reserve(1)?;
    names.grow()?;
    match slots.push(None) {
        Ok(()) => {}
        Err(_) => unreachable!(),
    }
    match links.push(alone()) {
        Ok(()) => {}
        Err(_) => unreachable!(),
    }
    match own.push(alone()) {
        Ok(()) => {}
        Err(_) => unreachable!(),
    }
    Ok(())
}
