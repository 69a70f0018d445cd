//! The tags of links that are settled, and how these get tags of their own, and the values held a list of its own.
ghost use Rattle.std.specs.Prelude.{◌≡◌, ◌≤◌, false, IfOk, OnOk};
ghost use Rattle.dx_links.specs.Emptied.{all_held, values_held, held_tag};
ghost use Rattle.dx_links.specs.Settled.{links_seen, held_seen, room_seen, tag_seen};

use crate::held::Held;
use crate::slots::Slots;
use dx_objects::Outs;
use dx_tags::ValueTag;
use std::alloc::{AllocError, Global};

/// The tag of what stands at a place.
pub(crate) fn tag_of(settled: bool, i: usize, held: &Held) -> ValueTag
    ensures { result ≡ tag_seen settled i held.now.tag }
{
    if settled { tag_of_place(i) } else { held.tag() }
}

fn tag_of_place(i: usize) -> ValueTag
    ensures { result ≡ held_tag i }
{
    ValueTag {
        tag: i as u64,
        result: 0,
    }
}

/// Links that are settled get the tags of their places and the values held as their own, before they change. Where memory runs
/// out they stay settled.
pub(crate) fn unsettle(
    alloc: Global,
    slots: &mut Slots,
    held: &mut Outs,
    settled: &mut bool,
) -> Result<(), AllocError>
    ensures links { links_seen settled.new slots.new.links ≡ links_seen settled.old slots.old.links }
    ensures held { held_seen settled.new slots.new.links held.new ≡ held_seen settled.old slots.old.links held.old }
    ensures room { OnOk result (slots.old.room ≤ room_seen settled.new slots.new.room) }
    ensures kept { room_seen settled.old slots.old.room ≤ room_seen settled.new slots.new.room }
{
    if *settled {
        *held = values_of(alloc, slots)?;
        tag_by_places(slots);
        *settled = false;
    }
    Ok(())
}

// The values of the links, in order, which are shared.
fn values_of(alloc: Global, slots: &Slots) -> Result<Outs, AllocError>
    ensures { IfOk result (λ held. held ≡ values_held slots.now.links) }
{
    let mut held = Outs::with_capacity(alloc, slots.len())?;
    for k in 0..slots.len() {
        let (_, link) = slots.at(k);
        let value = link.value().clone()?;
        held.push(Some(value))?;
    }
    Ok(held)
}

// Each link gets the tag of its place.
fn tag_by_places(slots: &mut Slots)
    ensures links { slots.new.links ≡ all_held slots.old.links }
    ensures room { slots.old.room ≤ slots.new.room }
{
    for k in 0..slots.len() {
        slots.set_tag(k, tag_of_place(k));
    }
}
