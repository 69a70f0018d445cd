//! Hits, and results that are kept.
ghost use Rattle.std.specs.Prelude.{◌≡◌, ◌<◌, ◌≤◌, ◌++◌, ◌∷◌, [], None, map, length, true, is_some, nat_eq, OnOk, vec_len, vec_capacity};
ghost use Rattle.std.specs.Map.{lookup};
ghost use Rattle.dx_cache.specs.Cached as kept;
ghost use Rattle.dx_cache.specs.Cached.{IsPartOf};
ghost use Rattle.dx_cache.specs.declared.entry.Entry.{Entry};
ghost use Rattle.dx_getting.specs.declared.event.Event.TheVariants as shown;
ghost use Rattle.dx_getting.specs.Steps.{Hits, Keeps, Stores};

use crate::event::Event;
use crate::scene::Called;
use crate::size::size_of;
use crate::work::Work;
use dx_base::Bytes;
use dx_cache::{Cache, Entry};
use dx_objects::Outs;
use dx_tags::Tag;
use std::alloc::{AllocError, Global};

// One more event, for which there is room.
fn note(events: &mut Vec<Event>, event: Event)
    requires { vec_len events.old < vec_capacity events.old }
    ensures { events.new.items ≡ events.old.items ++ event ∷ [] }
{
    match events.push(event) {
        Ok(()) => {}
        Err(_) => unreachable!(),
    }
}

/// One more event, where there is memory.
pub(crate) fn tell(events: &mut Vec<Event>, event: Event) -> Result<(), AllocError>
    ensures { OnOk result (events.new.items ≡ events.old.items ++ event ∷ []) }
{
    events.push(event)?;
    Ok(())
}

/// Takes the results of an entry, which moves behind all others.
pub(crate) fn hit(alloc: Global, tag: Tag, site: Bytes, work: &mut Work) -> Result<(), AllocError>
    requires found { is_some (kept.find tag work.old.cache.entries) ≡ true }
    requires new { lookup (nat_eq tag) work.old.known.calls ≡ None }
    ensures budget { work.new.cache.budget ≡ work.old.cache.budget }
    ensures hits { Hits tag site result work.old work.new }
{
    let outs = match work.cache.outs(tag) {
        None => unreachable!(),
        Some(outs) => outs.copy(alloc)?,
    };
    work.known.reserve_one()?;
    work.events.reserve(1)?;
    work.cache.get(tag);
    work.known.learn(tag, outs);
    note(&mut work.events, Event::Hit(site));
    Ok(())
}

/// The site of an entry whose results go out.
fn site_of(entry: Entry) -> Bytes
    ensures { result ≡ entry.site }
{
    entry.site
}

/// Drops what goes out before an entry of this site, attribute and size is kept.
fn drop_for(
    site: &Bytes,
    attribute: u8,
    size: u64,
    cache: &mut Cache,
    events: &mut Vec<Event>,
) -> Result<(), AllocError>
    ensures budget { cache.new.budget ≡ cache.old.budget }
    ensures room { cache.old.room ≤ cache.new.room }
    ensures part { IsPartOf cache.new.entries cache.old.entries }
    ensures left { OnOk result (cache.new.entries ≡ kept.left_for site.now attribute size cache.old.budget cache.old.entries) }
    ensures none { OnOk result (kept.next_place site.now attribute size cache.new.budget cache.new.entries ≡ None) }
    ensures drops { OnOk result (events.new.items ≡ events.old.items ++ map (λ (x : Entry). shown.Drop x.site) (kept.dropped_for site.now attribute size cache.old.budget cache.old.entries)) }
{
    'drops: loop {
        match cache.make_room(site, attribute, size) {
            None => return Ok(()),
            Some(entry) => tell(events, Event::Drop(site_of(entry)))?,
        }
    }
}

/// Keeps the results of a call as its attribute says.
pub(crate) fn keep(
    alloc: Global,
    tag: Tag,
    called: Called,
    outs: Outs,
    work: &mut Work,
) -> Result<(), AllocError>
    requires absent { kept.find tag work.old.cache.entries ≡ None }
    requires few { length outs ≤ 64 }
    requires attribute { called.attribute ≤ 2 }
    requires site { ¬ (called.site ≡ []) }
    ensures budget { work.new.cache.budget ≡ work.old.cache.budget }
    ensures known { work.new.known.calls ≡ work.old.known.calls }
    ensures stores { Stores tag work.old.cache.entries work.new.cache.entries }
    ensures keeps { Keeps tag called.site called.attribute outs result work.old work.new }
{
    let size = size_of(&outs);
    let attribute = called.attribute;
    work.cache.reserve_one()?;
    drop_for(
        &called.site,
        attribute,
        size,
        &mut work.cache,
        &mut work.events,
    )?;
    if attribute == 0 || size > work.cache.budget() {
        return Ok(());
    }
    let told = Bytes::copy_of(alloc, called.site.bytes())?;
    tell(&mut work.events, Event::Keep(told, size))?;
    work.cache.store(Entry {
        tag,
        site: called.site,
        attribute,
        size,
        outs,
    });
    Ok(())
}
