//! Emptying: the cache and the terms are forgotten, and the values of links are held by their numbers.
ghost use Rattle.std.specs.Prelude.{◌≡◌, ◌<◌, ◌≤◌, ◌++◌, ◌∷◌, [], length, vec_len, vec_capacity};
ghost use Rattle.dx_objects.specs.Values.{value_at};
ghost use Rattle.dx_tags.specs.Closed.{heads_of};
ghost use Rattle.dx_tags.specs.HeldTerms.{held_terms};
ghost use Rattle.dx_links.specs.Denotes.{Around};
ghost use Rattle.dx_links.specs.Emptied.{values_held, all_held};
ghost use Rattle.dx_links.specs.LinkMap.{after};
ghost use Rattle.dx_getting.specs.declared.event.Event.TheVariants as shown;
ghost use Rattle.dx_getting.specs.Stands.{AreExact};
ghost use Rattle.dx_getting.specs.Emptied.{LinksAreRight};

use crate::bound::Bound;
use crate::event::Event;
use dx_cache::Cache;
use dx_links::{Changes, Links};
use dx_tags::Tags;

/// Makes the changes of links in their order, and empties: the links have the terms of held values then, and no values are kept
/// by terms. There is room for the changes and for the event. This takes no memory, and goes through the changes and what is
/// forgotten, but not through the links.
pub fn empty(
    links: &mut Links,
    bound: &mut Bound,
    tags: &mut Tags,
    cache: &mut Cache,
    events: &mut Vec<Event>,
    changes: Changes,
)
    requires spare { length changes ≤ links.old.spare }
    requires room { vec_len events.old < vec_capacity events.old }
    ensures links { links.new.links ≡ all_held (after links.old.links changes) }
    ensures held { links.new.held ≡ values_held (after links.old.links changes) }
    ensures terms { tags.new ≡ held_terms (length (after links.old.links changes)) }
    ensures exact { AreExact tags.new }
    ensures denote { (a : Around) → a.held ≡ value_at links.new.held → LinksAreRight a (heads_of tags.new) links.new.links }
    ensures from { bound.new.from ≡ length (after links.old.links changes) }
    ensures pairs { bound.new.pairs ≡ [] }
    ensures counts { bound.new.counts ≡ [] }
    ensures entries { cache.new.entries ≡ [] }
    ensures budget { cache.new.budget ≡ cache.old.budget }
    ensures events { events.new.items ≡ events.old.items ++ shown.Clear ∷ [] }
{
    links.empty(changes);
    let count = links.len() as u64;
    tags.empty(count);
    bound.empty(count);
    cache.clear();
    match events.push(Event::Clear) {
        Ok(()) => {}
        Err(_) => unreachable!(),
    }
}
