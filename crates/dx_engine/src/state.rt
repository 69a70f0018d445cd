//! What is kept between executions.
ghost use Rattle.std.specs.Prelude.{◌≡◌, ◌≤◌, []};
ghost use Rattle.dx_cache.specs.Cached.{total};
ghost use Rattle.dx_engine.specs.Keeping.{IsSoundState, StateFits, kept_of};
ghost use Rattle.dx_performing.specs.Course.{Fixed};
ghost use Rattle.dx_performing.specs.Kept.{new as none_kept};

use dx_cache::Cache;
use dx_demand::Seen;
use dx_getting::{Bound, Event, Known, Work};
use dx_links::Links;
use dx_looking::{Progress, ToldValues};
use dx_tags::{Tags, Written};
use std::alloc::Global;

/// What is kept: the terms that were formed, the cache and the events of the last execution, with all that it saw on its way, which
/// counts for nothing; the links, with the values that were held at the last emptying, and the values of links by their terms; and the
/// files that were written.
pub struct State {
    pub(crate) at: Progress,
    pub(crate) links: Links,
    pub(crate) bound: Bound,
    pub(crate) written: Written,
}

// A function of its own, so that whoever drops a state doesn't prove again how each of its parts is dropped.
impl Drop for State {
    fn drop(self) {
        let State {
            at: _,
            links: _,
            bound: _,
            written: _,
        } = self;
    }
}

impl State {
    /// Nothing is kept, and the cache has this budget, in bytes of stated sizes. This takes no memory.
    pub fn new(alloc: Global, budget: u64) -> State
        ensures fits { StateFits result }
        ensures sound { (x : Fixed) → x.budget ≡ budget → IsSoundState x result }
        ensures kept { kept_of result ≡ none_kept }
        ensures budget { result.at.work.cache.budget ≡ budget }
        ensures events { result.at.work.events.items ≡ [] }
    {
        State {
            at: Progress {
                tags: Tags::new(alloc),
                seen: Seen::none(alloc),
                told: ToldValues::new(alloc),
                work: Work {
                    cache: Cache::new(alloc, budget),
                    known: Known::new(alloc),
                    events: Vec::new(alloc),
                },
            },
            links: Links::new(alloc),
            bound: Bound::new(alloc),
            written: Written::new(alloc),
        }
    }
    /// The events of the last execution, in order.
    pub fn events(&self) -> &[Event]
        ensures { result.now ≡ self.now.at.work.events.items }
    {
        self.at.work.events.as_slice()
    }

    /// What is linked, with the terms of the values.
    pub fn links(&self) -> &Links
        ensures { result.now ≡ self.now.links }
    {
        &self.links
    }

    /// The files that were written, with their bytes.
    pub fn written(&self) -> &Written
        ensures { result.now ≡ self.now.written }
    {
        &self.written
    }

    /// The sum of the stated sizes of the cached results, in bytes.
    pub fn used(&self) -> u64
        ensures used { result ≡ total self.now.at.work.cache.entries }
        ensures bounded { result ≤ self.now.at.work.cache.budget }
    {
        self.at.work.cache.used()
    }
}
