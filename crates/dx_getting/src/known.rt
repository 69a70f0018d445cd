//! The calls whose results are known in an execution.
ghost use Rattle.std.specs.Prelude.{◌≡◌, ◌<◌, ◌++◌, ◌∷◌, [], Some, None, nat_eq, MatchOption, OnOk};
ghost use Rattle.std.specs.Map.{lookup};

use dx_objects::Outs;
use dx_tags::Tag;
use indexmap::IndexMap;
use std::alloc::{AllocError, Global};
use std::marker::Model;

/// Calls by the tags of their terms, with their results, which contracts see as a list in the order of their coming.
#[derive(Drop)]
pub struct Known {
    table: IndexMap<u64, Outs>,
}

impl Model for Known {
    ghost use Rattle.std.specs.Prelude.{List, ℕ};
    ghost use Rattle.std.specs.Coded.{coded×, coded_ℕ, coded_list, coded_option};
    ghost use Rattle.dx_base.specs.ObjectCode.{coded_tree};
    ghost use Rattle.dx_objects.specs.Runs.{Values};
    ghost use Rattle.indexmap.specs.IndexMap.{spare};
    ghost use Rattle.dx_getting.specs.Calls.{KnownCalls, coded_known};

    ghost Value = { KnownCalls };

    ghost coded = { coded_known };

    ghost view = { λ k. record { calls = k.table.entries; room = spare k.table } };
}

impl Known {
    /// No call is known, which takes no memory.
    pub fn new(alloc: Global) -> Known
        ensures { result.calls ≡ [] }
    {
        Known {
            table: IndexMap::new(alloc),
        }
    }

    /// The results of a call, and none exactly where it isn't known.
    pub fn outs(&self, tag: Tag) -> Option<&Outs>
        ensures { MatchOption result (lookup (nat_eq tag) self.now.calls ≡ None) (λ outs. lookup (nat_eq tag) self.now.calls ≡ Some outs.now) }
    {
        self.table.get(&tag)
    }

    /// Room for one more call. Where memory runs out the calls stay.
    pub fn reserve_one(&mut self) -> Result<(), AllocError>
        ensures calls { self.new.calls ≡ self.old.calls }
        ensures room { OnOk result (0 < self.new.room) }
    {
        self.table.reserve(1)
    }

    /// A call is known from now on, which wasn't. This takes no memory.
    pub fn learn(&mut self, tag: Tag, outs: Outs)
        requires room { 0 < self.old.room }
        requires absent { lookup (nat_eq tag) self.old.calls ≡ None }
        ensures { self.new.calls ≡ self.old.calls ++ (tag, outs) ∷ [] }
    {
        match self.table.insert(tag, outs) {
            Ok(_) => {}
            Err(_) => unreachable!(),
        }
    }
}
