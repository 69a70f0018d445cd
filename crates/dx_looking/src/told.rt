//! The values of selectors that were got.
ghost use Rattle.std.specs.Prelude.{◌≡◌, ◌++◌, ◌∷◌, [], None, OnOk, OnErr};
ghost use Rattle.std.specs.Map.{lookup};
ghost use Rattle.dx_objects.specs.Values.{value_of};
ghost use Rattle.dx_tags.specs.contracts.term.ValueTagPartialEq.TheImpl as tags;

use dx_demand::Given;
use dx_objects::{Object, Value};
use dx_tags::ValueTag;
use indexmap::IndexMap;
use std::alloc::{AllocError, Global};
use std::marker::Model;

/// The values that were got of terms, by their tags, which contracts see as a list in the order of their coming.
#[derive(Drop)]
pub struct ToldValues {
    table: IndexMap<ValueTag, Value>,
}

impl Model for ToldValues {
    ghost use Rattle.dx_looking.specs.ToldTags.{ToldTags, told_tags, coded_told};

    ghost Value = { ToldTags };

    ghost coded = { coded_told };

    ghost view = { λ t. told_tags t.table.entries };
}

impl ToldValues {
    /// Nothing is told, which takes no memory.
    pub fn new(alloc: Global) -> ToldValues
        ensures { result ≡ [] }
    {
        ToldValues {
            table: IndexMap::new(alloc),
        }
    }

    /// The value of a term is told from now on, which wasn't.
    pub fn tell(&mut self, tag: ValueTag, value: Value) -> Result<(), AllocError>
        requires absent { lookup (tags.ghosts.eq tag) self.old ≡ None }
        ensures ok { OnOk result (self.new ≡ self.old ++ (tag, value_of value) ∷ []) }
        ensures err { OnErr result (self.new ≡ self.old) }
    {
        self.table.insert(tag, value)?;
        Ok(())
    }
}

impl Given for ToldValues {
    ghost use Rattle.std.specs.Map.{lookup};
    ghost use Rattle.dx_tags.specs.contracts.term.ValueTagPartialEq.TheImpl as tags;

    ghost told = { λ w t. lookup (tags.ghosts.eq t) w };

    fn value(&self, t: ValueTag) -> Option<Option<&Object>> {
        match self.table.get(&t) {
            None => None,
            Some(None) => Some(None),
            Some(Some(object)) => Some(Some(object)),
        }
    }
}
