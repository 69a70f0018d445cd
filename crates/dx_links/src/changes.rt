//! The changes of one execution.
ghost use Rattle.std.specs.Prelude.{◌≡◌, ◌<◌, ◌==◌, [], ◌∷◌, ◌++◌, Some, length, slice_get, OnOk, OnErr};

use crate::held::Change;
use std::alloc::{AllocError, Global};
use std::marker::Model;

/// The changes of one execution, in order, which contracts see as the list of them.
#[derive(Drop)]
pub struct Changes {
    list: Vec<Change>,
}

impl Model for Changes {
    ghost use Rattle.std.specs.Prelude.{List};
    ghost use Rattle.std.specs.Coded.{coded_list};
    ghost use Rattle.dx_links.specs.declared.held.Change.{Change};
    ghost use Rattle.dx_links.specs.LinkMap.{coded_change};

    ghost Value = { List Change };

    ghost coded = { coded_list coded_change };

    ghost view = { λ a. a.list.items };
}

impl Changes {
    /// No changes, which takes no memory.
    pub fn new(alloc: Global) -> Changes
        ensures { result ≡ [] }
    {
        Changes {
            list: Vec::new(alloc),
        }
    }

    /// The number of changes.
    pub fn len(&self) -> usize
        ensures { result ≡ length self.now }
    {
        self.list.len()
    }

    /// Whether there is no change.
    pub fn is_empty(&self) -> bool
        ensures { result ≡ (length self.now == 0) }
    {
        self.list.is_empty()
    }

    /// The change at a place in their order, counted from 0.
    pub fn at(&self, i: usize) -> &Change
        requires within { i < length self.now }
        ensures { slice_get self.now i ≡ Some result.now }
    {
        &self.list[i]
    }

    /// Puts a change behind the others. Where memory runs out they stay as they were.
    pub fn push(&mut self, change: Change) -> Result<(), AllocError>
        ensures ok { OnOk result (self.new ≡ self.old ++ change ∷ []) }
        ensures err { OnErr result (self.new ≡ self.old) }
    {
        self.list.push(change)?;
        Ok(())
    }

    /// The changes, moved out.
    pub fn into_vec(self) -> Vec<Change>
        ensures { result.items ≡ self }
    {
        self.list
    }
}
