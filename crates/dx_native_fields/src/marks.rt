//! Which clauses have been found to hold good fields alone.
ghost use Rattle.std.specs.Prelude.{◌≡◌, ◌<◌, length, replicate, slice_index_or, slice_set, true, false, IfOk};

use std::alloc::{AllocError, Global};
use std::marker::Model;

#[derive(Drop)]
pub(crate) struct Marks {
    marked: Vec<bool>,
}

impl Model for Marks {
    ghost use Rattle.std.specs.Prelude.{List, Bool};

    ghost Value = { List Bool };

    ghost view = { λ m. m.marked.items };
}

impl Marks {
    /// Marks for so many clauses, of which none is marked.
    pub(crate) fn new(alloc: Global, n: usize) -> Result<Marks, AllocError>
        ensures { IfOk result (λ m. m ≡ replicate n false) }
    {
        let mut marked = Vec::with_capacity(alloc, n)?;
        for _i in 0..n {
            marked.push(false)?;
        }
        Ok(Marks { marked })
    }

    pub(crate) fn is_marked(&self, i: usize) -> bool
        requires { i < length self.now }
        ensures { result ≡ slice_index_or self.now i false }
    {
        self.marked[i]
    }

    pub(crate) fn mark(&mut self, i: usize)
        requires { i < length self.old }
        ensures { self.new ≡ slice_set self.old i true }
    {
        self.marked[i] = true;
    }
}
