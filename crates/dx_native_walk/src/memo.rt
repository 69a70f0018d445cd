//! What is kept by the places of clauses: the objects that are built already, and the arrays that wait for theirs.

ghost use Rattle.std.specs.Prelude.{◌≡◌, length, slice_index_or, ◌<◌, Some, None, IfOk, replicate};
ghost use Rattle.dx_native_walk.specs.Memo.{tree_in, with_tree, without_array};

use dx_objects::{Array, Object};
use std::alloc::{AllocError, Global};
use std::marker::Model;
use std::rc::Rc;

/// Objects of clauses that are built already, and arrays of clauses that wait for their objects. Contracts see a list
/// with an object, or none, for each clause, and a list with an array, or none.
#[derive(Drop)]
pub struct Memo {
    objects: Vec<Option<Rc<Object>>>,
    arrays: Vec<Option<Array>>,
}

impl Model for Memo {
    ghost use Rattle.dx_native_walk.specs.Memo.{Kept, coded_kept, trees_in};

    ghost Value = { Kept };

    ghost coded = { coded_kept };

    ghost view = { λ m. record { trees = trees_in m.objects.items; arrays = m.arrays.items } };
}

/// Room for so many objects, none of which is built.
fn no_objects(alloc: Global, n: usize) -> Result<Vec<Option<Rc<Object>>>, AllocError>
    ensures { IfOk result (λ objects. objects.items ≡ replicate n None) }
{
    let mut objects = Vec::new(alloc);
    for _i in 0..n {
        objects.push(None)?;
    }
    Ok(objects)
}

impl Memo {
    /// These arrays wait for their objects, none of which is built.
    pub(crate) fn new(alloc: Global, arrays: Vec<Option<Array>>) -> Result<Memo, AllocError>
        ensures { IfOk result (λ m. m ≡ record { trees = replicate (length arrays.items) None; arrays = arrays.items }) }
    {
        let objects = no_objects(alloc, arrays.len())?;
        Ok(Memo { objects, arrays })
    }

    /// The object of this place.
    pub(crate) fn kept(&self, i: usize) -> &Option<Rc<Object>>
        requires { i < length self.now.trees }
        ensures { slice_index_or self.now.trees i None ≡ tree_in result.now }
    {
        &self.objects[i]
    }

    pub(crate) fn set(&mut self, i: usize, object: Rc<Object>)
        requires trees { i < length self.old.trees }
        requires arrays { i < length self.old.arrays }
        ensures { self.new ≡ with_tree self.old i object.value }
    {
        self.objects[i] = Some(object);
        self.arrays[i] = None;
    }

    /// The array of this place moves out, if it waits.
    pub(crate) fn take_array(&mut self, i: usize) -> Option<Array>
        requires { i < length self.old.arrays }
        ensures array { slice_index_or self.old.arrays i None ≡ result }
        ensures others { self.new ≡ without_array self.old i }
    {
        self.arrays[i].take()
    }
}
