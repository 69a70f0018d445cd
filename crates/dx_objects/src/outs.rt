//! Values, and lists of them.
ghost use Rattle.std.specs.Prelude.{◌≡◌, ◌++◌, ◌∷◌, ◌==◌, ◌<◌, [], min, OnOk, OnErr, IfOk, length, slice_get, Some, None, MatchOption};
ghost use Rattle.dx_base.specs.Object.{value_size as spec_value_size, results_size};
ghost use Rattle.dx_objects.specs.Values.{value_of, values_of, value_at};

use crate::object::Object;
use dx_base::Few;
use std::alloc::{AllocError, Global};
use std::marker::Model;
use std::rc::Rc;

/// NULL or an object.
pub type Value = Option<Rc<Object>>;

/// A list of values. One that has a single value takes no memory of its own.
#[derive(Drop)]
pub struct Outs {
    items: Few<Value>,
}

impl Model for Outs {
    ghost use Rattle.std.specs.Prelude.{List, Option};
    ghost use Rattle.std.specs.Coded.{coded_list, coded_option};
    ghost use Rattle.dx_base.specs.Object.{Tree};
    ghost use Rattle.dx_base.specs.ObjectCode.{coded_tree};

    ghost Value = { List (Option Tree) };

    ghost coded = { coded_list (coded_option coded_tree) };

    ghost use Rattle.dx_objects.specs.Values.{values_of};

    ghost view = { λ a. values_of a.items };
}

impl Outs {
    /// No values, which takes no memory.
    pub fn new(alloc: Global) -> Outs
        ensures { result ≡ [] }
    {
        Outs {
            items: Few::new(alloc),
        }
    }

    /// No values, with room for so many. It takes memory for more than one.
    pub fn with_capacity(alloc: Global, count: usize) -> Result<Outs, AllocError>
        ensures { IfOk result (λ outs. outs ≡ []) }
    {
        Ok(Outs {
            items: Few::with_capacity(alloc, count)?,
        })
    }

    pub fn as_slice(&self) -> &[Value]
        ensures { values_of result.now ≡ self.now }
    {
        self.items.as_slice()
    }

    pub fn len(&self) -> usize
        ensures { result ≡ length self.now }
    {
        self.items.len()
    }

    pub fn is_empty(&self) -> bool
        ensures { result ≡ (length self.now == 0) }
    {
        self.items.is_empty()
    }

    pub fn get(&self, i: usize) -> &Value
        requires { i < length self.now }
        ensures { slice_get self.now i ≡ Some (value_of result.now) }
    {
        &self.items.as_slice()[i]
    }

    /// The object at a place, and none where NULL stands there or the place is behind the end.
    #[tactic(auto, using(crate::proofs::ValuesLaws::values))]
    pub fn value(&self, i: usize) -> Option<&Rc<Object>>
        ensures { MatchOption result (value_at self.now i ≡ None) (λ o. value_at self.now i ≡ Some o.now.value) }
    {
        if i >= self.len() {
            return None;
        }
        match self.get(i) {
            None => None,
            Some(object) => Some(object),
        }
    }

    /// Puts a value at the end. Where memory runs out the list stays as it was.
    pub fn push(&mut self, value: Value) -> Result<(), AllocError>
        ensures ok { OnOk result (self.new ≡ self.old ++ value_of value ∷ []) }
        ensures err { OnErr result (self.new ≡ self.old) }
    {
        self.items.push(value)?;
        Ok(())
    }

    /// The same values, which share their objects.
    pub fn copy(&self, alloc: Global) -> Result<Outs, AllocError>
        ensures { IfOk result (λ copy. copy ≡ self.now) }
    {
        let mut copy = Outs::with_capacity(alloc, self.len())?;
        for value in self.as_slice() {
            copy.push(copy_of(value)?)?;
        }
        Ok(copy)
    }

    /// The stated size of the values as a list of results, NULL counting 64, or the greatest number where it is greater.
    pub fn size(&self) -> u64
        ensures { result ≡ min (results_size self.now) 18446744073709551615 }
    {
        let mut size: u64 = 0;
        for value in self.as_slice() {
            size = size.saturating_add(value_size(value));
        }
        size
    }
}

fn copy_of(value: &Value) -> Result<Value, AllocError>
    ensures { IfOk result (λ copy. value_of copy ≡ value_of value.now) }
{
    match value {
        None => Ok(None),
        Some(object) => Ok(Some(object.clone()?)),
    }
}

fn value_size(value: &Value) -> u64
    ensures { result ≡ spec_value_size (value_of value.now) }
{
    match value {
        None => 64,
        Some(object) => object.size(),
    }
}
