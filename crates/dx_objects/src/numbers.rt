//! Numbers as objects.
ghost use Rattle.std.specs.Prelude.{◌≡◌, IfOk, IsTrue};
ghost use Rattle.dx_base.specs.Elem.{in_range as spec_in_range};
ghost use Rattle.dx_base.specs.declared.elem.ElemType.TheVariants.{Int};
ghost use Rattle.dx_base.specs.ObjectNumbers as spec;
ghost use Rattle.dx_objects.specs.Values.{value_of};

use crate::object::{Body, Object};
use crate::outs::Value;
use crate::parts::Parts;
use dx_arrays::{Array, ElemType, Shape, in_range};
use std::alloc::{AllocError, Global};
use std::rc::Rc;

impl Object {
    /// The number that it is, and none where it is no array of rank 0 with one item. The number's type and class may be
    /// any.
    pub fn as_number(&self) -> Option<i64>
        ensures { result ≡ spec.as_number self.now }
    {
        match &self.body {
            Body::Array(array) => number_of(array),
            _ => None,
        }
    }
}

fn number_of(array: &Array) -> Option<i64>
    ensures { result ≡ spec.number_of array.now }
{
    if array.extents().is_empty() && array.items() == 1 {
        Some(array.value(0, 0))
    } else {
        None
    }
}

/// What a module answers for a number: where it is an int, a plain number of type int; and else NULL.
pub fn number(alloc: Global, n: i64) -> Result<Value, AllocError>
    ensures { IfOk result (λ v. value_of v ≡ spec.number_value n) }
{
    if in_range(ElemType::Int, n) {
        Ok(Some(int_number(alloc, n)?))
    } else {
        Ok(None)
    }
}

fn int_number(alloc: Global, n: i64) -> Result<Rc<Object>, AllocError>
    requires { IsTrue (spec_in_range Int n) }
    ensures { IfOk result (λ o. o.value ≡ spec.int_number n) }
{
    let array = Array::plain(ElemType::Int, Shape::new(alloc), vec![in alloc; n]?).unwrap();
    let object = Object::array(array, Parts::new(alloc)).unwrap();
    Ok(Rc::new(alloc, object)?)
}
