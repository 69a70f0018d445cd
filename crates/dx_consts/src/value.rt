//! The value of a constant, by its kind.
ghost use Rattle.std.specs.Prelude.{◌≡◌, IfOk};
ghost use Rattle.dx_ast.specs.Value.{value_of as spec_value};
ghost use Rattle.dx_ast.specs.Lawful.{IsLawfulConst};
ghost use Rattle.dx_objects.specs.Values.{value_of};

use crate::numbers::{ints, shape_of};
use crate::texts::{group_of, text};
use dx_arrays::Shape;
use dx_ast::Const;
use dx_objects::Value;
use std::alloc::{AllocError, Global};

/// The value that a constant stands for: none for NULL, a number for an integer, a text for a text, one item of rank 1
/// for a vector, one item for each element of a list, and a group of unnamed texts for a list of texts. `{}` is an array
/// of no numbers. All arrays are plain arrays of ints, and no object has attributes.
///
/// Only want of memory is an error.
pub fn object_of(alloc: Global, c: &Const) -> Result<Value, AllocError>
    requires { IsLawfulConst c.now }
    ensures { IfOk result (λ v. value_of v ≡ spec_value c.now) }
{
    let object = match c {
        Const::Null => return Ok(None),
        Const::Int(n) => ints(alloc, Shape::new(alloc), &[*n])?,
        Const::Text(t) => text(alloc, t.as_slice())?,
        Const::Vector(ns) => ints(alloc, shape_of(alloc, ns.len() as u32)?, ns.as_slice())?,
        Const::Ints(ns) => ints(alloc, Shape::new(alloc), ns.as_slice())?,
        Const::Vectors(width, ns) => ints(alloc, shape_of(alloc, *width)?, ns.as_slice())?,
        Const::Texts(ts) => group_of(alloc, ts.as_slice())?,
    };
    Ok(Some(object))
}
