//! The object of an array, of a text, of a number and of a list of parts.

ghost use Rattle.std.specs.Prelude.{◌≡◌, IfOk};
ghost use Rattle.dx_base.specs.Object as object_spec;
ghost use Rattle.dx_base.specs.ObjectLimits.{unplaced};
ghost use Rattle.dx_base.specs.ObjectNumbers.{int_number};
ghost use Rattle.dx_native_grammar.specs.Meaning.{listed_tree};
ghost use Rattle.dx_native_walk.specs.Answer.{Makes_of};
ghost use Rattle.dx_objects.specs.Makes.{Makes};

use crate::fail::BuildFail;
use dx_base::Bytes;
use dx_native_clauses::ListClass;
use dx_objects::{Array, Object, ObjectError, Parts, number};
use std::alloc::{AllocError, Global};
use std::rc::Rc;

pub(crate) fn array_object(array: Array, attributes: Parts) -> Result<Object, BuildFail>
    ensures { Makes_of (object_spec.array array (unplaced attributes)) result }
{
    match Object::array(array, attributes) {
        Ok(object) => Ok(object),
        Err(_) => Err(BuildFail::Broken),
    }
}

pub(crate) fn text_object(
    alloc: Global,
    text: &Bytes,
    attributes: Parts,
) -> Result<Object, BuildFail>
    ensures { Makes_of (object_spec.text text.now (unplaced attributes)) result }
{
    match Object::text(Bytes::copy_of(alloc, text.bytes())?, attributes) {
        Ok(object) => Ok(object),
        Err(_) => Err(BuildFail::Broken),
    }
}

// A number of a file is an int, so there is an object of it.
pub(crate) fn number_object(alloc: Global, n: i32) -> Result<Rc<Object>, AllocError>
    ensures { IfOk result (λ o. o.value ≡ int_number n) }
{
    Ok(number(alloc, i64::from(n))?.unwrap())
}

fn made(class: ListClass, parts: Parts, attributes: Parts) -> Result<Object, ObjectError>
    ensures { Makes (listed_tree class parts (unplaced attributes)) result }
{
    match class {
        ListClass::Field => Object::field(parts, attributes),
        ListClass::Group => Object::group(parts, attributes),
        ListClass::Composite => Object::composite(parts, attributes),
        ListClass::Series => Object::series(parts, attributes),
    }
}

pub(crate) fn listed_object(
    class: ListClass,
    parts: Parts,
    attributes: Parts,
) -> Result<Object, BuildFail>
    ensures { Makes_of (listed_tree class parts (unplaced attributes)) result }
{
    match made(class, parts, attributes) {
        Ok(object) => Ok(object),
        Err(_) => Err(BuildFail::Broken),
    }
}
