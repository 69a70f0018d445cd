//! Arrays of ints.
ghost use Rattle.std.specs.Prelude.{◌≡◌, ◌<◌, ◌≤◌, ◌*◌, ◌%◌, ◌∷◌, [], true, length, IfOk, IsTrue};
ghost use Rattle.std.specs.List.{list_all};
ghost use Rattle.dx_base.specs.Array.{product};
ghost use Rattle.dx_base.specs.ArrayLimits.{is_shape};
ghost use Rattle.dx_base.specs.Elem.{in_range};
ghost use Rattle.dx_base.specs.ObjectLimits.{fits};
ghost use Rattle.dx_base.specs.declared.elem.ElemType.TheVariants.{Int};
ghost use Rattle.dx_ast.specs.Value.{ints as spec_ints};

use dx_arrays::{Array, Shape};
use dx_objects::{Object, Parts};
use std::alloc::{AllocError, Global};
use std::rc::Rc;

/// The shape of a vector of so many numbers.
pub(crate) fn shape_of(alloc: Global, len: u32) -> Result<Shape, AllocError>
    ensures { IfOk result (λ shape. shape ≡ len ∷ []) }
{
    let mut shape = Shape::new(alloc);
    shape.push(len)?;
    Ok(shape)
}

/// The plain array of these numbers, item by item.
pub(crate) fn ints(alloc: Global, shape: Shape, numbers: &[i32]) -> Result<Rc<Object>, AllocError>
    requires shape { IsTrue (is_shape shape) }
    requires some { 0 < product shape }
    requires narrow { product shape ≤ 256 }
    requires few { length numbers.now ≤ 65536 * product shape }
    requires whole { length numbers.now % product shape ≡ 0 }
    requires limits { IsTrue (fits (spec_ints shape numbers.now)) }
    ensures { IfOk result (λ o. o.value ≡ spec_ints shape numbers.now) }
{
    let array = Array::ints(shape, copied(alloc, numbers)?).unwrap();
    let object = Object::array(array, Parts::new(alloc)).unwrap();
    Ok(Rc::new(alloc, object)?)
}

// The same numbers in a list of their own. The proof sees of each of them as it is copied that it is an int.
fn copied(alloc: Global, numbers: &[i32]) -> Result<Vec<i32>, AllocError>
    ensures same { IfOk result (λ values. values.items ≡ numbers.now) }
    ensures in_type { IfOk result (λ values. list_all (in_range Int) values.items ≡ true) }
{
    let mut values = Vec::with_capacity(alloc, numbers.len())?;
    for n in numbers {
        values.push(*n)?;
    }
    Ok(values)
}
