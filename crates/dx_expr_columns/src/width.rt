//! How many components an expression has.

ghost use Rattle.std.specs.Prelude.{◌≡◌, ◌<◌, ◌≤◌, ◌∷◌, [], Some};
ghost use Rattle.dx_expr.specs.Shape.{shape_of as spec_shape_of};
ghost use Rattle.dx_expr.specs.Shapes.{extents_of};

use dx_expr::{Expression, Inputs, Shape, shape_of};

/// How many components are the most that are evaluated one by one.
const MOST: usize = 16;

/// How many values a vector has; 0 stands for what is no vector.
fn values_in(a: Shape<'_>) -> usize
    ensures { 0 < result → extents_of a.entry ≡ result ∷ [] }
{
    match a {
        Shape::Single => 0,
        Shape::Vector(n) => n,
        Shape::Extents(extents) => match extents {
            [n] => *n as usize,
            _ => 0,
        },
    }
}

/// How many values a vector expression has; 0 stands for what is no vector, or one of more than 16 values.
pub fn width_of<I: Inputs>(e: &Expression, inputs: &I) -> usize
    ensures few { result ≤ 16 }
    ensures shape { 0 < result → spec_shape_of (I.given inputs.now).shape e.now ≡ Some (result ∷ []) }
{
    let values = match shape_of(e, inputs) {
        Some(shape) => values_in(shape),
        None => 0,
    };
    if values <= MOST { values } else { 0 }
}
