//! Shapes of expressions: a value, a vector or what an input has, and which of them fit together.
ghost use Rattle.std.specs.Prelude.{◌≡◌, ◌∷◌, [], map};
ghost use Rattle.dx_expr.specs.Shape as spec;
ghost use Rattle.dx_expr.specs.Shapes.{extents_of, found};

use crate::Inputs;
use dx_expr_grammar::{Binary, Expression, Unary};

/// The shape of an expression.
#[derive(Clone, Copy, Debug)]
pub enum Shape<'a> {
    /// A single value.
    Single,
    /// A vector of as many values.
    Vector(usize),
    /// The extents of an input.
    Extents(&'a [u32]),
}

/// Whether the shape is that of a single value, also of an input that has no extents.
pub fn is_single(a: Shape<'_>) -> bool
    ensures { result ≡ spec.is_single (extents_of a.entry) }
{
    match a {
        Shape::Single => true,
        Shape::Vector(_) => false,
        Shape::Extents(extents) => match extents {
            [] => true,
            [_, ..] => false,
        },
    }
}

fn is_vector(a: Shape<'_>) -> bool
    ensures { result ≡ spec.is_vector (extents_of a.entry) }
{
    match a {
        Shape::Single => false,
        Shape::Vector(_) => true,
        Shape::Extents(extents) => match extents {
            [] => false,
            [_] => true,
            [_, _, ..] => false,
        },
    }
}

/// Whether the shape is that of a vector with a part `k`.
fn has_part(a: Shape<'_>, k: u8) -> bool
    ensures { result ≡ spec.has_part k (extents_of a.entry) }
{
    match a {
        Shape::Single => false,
        Shape::Vector(n) => usize::from(k) < n,
        Shape::Extents(extents) => match extents {
            [] => false,
            [n] => u32::from(k) < *n,
            [_, _, ..] => false,
        },
    }
}

/// Whether the extents are those of a vector of `n` values.
fn is_vector_of(n: usize, extents: &[u32]) -> bool
    ensures { result ≡ spec.same_shape (n ∷ []) extents.now }
{
    match extents {
        [] => false,
        [m] => n == *m as usize,
        [_, _, ..] => false,
    }
}

fn same_shape(a: Shape<'_>, b: Shape<'_>) -> bool
    ensures { result ≡ spec.same_shape (extents_of a.entry) (extents_of b.entry) }
{
    match (a, b) {
        (Shape::Single, b) => is_single(b),
        (a, Shape::Single) => is_single(a),
        (Shape::Vector(n), Shape::Vector(m)) => n == m,
        (Shape::Vector(n), Shape::Extents(m)) => is_vector_of(n, m),
        (Shape::Extents(n), Shape::Vector(m)) => is_vector_of(m, n),
        (Shape::Extents(n), Shape::Extents(m)) => n == m,
    }
}

fn single_if<'a>(fits: bool) -> Option<Shape<'a>>
    ensures { found result ≡ spec.single_if fits }
{
    if fits { Some(Shape::Single) } else { None }
}

/// The shape of two operands value by value, where they are equal or one is a single value.
fn beside<'a>(a: Shape<'a>, b: Shape<'a>) -> Option<Shape<'a>>
    ensures { found result ≡ spec.beside (extents_of a.entry) (extents_of b.entry) }
{
    if is_single(a) {
        Some(b)
    } else if is_single(b) || same_shape(a, b) {
        Some(a)
    } else {
        None
    }
}

fn unary_shape<'a>(operator: Unary, a: Shape<'a>) -> Option<Shape<'a>>
    ensures { found result ≡ spec.unary_shape operator (extents_of a.entry) }
{
    match operator {
        Unary::Negate | Unary::Absolute | Unary::Sign => Some(a),
        Unary::Not => single_if(is_single(a)),
    }
}

fn binary_shape<'a>(operator: Binary, a: Shape<'a>, b: Shape<'a>) -> Option<Shape<'a>>
    ensures { found result ≡ spec.binary_shape operator (extents_of a.entry) (extents_of b.entry) }
{
    match operator {
        Binary::Add
        | Binary::Subtract
        | Binary::Multiply
        | Binary::Divide
        | Binary::Remainder
        | Binary::Minimum
        | Binary::Maximum => beside(a, b),
        Binary::Dot => single_if(is_vector(a) && same_shape(a, b)),
        Binary::Or
        | Binary::And
        | Binary::Equal
        | Binary::NotEqual
        | Binary::Less
        | Binary::LessEqual
        | Binary::Greater
        | Binary::GreaterEqual => single_if(is_single(a) && is_single(b)),
    }
}

fn choice_shape<'a>(c: Shape<'a>, a: Shape<'a>, b: Shape<'a>) -> Option<Shape<'a>>
    ensures { found result ≡ spec.choice_shape (extents_of c.entry) (extents_of a.entry) (extents_of b.entry) }
{
    if is_single(c) && same_shape(a, b) {
        Some(a)
    } else {
        None
    }
}

/// Whether each part is a single value.
#[cycle(shape)]
fn all_single<I: Inputs>(parts: &[Expression], inputs: &I) -> bool
    ensures { result ≡ spec.all_single (map (spec.shape_of (I.given inputs.now).shape) parts.now) }
{
    for part in parts {
        match shape_of(part, inputs) {
            Some(a) if is_single(a) => {}
            _ => return false,
        }
    }
    true
}

/// The shape of an expression, or nothing where the shapes of its parts don't fit.
#[cycle(shape)]
#[tactic(auto, using(crate::proofs::Equations::shapes_by_parts))]
pub fn shape_of<'a, I: Inputs>(e: &Expression, inputs: &'a I) -> Option<Shape<'a>>
    ensures { found result ≡ spec.shape_of (I.given inputs.now).shape e.now }
{
    match e {
        Expression::Number(_) => Some(Shape::Single),
        Expression::Input(k) => Some(Shape::Extents(inputs.extents(*k))),
        Expression::Unary(operator, a) => unary_shape(*operator, shape_of(a.get(), inputs)?),
        Expression::Binary(operator, a, b) => {
            let a = shape_of(a.get(), inputs)?;
            let b = shape_of(b.get(), inputs)?;
            binary_shape(*operator, a, b)
        }
        Expression::Choice(condition, a, b) => {
            let condition = shape_of(condition.get(), inputs)?;
            let a = shape_of(a.get(), inputs)?;
            let b = shape_of(b.get(), inputs)?;
            choice_shape(condition, a, b)
        }
        Expression::Part(a, k) => single_if(has_part(shape_of(a.get(), inputs)?, *k)),
        Expression::Vector(parts) => {
            if all_single(parts.as_slice(), inputs) {
                Some(Shape::Vector(parts.len()))
            } else {
                None
            }
        }
    }
}
