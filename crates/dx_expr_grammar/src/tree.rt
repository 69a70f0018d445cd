//! The tree of an expression, its operators and how closely they bind.
use crate::Boxed;
use dx_base::Items;

/// An operator or a function of one operand.
#[derive(Clone, Copy, Debug, PartialEq, Eq)]
pub enum Unary {
    /// `-a`
    Negate,
    /// `!a`
    Not,
    /// `abs(a)`
    Absolute,
    /// `sign(a)`
    Sign,
}

/// An operator or a function of two operands.
#[derive(Clone, Copy, Debug, PartialEq, Eq)]
pub enum Binary {
    Or,
    And,
    Equal,
    NotEqual,
    Less,
    LessEqual,
    Greater,
    GreaterEqual,
    Add,
    Subtract,
    Multiply,
    Divide,
    Remainder,
    Minimum,
    Maximum,
    /// The sum of the products of the parts of two vectors.
    Dot,
}

/// How closely an operator between two operands binds, from the loosest to the closest.
#[derive(Clone, Copy, Debug, PartialEq, Eq)]
pub enum Level {
    /// `||`
    Or,
    /// `&&`
    And,
    /// `==` and `!=`
    Equality,
    /// `<`, `<=`, `>` and `>=`
    Relation,
    /// `+` and `-`
    Sum,
    /// `*`, `/` and `%`
    Product,
}

/// An expression of Compute. Brackets are gone, since the tree says what belongs together.
#[cycle(tree)]
#[derive(Debug, Drop)]
pub enum Expression {
    /// A whole number from 0 to 2,147,483,647.
    Number(u32),
    /// `$k`, the input k, from 0 to 20.
    Input(u8),
    Unary(Unary, Boxed<Expression>),
    Binary(Binary, Boxed<Expression>, Boxed<Expression>),
    /// `condition ? one : other`
    Choice(Boxed<Expression>, Boxed<Expression>, Boxed<Expression>),
    /// `vector.k`, the part k of a vector, from 0 to 255.
    Part(Boxed<Expression>, u8),
    /// `[part, ..]`, with 1 to 256 parts.
    Vector(Items<Expression>),
}
