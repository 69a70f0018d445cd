//! Clauses as they stand in a file, with the offsets at which they can be refused later.

use dx_arrays::{Array, ElemType, Shape};
use dx_base::{Bytes, Items};
use dx_native_lex::Named;

/// The first word of a type: a type, or a word before one.
#[derive(Clone, Copy)]
pub enum TypeWord {
    Whole(ElemType),
    Signed,
    Unsigned,
}

/// What is said of an array before its data.
#[derive(Drop)]
pub struct Head {
    pub elem: ElemType,
    pub extents: Shape,
    pub items: u64,
}

/// The name of a member or none, and where it stands.
#[derive(Drop)]
pub struct Label {
    pub name: Option<Bytes>,
    pub at: u64,
}

/// A component or a member: its name or none, its position or 0, and the object that it refers to.
#[derive(Drop)]
pub struct Part {
    pub name: Option<Bytes>,
    pub position: i32,
    pub target: Named,
}

/// What an attribute is given as.
#[derive(Drop)]
pub enum Given {
    Text(Bytes),
    Number(i32),
    Object(Named),
}

/// An attribute: its name and what it is given as.
#[derive(Drop)]
pub struct Attribute {
    pub name: Bytes,
    pub value: Given,
}

/// A class of objects whose parts stand in lines of their own.
#[derive(Clone, Copy)]
pub enum ListClass {
    Field,
    Group,
    Composite,
    Series,
}

/// What a clause says of an object without its attributes: an array, a text, or the class of its parts and these.
#[derive(Drop)]
pub enum Body {
    Array(Array),
    Text(Bytes),
    Parts(ListClass, Items<Part>),
}

/// What a clause says of an object.
#[derive(Drop)]
pub struct Content {
    pub body: Body,
    pub attributes: Items<Attribute>,
}

/// A clause: the name of an object, with its offset, and what is said of it.
#[derive(Drop)]
pub struct Clause {
    pub name: Named,
    pub content: Content,
}
