//! Terms and their numbers.

use crate::content::Content;
use dx_ast::Const;
use dx_base::{Few, Module};

/// The number of a term.
pub type Tag = u64;

/// A result of a call's term, counted from 0, or the value of another term, whose result is 0.
#[derive(Clone, Copy, Debug, PartialEq, Eq, Hash)]
pub struct ValueTag {
    pub tag: Tag,
    pub result: u32,
}

/// The arguments of a call, in order.
pub type ValueTags = Few<ValueTag>;

/// A closed term, whose parts are named by their tags.
#[derive(Debug, PartialEq, Eq, Hash, Drop)]
pub enum Term {
    Constant(Const),
    /// A value that was kept when the terms before were forgotten, by its number.
    Held(u64),
    /// A call of a module on these arguments.
    Call(Module, ValueTags),
    /// The bytes of a written file, which stand behind the arguments of a call that reads it.
    File(Content),
}

/// A term as it is named: a held value by its number alone, or a term that was formed.
#[derive(Clone, Copy, Debug)]
pub enum Named<'a> {
    Held(u64),
    Formed(&'a Term),
}
