//! Constants, whose lists and texts are shared: a copy of a constant takes no memory.
ghost use Rattle.std.specs.Prelude.{◌≡◌, IfOk};

use dx_base::{Bytes, Few, Shared};
use std::alloc::AllocError;

/// A list of integers.
pub type Ints = Shared<i32>;

/// A list of names, as the targets of an assignment or the results of a macro.
pub type TextList = Few<Bytes>;

/// A constant as a script writes it.
#[derive(Debug, Drop, PartialEq, Eq, Hash)]
pub enum Const {
    Null,
    Int(i32),
    Text(Shared<u8>),
    /// `[1 2 3]`: the numbers of one vector.
    Vector(Ints),
    /// `{1 2 3}`, `{1 .. 3}` or `{}`.
    Ints(Ints),
    /// `{[1 2] [3 4]}`: the length of each vector, and the numbers of all of them one after the other.
    Vectors(u32, Ints),
    /// `{"a" "b"}`.
    Texts(Shared<Bytes>),
}

impl Const {
    /// The same constant, whose lists and texts stand in the same memory.
    pub fn share(&self) -> Result<Const, AllocError>
        ensures { IfOk result (λ copy. copy ≡ self.now) }
    {
        Ok(match self {
            Const::Null => Const::Null,
            Const::Int(n) => Const::Int(*n),
            Const::Text(text) => Const::Text(text.share()?),
            Const::Vector(numbers) => Const::Vector(numbers.share()?),
            Const::Ints(numbers) => Const::Ints(numbers.share()?),
            Const::Vectors(width, numbers) => Const::Vectors(*width, numbers.share()?),
            Const::Texts(texts) => Const::Texts(texts.share()?),
        })
    }
}
