//! What a script can assign or hand to a call: constants, names, variables of the sequencer, calls.

use crate::boxed::Boxed;
use crate::constants::Const;
use crate::sequencing::FrameVar;
use dx_base::{Bytes, Items};

/// The arguments of a call.
pub type Args = Items<Arg>;

/// What a script can assign or hand to a call.
#[cycle(tree)]
#[derive(Debug, Drop)]
pub enum Expr {
    Constant(Const),
    Name(Bytes),
    Frame(FrameVar),
    Call(Boxed<Call>),
}

/// A call of a macro or of a function.
#[cycle(tree)]
#[derive(Debug, Drop)]
pub struct Call {
    pub name: Bytes,
    pub args: Args,
    /// Which results are kept: 0 none, 1 all, 2 the last.
    pub cache: u8,
}

/// An argument, which is given by its place where it has no name.
#[cycle(tree)]
#[derive(Debug, Drop)]
pub struct Arg {
    pub name: Option<Bytes>,
    pub value: Expr,
}
