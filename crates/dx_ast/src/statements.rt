//! The statements of a script.

use crate::boxed::Boxed;
use crate::constants::{Const, TextList};
use crate::expressions::{Call, Expr};
use crate::sequencing::{FrameVar, Word};
use dx_base::{Bytes, Items};

/// The parameters of a macro.
pub type Params = Items<Param>;

/// A list of statements.
pub type Stmts = Items<Stmt>;

/// An assignment: each target means the result of its place.
#[derive(Debug, Drop)]
pub struct Assign {
    pub targets: TextList,
    pub value: Expr,
}

/// A parameter of a macro, and what it means where a call omits it.
#[derive(Debug, Drop)]
pub struct Param {
    pub name: Bytes,
    pub default: Option<Const>,
}

/// The definition of a macro.
#[cycle(statement)]
#[derive(Debug, Drop)]
pub struct MacroDef {
    pub name: Bytes,
    pub params: Params,
    pub results: TextList,
    pub body: Stmts,
}

/// A statement of a script.
#[cycle(statement)]
#[derive(Debug, Drop)]
pub enum Stmt {
    Assign(Assign),
    Call(Call),
    Macro(Boxed<MacroDef>),
    /// The name of the file whose statements stand here.
    Include(Bytes),
    SetFrame(FrameVar, Expr),
    Word(Word),
    /// The call that each step of the sequencer executes.
    Sequence(Call),
}
