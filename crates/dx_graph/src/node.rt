//! The nodes of a graph.
use dx_ast::Const;
use dx_base::{Few, Function};

/// What a node takes.
#[derive(Debug, Drop)]
pub enum Input {
    Constant(Const),
    /// A result of an earlier node: the number of the node, and that of the result. Both count from 0.
    Result(u32, u32),
}

/// The inputs of a node: one for each named parameter of its function, in order, and then those of the further arguments.
pub type Inputs = Few<Input>;

/// A call of a function.
#[derive(Debug, Drop)]
pub struct Node {
    pub what: Function,
    pub inputs: Inputs,
    /// The cache attribute of the call: 0, 1 or 2.
    pub cache: u8,
}

/// A node, and where it stands.
#[derive(Drop)]
pub struct Placed {
    pub node: Node,
    /// The function that a script calls there, by whose name the site ends.
    pub called: Function,
    /// The trail of the text that it stands in; None where that is a call at the top level.
    pub trail: Option<usize>,
    /// It is the k-th call of that function in that text.
    pub k: usize,
}
