//! What names and expressions stand for while a text is expanded.
ghost use Rattle.std.specs.Prelude.{◌≡◌, List, All, slice_index_or};
ghost use Rattle.dx_macros.specs.Expansion as plain;
ghost use Rattle.dx_graph.specs.Unfolding.{call_at, calls_of};
ghost use Rattle.dx_graph.specs.Graph.{Node};
ghost use Rattle.dx_graph.specs.Operands.{operand_tree, OperandFits, HasResults, results_trees, ResultsFit};
ghost use Rattle.dx_graph.specs.declared.operand.Operand.TheVariants.{Null};

use dx_ast::{Const, FrameVar, Frames};

/// What a name or an argument means while a text is expanded.
#[derive(Clone, Copy)]
pub enum Operand<'a> {
    Null,
    /// The value of a variable of the sequencer.
    Number(i32),
    Constant(&'a Const),
    /// A result of a node: the number of the node, and that of the result.
    Result(u32, u32),
}

/// What an expression comes to: its results by number from 0.
#[derive(Drop)]
pub enum Results<'a> {
    One(Operand<'a>),
    /// Those of a node, and how many it has.
    Node(u32, u32),
    /// Those of a macro.
    Many(Vec<Operand<'a>>),
}

/// The value of a variable of the sequencer.
pub fn frame_value(f: &Frames, v: FrameVar) -> i32
    ensures { result ≡ plain.frame_value f.now v }
{
    match v {
        FrameVar::Start => f.start,
        FrameVar::End => f.end,
        FrameVar::Delta => f.delta,
        FrameVar::Next => f.next,
        FrameVar::Frame => f.frame,
    }
}

impl<'a> Results<'a> {
    /// Result number n, which is NULL where there is none.
    pub fn at(&self, n: usize) -> Operand<'a>
        ensures tree { (nodes : List Node) → operand_tree nodes result ≡ results_trees nodes self.now n }
        ensures fits { (nodes : List Node) → ResultsFit nodes self.now → OperandFits nodes result }
    {
        match self {
            Results::One(o) => first_of_one(*o, n),
            Results::Node(node, count) => result_of(*node, *count, n),
            Results::Many(all) => nth(all.as_slice(), n),
        }
    }
}

fn first_of_one<'a>(o: Operand<'a>, n: usize) -> Operand<'a>
    ensures tree { (nodes : List Node) → operand_tree nodes result ≡ plain.only (operand_tree nodes o.entry) n }
    ensures fits { (nodes : List Node) → OperandFits nodes o.entry → OperandFits nodes result }
{
    if n == 0 { o } else { Operand::Null }
}

/// A result of a node that has so many.
fn result_of<'a>(node: u32, count: u32, n: usize) -> Operand<'a>
    ensures tree { (nodes : List Node) → operand_tree nodes result ≡ plain.function_result count (call_at (calls_of nodes) node) n }
    ensures fits { (nodes : List Node) → HasResults nodes node count → OperandFits nodes result }
{
    if n < count as usize {
        Operand::Result(node, n as u32)
    } else {
        Operand::Null
    }
}

fn nth<'a>(all: &[Operand<'a>], n: usize) -> Operand<'a>
    ensures tree { (nodes : List Node) → operand_tree nodes result ≡ operand_tree nodes (slice_index_or all.now n Null) }
    ensures fits { (nodes : List Node) → All (OperandFits nodes) all.now → OperandFits nodes result }
{
    match all.get(n) {
        Some(o) => *o,
        None => Operand::Null,
    }
}
