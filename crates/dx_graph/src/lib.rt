//! Graphs of calls, in which what has a name stands once: nodes, the trails that lead to them, and how a graph grows.
#![tactic(auto)]

mod given;
mod graph;
mod inputs;
mod law;
mod node;
mod operand;
mod trail;
mod trails;

pub use given::{Given, param_operand};
pub use graph::Graph;
pub use inputs::inputs_of;
pub use law::{automatic_names_are_lawful, nodes_unfold_by_inputs};
pub use node::{Input, Inputs, Node};
pub use operand::{Operand, Results, frame_value};
