//! What stays the same through an execution.

use dx_getting::Bound;
use dx_graph::Graph;
use dx_links::Links;
use dx_tags::Written;
use std::alloc::Global;

/// The graph, the links with the values that were held at the last emptying, the values of links by their terms, and the files
/// that earlier executions wrote.
#[derive(Drop)]
pub struct Setup<'a> {
    pub alloc: Global,
    pub graph: &'a Graph,
    pub links: &'a Links,
    pub bound: &'a Bound,
    pub written: &'a Written,
}
