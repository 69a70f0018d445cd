//! Graphs of calls: what is asked of them, and how they grow.
ghost use Rattle.std.specs.Prelude.{◌≡◌, ◌<◌, ◌≤◌, ◌^◌, ◌++◌, ◌∷◌, [], length, take, IfOk, OnOk, OnErr};
ghost use Rattle.dx_ast.specs.Limits.{max_walk_calls};
ghost use Rattle.dx_macros.specs.Site.{steps_text, Nth, Target};
ghost use Rattle.dx_macros.specs.Expansion.{spot_of_call};
ghost use Rattle.dx_graph.specs.Trails.{spot_under, IsTrail};
ghost use Rattle.dx_graph.specs.Sites.{max_site_bytes};
ghost use Rattle.dx_graph.specs.Graph.{no_nodes, node_of, node_at, with_node, with_effects, IsNode, IsEffectNode, IsGraph};
ghost use Rattle.dx_graph.specs.Shown.{own, graph_with, ArePlaced};

use crate::node::{Inputs, Node, Placed};
use crate::trail::Trail;
use crate::trails::Trails;
use dx_ast::name;
use dx_base::{Bytes, Function};
use dx_macros::{SiteStep, site_text};
use std::alloc::{AllocError, Global};

/// A graph of calls. Nodes are numbered from 0, and a node takes results of earlier nodes alone.
#[derive(Drop)]
pub struct Graph {
    nodes: Vec<Placed>,
    trails: Trails,
    effects: Vec<u32>,
    ghost few: { length nodes.items < 2 ^ 32 },
    ghost placed: { ArePlaced (length trails) nodes.items },
    pub ghost lawful: { ∥ IsGraph (graph_with trails nodes.items effects.items) ∥₁ },
}

/// What is asked of a graph.
impl Graph {
    ghost use Rattle.dx_graph.specs.GraphView.{graph_of};

    /// How many nodes there are.
    pub fn len(&self) -> u32
        ensures { result ≡ length (graph_of self.now).nodes }
    {
        self.nodes.len() as u32
    }

    /// Node number n.
    pub fn node(&self, n: u32) -> &Node
        requires { n < length (graph_of self.now).nodes }
        ensures { result.now ≡ own (node_at (graph_of self.now).nodes n) }
    {
        &self.nodes[n as usize].node
    }

    /// The numbers of the nodes that are the effects of the statement, in order.
    pub fn effects(&self) -> &[u32]
        ensures { result.now ≡ (graph_of self.now).effects }
    {
        self.effects.as_slice()
    }

    /// The text of the site of node number n: the steps that lead to the call, and its own, joined by `/`. At most 66
    /// steps of a lawful name and a number each, so at most 18,282 bytes.
    pub fn site(&self, alloc: Global, n: u32) -> Result<Bytes, AllocError>
        requires { n < length (graph_of self.now).nodes }
        ensures text { IfOk result (λ text. text ≡ steps_text (node_at (graph_of self.now).nodes n).place.site) }
        ensures bound { IfOk result (λ text. length text ≤ max_site_bytes) }
    {
        let placed = &self.nodes[n as usize];
        let mut steps = self.trails.base(alloc, placed.trail)?;
        steps.push(SiteStep::Nth(name(placed.called), placed.k))?;
        site_text(alloc, steps.as_slice())
    }

    /// The text of the path of node number n: those of the steps of its site that are calls of macros, joined by `/`.
    pub fn path(&self, alloc: Global, n: u32) -> Result<Bytes, AllocError>
        requires { n < length (graph_of self.now).nodes }
        ensures { IfOk result (λ text. text ≡ steps_text (node_at (graph_of self.now).nodes n).place.path) }
    {
        let steps = self.trails.path(alloc, self.nodes[n as usize].trail)?;
        site_text(alloc, steps.as_slice())
    }
}

/// How a graph grows while a statement is expanded. Where memory runs out it stays as it was.
impl Graph {
    ghost use Rattle.dx_graph.specs.GraphView.{graph_of, spots_in};

    /// The graph without nodes and trails, which takes no memory.
    pub fn new(alloc: Global) -> Graph
        ensures graph { graph_of result ≡ no_nodes }
        ensures spots { spots_in result ≡ [] }
    {
        Graph {
            nodes: Vec::new(alloc),
            trails: Trails::new(alloc),
            effects: Vec::new(alloc),
        }
    }

    /// The graph without nodes and trails, with room for so many nodes, of which each can be an effect.
    pub fn with_capacity(alloc: Global, count: usize) -> Result<Graph, AllocError>
        ensures graph { IfOk result (λ g. graph_of g ≡ no_nodes) }
        ensures spots { IfOk result (λ g. spots_in g ≡ []) }
    {
        let nodes = Vec::with_capacity(alloc, count)?;
        let effects = Vec::with_capacity(alloc, count)?;
        Ok(Graph {
            nodes,
            trails: Trails::new(alloc),
            effects,
        })
    }

    /// A trail at the end: the text of an assignment at the top level with this first target.
    pub fn target(&mut self, alloc: Global, name: &[u8]) -> Result<usize, AllocError>
        ensures number { IfOk result (λ t. t ≡ length (spots_in self.old)) }
        ensures ok { OnOk result (spots_in self.new ≡ spots_in self.old ++ record { base = Target name.now ∷ []; path = [] } ∷ []) }
        ensures err { OnErr result (spots_in self.new ≡ spots_in self.old) }
        ensures graph { graph_of self.new ≡ graph_of self.old }
    {
        let name = Bytes::copy_of(alloc, name)?;
        self.trails.push(Trail::Target(name))
    }

    /// A trail at the end: the body of a macro of this name at its k-th call in the text of the trail `parent`.
    pub fn step(
        &mut self,
        alloc: Global,
        parent: Option<usize>,
        name: &[u8],
        k: usize,
    ) -> Result<usize, AllocError>
        requires { IsTrail (length (spots_in self.old)) parent }
        ensures number { IfOk result (λ t. t ≡ length (spots_in self.old)) }
        ensures ok { OnOk result (spots_in self.new ≡ spots_in self.old ++ spot_of_call (spot_under (spots_in self.old) parent) (Nth name.now k) ∷ []) }
        ensures err { OnErr result (spots_in self.new ≡ spots_in self.old) }
        ensures graph { graph_of self.new ≡ graph_of self.old }
    {
        let name = Bytes::copy_of(alloc, name)?;
        self.trails.push(Trail::Macro(parent, name, k))
    }

    /// A node at the end, and its number: the k-th call of a function in the text of a trail. A graph has at most as many nodes as a
    /// walk may come by calls, so each has a number.
    pub fn call(
        &mut self,
        called: Function,
        inputs: Inputs,
        cache: u8,
        trail: Option<usize>,
        k: usize,
    ) -> Result<u32, AllocError>
        requires few { length (graph_of self.old).nodes < max_walk_calls }
        requires trail { IsTrail (length (spots_in self.old)) trail }
        requires node { IsNode (graph_of self.old).nodes (length (graph_of self.old).nodes) (node_of (spot_under (spots_in self.old) trail) called called inputs cache k) }
        ensures number { IfOk result (λ n. n ≡ length (graph_of self.old).nodes) }
        ensures ok { OnOk result (graph_of self.new ≡ with_node (node_of (spot_under (spots_in self.old) trail) called called inputs cache k) (graph_of self.old)) }
        ensures err { OnErr result (graph_of self.new ≡ graph_of self.old) }
        ensures spots { spots_in self.new ≡ spots_in self.old }
    {
        let number = self.nodes.len() as u32;
        self.nodes.push(Placed {
            node: Node {
                what: called,
                inputs,
                cache,
            },
            called,
            trail,
            k,
        })?;
        Ok(number)
    }

    /// Node number n is the next effect.
    pub fn effect(&mut self, n: u32) -> Result<(), AllocError>
        requires { IsEffectNode (graph_of self.old).nodes n }
        ensures ok { OnOk result (graph_of self.new ≡ with_effects ((graph_of self.old).effects ++ n ∷ []) (graph_of self.old)) }
        ensures err { OnErr result (graph_of self.new ≡ graph_of self.old) }
        ensures spots { spots_in self.new ≡ spots_in self.old }
    {
        self.effects.push(n)?;
        Ok(())
    }

    /// The effects behind the first `count` of them are effects no more; their nodes stay.
    pub fn forget_effects(&mut self, count: usize)
        ensures graph { graph_of self.new ≡ with_effects (take count (graph_of self.old).effects) (graph_of self.old) }
        ensures spots { spots_in self.new ≡ spots_in self.old }
    {
        self.effects.truncate(count);
    }
}
