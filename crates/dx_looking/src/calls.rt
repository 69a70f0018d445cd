//! The calls that were formed, with their sites.
ghost use Rattle.std.specs.Prelude.{◌≡◌, ◌<◌, ℕ, Some, length};
ghost use Rattle.dx_graph.specs.GraphView.{graph_of};
ghost use Rattle.dx_demand.specs.Memo.{formed_of};
ghost use Rattle.dx_resuming.specs.Formed.{formed_in};

use dx_demand::Seen;
use dx_getting::{Called, Sites};
use dx_graph::Graph;
use dx_tags::Tag;
use std::alloc::{AllocError, Global};

/// The nodes of a graph that formed their calls' terms first.
#[derive(Drop)]
pub struct Calls<'a> {
    pub graph: &'a Graph,
    pub seen: &'a Seen,
    pub ghost within: { (t n : ℕ) → formed_of seen.now.memo t ≡ Some n → n < length (graph_of graph.now).nodes },
}

impl Sites for Calls<'_> {
    ghost use Rattle.dx_graph.specs.GraphView.{graph_of};
    ghost use Rattle.dx_resuming.specs.Formed.{formed_in};

    ghost formed = { λ c. formed_in (graph_of c.graph.now).nodes c.seen.now.memo.formed.entries };

    fn called(&self, alloc: Global, tag: Tag) -> Result<Option<Called>, AllocError> {
        match self.seen.node_of(tag) {
            None => Ok(None),
            Some(n) => {
                let site = self.graph.site(alloc, n)?;
                Ok(Some(Called {
                    site,
                    attribute: self.graph.node(n).cache,
                }))
            }
        }
    }
}
