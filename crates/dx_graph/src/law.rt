//! What holds of every graph, whatever it stands for.
ghost use Rattle.std.specs.Prelude.{ℕ, ◌≤◌, List, length};
ghost use Rattle.dx_ast.specs.Lawful.{IsLawfulConst};
ghost use Rattle.dx_graph.specs.Sites.{max_site_bytes, automatic_name};
ghost use Rattle.dx_graph.specs.Graph.{Node, AreNodes};
ghost use Rattle.dx_graph.specs.Unfolding.{UnfoldByInputs};

/// In each graph a node stands for the call of its function at what its inputs stand for: a constant for itself, and a
/// result of an earlier node for that result of the call that this node stands for.
pub fn nodes_unfold_by_inputs()
    ensures { (nodes : List Node) → AreNodes nodes → UnfoldByInputs nodes }
{}

/// `#` and the text of a site are a constant that a script can have: the name of a link that has none of its own.
pub fn automatic_names_are_lawful()
    ensures { (site : List ℕ) → length site ≤ max_site_bytes → IsLawfulConst (automatic_name site) }
{}
