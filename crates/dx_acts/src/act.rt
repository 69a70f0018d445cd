//! The acts of effects.
ghost use Rattle.std.specs.Prelude.{◌≡◌, ◌<◌, length};
ghost use Rattle.dx_graph.specs.Graph.{node_at};
ghost use Rattle.dx_graph.specs.GraphView.{graph_of};
ghost use Rattle.dx_performing.specs.Acts.{act};
ghost use Rattle.dx_acts.specs.Answers.{AreValues, DoesSo};

use crate::export::export_of;
use crate::set::{set_global, set_local};
use dx_base::{Bytes, Effect};
use dx_graph::Graph;
use dx_links::Key;
use dx_objects::{Object, Outs, RunFail, Value};
use dx_print::{echo_text, print_text};
use std::alloc::Global;
use std::rc::Rc;

/// What an effect does: it prints a text, puts an object under a name, or sets what a key of links holds, nothing where that is
/// NULL.
#[derive(Drop)]
pub enum Act {
    Prints(Bytes),
    Puts(Bytes, Rc<Object>),
    Sets(Key, Value),
}

/// What node number n of a graph does, which is this effect, with the values of its arguments, or the code with which it
/// refuses them. The first argument that doesn't fit decides, in their order; a local link stands under the path of its Set
/// (User's Reference, Print, Echo, Export, SetLocal, SetGlobal).
pub fn act_of(
    alloc: Global,
    g: &Graph,
    n: u32,
    effect: Effect,
    values: &Outs,
) -> Result<Act, RunFail>
    requires node { n < length (graph_of g.now).nodes }
    requires values { AreValues effect values.now }
    ensures { DoesSo (act effect (node_at (graph_of g.now).nodes n).place values.now) result }
{
    match effect {
        Effect::Print => Ok(Act::Prints(print_text(alloc, values)?)),
        Effect::Echo => Ok(Act::Prints(echo_text(alloc, values)?)),
        Effect::Export => export_of(alloc, values),
        Effect::SetLocal => set_local(alloc, g, n, values),
        Effect::SetGlobal => set_global(alloc, values),
    }
}
