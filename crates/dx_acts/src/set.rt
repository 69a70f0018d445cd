//! SetLocal and SetGlobal: an object or NULL, and the name of a link.
ghost use Rattle.std.specs.Prelude.{◌≡◌, ◌<◌, length};
ghost use Rattle.dx_graph.specs.Graph.{node_at};
ghost use Rattle.dx_graph.specs.GraphView.{graph_of};
ghost use Rattle.dx_links.specs.declared.key.Key.TheVariants as key;
ghost use Rattle.dx_meaning.specs.Picking.{key_in};
ghost use Rattle.dx_objects.specs.Values.{value_of};
ghost use Rattle.std.specs.Prelude.{IfOk};
ghost use Rattle.dx_performing.specs.Acts as spec;
ghost use Rattle.dx_acts.specs.Answers.{DoesSo};

use crate::act::Act;
use crate::export::text_in;
use dx_base::{Bytes, Code};
use dx_graph::Graph;
use dx_links::Key;
use dx_objects::{Outs, RunFail, Value};
use std::alloc::{AllocError, Global};

// The same value, which shares its object.
fn copy_of(value: &Value) -> Result<Value, AllocError>
    ensures { IfOk result (λ v. value_of v ≡ value_of value.now) }
{
    match value {
        None => Ok(None),
        Some(object) => Ok(Some(object.clone()?)),
    }
}

/// What is kept under the path of node number n.
pub(crate) fn set_local(alloc: Global, g: &Graph, n: u32, values: &Outs) -> Result<Act, RunFail>
    requires node { n < length (graph_of g.now).nodes }
    requires two { length values.now ≡ 2 }
    ensures { DoesSo (spec.set_of (key_in (node_at (graph_of g.now).nodes n).place) values.now) result }
{
    let [value, link] = values.as_slice() else {
        unreachable!()
    };
    match text_in(link) {
        None => Err(RunFail::Code(Code::BadArgument)),
        Some(name) => {
            let key = Key::Local(g.path(alloc, n)?, Bytes::copy_of(alloc, name)?);
            Ok(Act::Sets(key, copy_of(value)?))
        }
    }
}

/// What is kept under a global name.
pub(crate) fn set_global(alloc: Global, values: &Outs) -> Result<Act, RunFail>
    requires { length values.now ≡ 2 }
    ensures { DoesSo (spec.set_of key.Global values.now) result }
{
    let [value, link] = values.as_slice() else {
        unreachable!()
    };
    match text_in(link) {
        None => Err(RunFail::Code(Code::BadArgument)),
        Some(name) => {
            let key = Key::Global(Bytes::copy_of(alloc, name)?);
            Ok(Act::Sets(key, copy_of(value)?))
        }
    }
}
