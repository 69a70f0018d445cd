//! The call that an error names.
ghost use Rattle.std.specs.Prelude.{◌≡◌, ◌<◌, ◌+◌, ℕ, List, Option, Some, None, option_map, length, IfOk, OnOk};
ghost use Rattle.dx_graph.specs.Graph.{MayTake, node_at};
ghost use Rattle.dx_graph.specs.GraphView.{graph_of};
ghost use Rattle.dx_tags.specs.declared.term.Term.{Term};
ghost use Rattle.dx_meaning.specs.Scan.{Sight};
ghost use Rattle.dx_meaning.specs.Met.{first_place};
ghost use Rattle.dx_demand.specs.Memo.{answers_of, IsPort, MemoRight};
ghost use Rattle.dx_demand.specs.Terms.{AreExact};
ghost use Rattle.dx_demand.specs.Forming.{IsCallTag};
ghost use Rattle.dx_demand.specs.Steps.{SeenFits, SeenRight};
ghost use Rattle.dx_demand.specs.Calling.{IsValued, MemoMet, SeenMet, input_met};
ghost use Rattle.dx_demand.specs.Searching.{calls_at, under, first_of, own_node, first_by, with_call, met_by, place_of, Ground, AllMet, AllFresh, AllWithin};

use crate::seen::{Memo, Seen};
use crate::settled::{Answer, Port, Settled};
use crate::step::has_name;
use dx_ast::results;
use dx_base::Function;
use dx_graph::{Graph, Input};
use dx_tags::Tag;
use indexmap::IndexMap;
use std::alloc::{AllocError, Global};

/// What was found for an input.
fn call_under(i: &Input, found: &IndexMap<Port, u32>) -> Option<u32>
    ensures { result ≡ under (calls_at found.now) i.now }
{
    match i {
        Input::Constant(_) => None,
        Input::Result(node, result_number) => {
            let port = Port {
                node: *node,
                result: *result_number,
            };
            found.get(&port).copied()
        }
    }
}

/// What was found for the first input that anything was found for.
fn first_under(inputs: &[Input], found: &IndexMap<Port, u32>) -> Option<u32>
    ensures { result ≡ first_of (calls_at found.now) inputs.now }
{
    for i in inputs {
        if let Some(n) = call_under(i, found) {
            return Some(n);
        }
    }
    None
}

/// The node, where its value is a result of the term.
fn own_call(n: u32, a: Answer, t: Tag) -> Option<u32>
    ensures { result ≡ own_node n t a.settled }
{
    match a.settled {
        Settled::Value(v) => { if v.tag == t { Some(n) } else { None } }
        Settled::Off | Settled::Halt(_, _) => None,
    }
}

/// The first call of the term that the data of a settled port meets. The arguments of a module come before their call, and
/// the name of an Import doesn't count; of another call it is that of the input that gave its outcome.
fn first_call(g: &Graph, port: Port, a: Answer, t: Tag, found: &IndexMap<Port, u32>) -> Option<u32>
    requires port { port.node < length (graph_of g.now).nodes }
    ensures { result ≡ first_by (graph_of g.now).nodes (calls_at found.now) t port a }
{
    let node = g.node(port.node);
    let inputs = node.inputs.as_slice();
    match node.what {
        Function::Module(called) => {
            let values = if has_name(called) && inputs.len() > 0 {
                &inputs[1..]
            } else {
                inputs
            };
            match first_under(values, found) {
                Some(n) => Some(n),
                None => own_call(port.node, a, t),
            }
        }
        _ => match a.input {
            Some(k) => match inputs.get(k) {
                Some(i) => call_under(i, found),
                None => None,
            },
            None => None,
        },
    }
}

impl Memo {
    /// Finds the first call of the term for a port, if that is settled.
    fn meet_port(
        &self,
        g: &Graph,
        port: Port,
        t: Tag,
        found: &mut IndexMap<Port, u32>,
    ) -> Result<(), AllocError>
        requires port { port.node < length (graph_of g.now).nodes }
        ensures { OnOk result (calls_at found.new ≡ with_call (calls_at found.old) port (met_by (graph_of g.now).nodes (answers_of self.now) t port (calls_at found.old))) }
    {
        if let Some(a) = self.answer(port) {
            if let Some(n) = first_call(g, port, a, t, found) {
                found.insert(port, n)?;
            }
        }
        Ok(())
    }

    /// Finds it for each result of a node, whose inputs are done.
    fn meet_node(
        &self,
        g: &Graph,
        n: u32,
        t: Tag,
        found: &mut IndexMap<Port, u32>,
    ) -> Result<(), AllocError>
        requires node { n < length (graph_of g.now).nodes }
        ensures met { (s : Sight) (terms : List Term) (c : IsCallTag terms t) → Ground s (graph_of g.now).nodes terms self.now → AllMet s (graph_of g.now).nodes (answers_of self.now) c.call n (calls_at found.old) → AllFresh n (calls_at found.old) →
            OnOk result (AllMet s (graph_of g.now).nodes (answers_of self.now) c.call (n + 1) (calls_at found.new)) }
        ensures fresh { AllFresh n (calls_at found.old) → OnOk result (AllFresh (n + 1) (calls_at found.new)) }
        ensures within { AllWithin (length (graph_of g.now).nodes) (calls_at found.old) → OnOk result (AllWithin (length (graph_of g.now).nodes) (calls_at found.new)) }
    {
        for r in 0..results(g.node(n).what) {
            let port = Port { node: n, result: r };
            self.meet_port(g, port, t, found)?;
        }
        Ok(())
    }
}

impl Seen {
    /// The first call that the data of an input meets whose term has this tag; None exactly where there is none. The
    /// arguments of a module come in order and before their call, taken as if no error ended them, and the name of an Import
    /// doesn't count at any depth; another call is passed to the input that gave its outcome. The input was resolved to a
    /// value.
    pub fn call_of(
        &self,
        alloc: Global,
        g: &Graph,
        i: &Input,
        t: Tag,
    ) -> Result<Option<u32>, AllocError>
        requires input { MayTake (graph_of g.now).nodes (length (graph_of g.now).nodes) i.now }
        requires valued { IsValued (answers_of self.now.memo) i.now }
        ensures within { IfOk result (λ found. (n : ℕ) → found ≡ Some n → n < length (graph_of g.now).nodes) }
        ensures first { (s : Sight) (terms : List Term) (c : IsCallTag terms t) → AreExact terms → SeenFits (graph_of g.now).nodes terms self.now → SeenRight s (graph_of g.now).nodes terms self.now → SeenMet s (graph_of g.now).nodes self.now →
            IfOk result (λ n. place_of (graph_of g.now).nodes n ≡ first_place (input_met s (graph_of g.now).nodes i.now) c.call) }
    {
        match i {
            Input::Constant(_) => Ok(None),
            Input::Result(node, result_number) => {
                let mut found = IndexMap::new(alloc);
                for n in 0..*node {
                    self.memo.meet_node(g, n, t, &mut found)?;
                }
                let port = Port {
                    node: *node,
                    result: *result_number,
                };
                self.memo.meet_port(g, port, t, &mut found)?;
                Ok(call_under(i, &found))
            }
        }
    }
}
