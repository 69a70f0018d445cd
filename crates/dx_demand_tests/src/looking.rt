//! Inputs of an effect that are resolved, with a value told for each selector in turn.
ghost use Rattle.std.specs.Prelude.{◌≡◌, ◌<◌, All, length, IfOk, OnOk};
ghost use Rattle.dx_graph.specs.Graph.{MayTake};
ghost use Rattle.dx_graph.specs.GraphView.{graph_of};
ghost use Rattle.dx_demand.specs.Calling.{IsValued, ResolvedValued};
ghost use Rattle.dx_demand.specs.Memo.{answers_of};
ghost use Rattle.dx_demand.specs.Steps.{SeenFits};
ghost use Rattle.dx_demand_tests.specs.Linked.{AreLinked};

use crate::shown::{put_met, put_resolved, put_terms};
use crate::told::{Tell, Told};
use dx_demand::{Resolved, Seen, resolve};
use dx_graph::{Graph, Input};
use dx_links::Links;
use dx_tags::{Tags, Written};
use std::alloc::{AllocError, Global};

/// What stood there before the execution.
#[derive(Drop)]
pub struct Before {
    pub links: Links,
    pub written: Written,
}

/// Tells the value of the selector that is needed, if one is and there is a value left.
fn tell_next(
    alloc: Global,
    r: Resolved,
    told: &mut Told,
    tells: &[Tell],
) -> Result<(), AllocError> {
    if let Resolved::Need(t, _) = r {
        if let Some(tell) = tells.get(told.count()) {
            told.tell(alloc, t, *tell)?;
        }
    }
    Ok(())
}

/// Resolves an input once, and tells the value of the selector that is needed.
fn look_once(
    alloc: Global,
    g: &Graph,
    i: &Input,
    before: &Before,
    tags: &mut Tags,
    seen: &mut Seen,
    told: &mut Told,
    tells: &[Tell],
    out: &mut Vec<u8>,
) -> Result<Resolved, AllocError>
    requires input { MayTake (graph_of g.now).nodes (length (graph_of g.now).nodes) i.now }
    requires linked { AreLinked tags.old before.now.links.links }
    requires seen { SeenFits (graph_of g.now).nodes tags.old seen.old }
    ensures linked { OnOk result (AreLinked tags.new before.now.links.links) }
    ensures seen { OnOk result (SeenFits (graph_of g.now).nodes tags.new seen.new) }
    ensures valued { IfOk result (λ r. ResolvedValued (answers_of seen.new.memo) i.now r) }
{
    let resolved = resolve(
        alloc,
        g,
        i,
        &before.links,
        &before.written,
        tags,
        seen,
        told,
    )?;
    put_resolved(alloc, g, resolved, out)?;
    tell_next(alloc, resolved, told, tells)?;
    Ok(resolved)
}

/// Writes the calls that the data of an input meets first with each term.
fn put_calls(
    alloc: Global,
    g: &Graph,
    i: &Input,
    tags: &Tags,
    seen: &Seen,
    out: &mut Vec<u8>,
) -> Result<(), AllocError>
    requires input { MayTake (graph_of g.now).nodes (length (graph_of g.now).nodes) i.now }
    requires valued { IsValued (answers_of seen.now.memo) i.now }
{
    for tag in 0..tags.count() {
        if let Some(n) = seen.call_of(alloc, g, i, tag)? {
            put_met(alloc, g, tag, n, out)?;
        }
    }
    Ok(())
}

/// Resolves an input until no value is needed, or none is told any more.
fn look(
    alloc: Global,
    g: &Graph,
    i: &Input,
    before: &Before,
    tags: &mut Tags,
    seen: &mut Seen,
    told: &mut Told,
    tells: &[Tell],
    out: &mut Vec<u8>,
) -> Result<Resolved, AllocError>
    requires input { MayTake (graph_of g.now).nodes (length (graph_of g.now).nodes) i.now }
    requires linked { AreLinked tags.old before.now.links.links }
    requires seen { SeenFits (graph_of g.now).nodes tags.old seen.old }
    ensures linked { OnOk result (AreLinked tags.new before.now.links.links) }
    ensures seen { OnOk result (SeenFits (graph_of g.now).nodes tags.new seen.new) }
    ensures valued { IfOk result (λ r. ResolvedValued (answers_of seen.new.memo) i.now r) }
{
    'turns: for _ in tells {
        let resolved = look_once(alloc, g, i, before, tags, seen, told, tells, out)?;
        if !matches!(&resolved, Resolved::Need(_, _)) {
            return Ok(resolved);
        }
    }
    look_once(alloc, g, i, before, tags, seen, told, tells, out)
}

/// Resolves an input, and writes the calls that it meets.
fn look_and_meet(
    alloc: Global,
    g: &Graph,
    i: &Input,
    before: &Before,
    tags: &mut Tags,
    seen: &mut Seen,
    told: &mut Told,
    tells: &[Tell],
    out: &mut Vec<u8>,
) -> Result<(), AllocError>
    requires input { MayTake (graph_of g.now).nodes (length (graph_of g.now).nodes) i.now }
    requires linked { AreLinked tags.old before.now.links.links }
    requires seen { SeenFits (graph_of g.now).nodes tags.old seen.old }
    ensures linked { OnOk result (AreLinked tags.new before.now.links.links) }
    ensures seen { OnOk result (SeenFits (graph_of g.now).nodes tags.new seen.new) }
{
    match look(alloc, g, i, before, tags, seen, told, tells, out)? {
        Resolved::Value(_) => put_calls(alloc, g, i, tags, seen, out),
        _ => Ok(()),
    }
}

/// Writes what inputs come to in order, and then the terms that are new.
fn look_all(
    alloc: Global,
    g: &Graph,
    inputs: &[Input],
    before: &Before,
    tags: &mut Tags,
    tells: &[Tell],
    out: &mut Vec<u8>,
) -> Result<(), AllocError>
    requires inputs { All (MayTake (graph_of g.now).nodes (length (graph_of g.now).nodes)) inputs.now }
    requires linked { AreLinked tags.old before.now.links.links }
{
    let first = tags.count();
    let mut seen = Seen::new(alloc, g)?;
    let mut told = Told::new(alloc);
    'inputs: for i in inputs {
        if out.len() > 0 {
            out.extend_from_slice(b", ")?;
        }
        look_and_meet(alloc, g, i, before, tags, &mut seen, &mut told, tells, out)?;
    }
    put_terms(alloc, g, first, tags, &seen, out)
}

/// The inputs of the last effect of a graph, if there is one.
fn last_inputs(g: &Graph) -> &[Input]
    ensures { All (MayTake (graph_of g.now).nodes (length (graph_of g.now).nodes)) result.now }
{
    if let Some(n) = g.effects().last() {
        if *n < g.len() {
            return inputs_at(g, *n);
        }
    }
    &[]
}

fn inputs_at(g: &Graph, n: u32) -> &[Input]
    requires { n < length (graph_of g.now).nodes }
    ensures { All (MayTake (graph_of g.now).nodes (length (graph_of g.now).nodes)) result.now }
{
    let node = g.node(n);
    node.inputs.as_slice()
}

/// Writes what the inputs of the last effect of a graph come to, each needed selector being told the next of these values, and then the
/// terms that are new.
pub fn look_at(
    alloc: Global,
    g: &Graph,
    before: &Before,
    tags: &mut Tags,
    tells: &[Tell],
    out: &mut Vec<u8>,
) -> Result<(), AllocError>
    requires linked { AreLinked tags.old before.now.links.links }
{
    look_all(alloc, g, last_inputs(g), before, tags, tells, out)
}

/// How many terms looking at the first input of the last effect forms, where the selector that is needed is told this value.
pub fn count_terms(
    alloc: Global,
    g: &Graph,
    before: &Before,
    tags: &mut Tags,
    tell: Tell,
) -> Result<u64, AllocError>
    requires linked { AreLinked tags.old before.now.links.links }
{
    let mut out = Vec::new(alloc);
    if let Some(i) = last_inputs(g).first() {
        let mut seen = Seen::new(alloc, g)?;
        let mut told = Told::new(alloc);
        look(
            alloc,
            g,
            i,
            before,
            tags,
            &mut seen,
            &mut told,
            &[tell],
            &mut out,
        )?;
    }
    Ok(tags.count())
}
