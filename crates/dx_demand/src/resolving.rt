//! Resolving an input: a loop of steps along the way to the port that is looked at.
ghost use Rattle.dx_demand.specs.Terms.{AreExact};
ghost use Rattle.std.specs.Prelude.{◌≡◌, ◌<◌, ℕ, List, None, length, slice_index_or, [], ◌∷◌, IfOk, OnOk};
ghost use Rattle.dx_graph.specs.Graph.{Node, MayTake};
ghost use Rattle.dx_graph.specs.GraphView.{graph_of};
ghost use Rattle.dx_tags.specs.declared.term.Term.{Term};
ghost use Rattle.dx_tags.specs.Closed.{GoesOn};
ghost use Rattle.dx_meaning.specs.Scan.{Sight};
ghost use Rattle.dx_demand.specs.Memo.{Answers, answers_of, KeepsAnswers, input_at, formed_of, IsPort, input_scan, port_scan, shown, SettledFits, EmptyMemo};
ghost use Rattle.dx_demand.specs.Picked.{LinksFit};
ghost use Rattle.dx_meaning.specs.Forming.{after};
ghost use Rattle.dx_demand.specs.Calling.{SeenMet, KnownValued, ResolvedValued};
ghost use Rattle.dx_demand.specs.Halting.{HaltsAt};
ghost use Rattle.dx_demand.specs.declared.step.Known.TheVariants as known;
ghost use Rattle.dx_graph.specs.declared.node.Input.{Input};
ghost use Rattle.dx_demand.specs.Forming.{formings, input_forms, port_forms, SeenFormed};
ghost use Rattle.dx_demand.specs.Found.{Kept, SettledFound, ResolvedFound, IsClosed};
ghost use Rattle.dx_links.specs.LinkMap.{LinkMap};
ghost use Rattle.dx_demand.specs.Steps.{Sees, SeenFits, SeenRight, KeepsSelectors, ResolvedFits, shown_resolved};

use crate::given::Given;
use crate::seen::{Frame, Memo, Seen, pop_frame, push_frame, top_of};
use crate::settled::{Port, Resolved, Settled};
use crate::step::{Step, constant_tag, next_step};
use dx_graph::{Graph, Input};
use dx_links::Links;
use dx_tags::{Tags, ValueTag, ValueTags, Written};
use indexmap::IndexMap;
use std::alloc::{AllocError, Global};
use std::mem;

impl Seen {
    /// Nothing of no graph, which takes no memory.
    pub fn none(alloc: Global) -> Seen
        ensures uncalled { result.memo.formed.entries ≡ [] }
        ensures unasked { result.stack.items ≡ [] }
    {
        Seen {
            memo: Memo {
                answers: IndexMap::new(alloc),
                selectors: Vec::new(alloc),
                formed: IndexMap::new(alloc),
            },
            stack: Vec::new(alloc),
        }
    }

    /// Nothing is resolved of the graph yet.
    pub fn new(alloc: Global, g: &Graph) -> Result<Seen, AllocError>
        ensures fits { (terms : List Term) → IfOk result (λ seen. SeenFits (graph_of g.now).nodes terms seen) }
        ensures right { (s : Sight) (terms : List Term) → IfOk result (λ seen. SeenRight s (graph_of g.now).nodes terms seen) }
        ensures closed { (links : LinkMap) (terms : List Term) → IfOk result (λ seen. IsClosed links terms seen) }
        ensures formed { (s : Sight) (terms : List Term) → IfOk result (λ seen. SeenFormed s (graph_of g.now).nodes terms seen) }
        ensures met { (s : Sight) → IfOk result (λ seen. SeenMet s (graph_of g.now).nodes seen) }
        ensures uncalled { IfOk result (λ seen. seen.memo.formed.entries ≡ []) }
        ensures none { IfOk result (λ seen. (t : ℕ) → formed_of seen.memo t ≡ None) }
    {
        let mut seen = Seen::none(alloc);
        seen.restart(alloc, g)?;
        Ok(seen)
    }

    /// Nothing is resolved of the graph yet, and what was seen of another one is gone.
    pub fn restart(&mut self, alloc: Global, g: &Graph) -> Result<(), AllocError>
        ensures fits { (terms : List Term) → OnOk result (SeenFits (graph_of g.now).nodes terms self.new) }
        ensures right { (s : Sight) (terms : List Term) → OnOk result (SeenRight s (graph_of g.now).nodes terms self.new) }
        ensures closed { (links : LinkMap) (terms : List Term) → OnOk result (IsClosed links terms self.new) }
        ensures formed { (s : Sight) (terms : List Term) → OnOk result (SeenFormed s (graph_of g.now).nodes terms self.new) }
        ensures met { (s : Sight) → OnOk result (SeenMet s (graph_of g.now).nodes self.new) }
        ensures uncalled { OnOk result (self.new.memo.formed.entries ≡ []) }
        ensures none { OnOk result ((t : ℕ) → formed_of self.new.memo t ≡ None) }
    {
        restart_memo(alloc, &mut self.memo, g)?;
        self.stack.clear();
        Ok(())
    }
}

fn restart_memo(alloc: Global, memo: &mut Memo, g: &Graph) -> Result<(), AllocError>
    ensures { OnOk result (EmptyMemo (length (graph_of g.now).nodes) memo.new) }
{
    no_selectors(&mut memo.selectors, g.len())?;
    memo.answers = IndexMap::new(alloc);
    memo.formed = IndexMap::new(alloc);
    Ok(())
}

/// No selectors, with room for so many.
fn room_for(selectors: &mut Vec<Option<ValueTag>>, count: u32) -> Result<(), AllocError>
    ensures { selectors.new.items ≡ [] }
{
    selectors.clear();
    selectors.reserve(count as usize)
}

/// So many selectors without terms.
fn no_selectors(selectors: &mut Vec<Option<ValueTag>>, count: u32) -> Result<(), AllocError>
    ensures none { OnOk result ((n : ℕ) → slice_index_or selectors.new.items n None ≡ None) }
    ensures places { OnOk result (length selectors.new.items ≡ count) }
{
    room_for(selectors, count)?;
    for _ in 0..count {
        selectors.push(None)?;
    }
    Ok(())
}

fn resolved(settled: Settled) -> Resolved
    ensures right { (nodes : _) (terms : _) → shown_resolved nodes terms result ≡ shown nodes terms settled }
    ensures fits { (nodes : _) (terms : _) (given : _) (m : _) → SettledFits nodes terms settled → ResolvedFits nodes terms given m result }
    ensures found { (l : _) (terms : _) (first : _) → SettledFound l terms first settled → ResolvedFound l terms first result }
    ensures halts { (s : Sight) (nodes : List Node) (i : Input) → HaltsAt s nodes i result }
    ensures valued { (answers : Answers) (i : Input) → KnownValued answers i (known.Settled settled) → ResolvedValued answers i result }
{
    match settled {
        Settled::Value(t) => Resolved::Value(t),
        Settled::Off => Resolved::Off,
        Settled::Halt(n, code) => Resolved::Halt(n, code),
    }
}

/// What an input comes to by the values that are given: the term of its value, or that it takes no part, or the next
/// selector whose value is needed. Where more values are given it goes on from there.
pub fn resolve<G: Given>(
    alloc: Global,
    g: &Graph,
    i: &Input,
    links: &Links,
    written: &Written,
    tags: &mut Tags,
    seen: &mut Seen,
    given: &G,
) -> Result<Resolved, AllocError>
    requires input { MayTake (graph_of g.now).nodes (length (graph_of g.now).nodes) i.now }
    requires formed { AreExact tags.old }
    requires links { LinksFit tags.old links.now.links }
    requires seen { SeenFits (graph_of g.now).nodes tags.old seen.old }
    ensures formed { AreExact tags.new }
    ensures goes_on { GoesOn tags.old tags.new }
    ensures seen { OnOk result (SeenFits (graph_of g.now).nodes tags.new seen.new) }
    ensures kept { OnOk result (KeepsSelectors seen.old.memo seen.new.memo) }
    ensures answers { OnOk result (KeepsAnswers (answers_of seen.old.memo) (answers_of seen.new.memo)) }
    ensures fits { IfOk result (λ r. ResolvedFits (graph_of g.now).nodes tags.new (G.told given.now) seen.new.memo r) }
    ensures seen_right { (s : Sight) → Sees (G.told given.now) links.now.links written.now.files tags.new s → SeenRight s (graph_of g.now).nodes tags.old seen.old → OnOk result (SeenRight s (graph_of g.now).nodes tags.new seen.new) }
    ensures right { (s : Sight) → Sees (G.told given.now) links.now.links written.now.files tags.new s → SeenRight s (graph_of g.now).nodes tags.old seen.old → IfOk result (λ r. input_scan s (graph_of g.now).nodes i.now ≡ shown_resolved (graph_of g.now).nodes tags.new r) }
    ensures closed { IsClosed links.now.links tags.old seen.old → OnOk result (IsClosed links.now.links tags.new seen.new) }
    ensures found { IsClosed links.now.links tags.old seen.old → IfOk result (λ r. ResolvedFound links.now.links tags.new (formed_of seen.new.memo) r) }
    ensures first { OnOk result (Kept (formed_of seen.old.memo) (formed_of seen.new.memo)) }
    ensures seen_formed { (s : Sight) → Sees (G.told given.now) links.now.links written.now.files tags.new s → SeenRight s (graph_of g.now).nodes tags.old seen.old → SeenFormed s (graph_of g.now).nodes tags.old seen.old → OnOk result (SeenFormed s (graph_of g.now).nodes tags.new seen.new) }
    ensures forms { (s : Sight) → Sees (G.told given.now) links.now.links written.now.files tags.new s → SeenRight s (graph_of g.now).nodes tags.old seen.old → SeenFormed s (graph_of g.now).nodes tags.old seen.old → OnOk result (formings (graph_of g.now).nodes tags.new seen.new.memo ≡ after (input_forms s (graph_of g.now).nodes i.now) (formings (graph_of g.now).nodes tags.old seen.old.memo)) }
    ensures seen_met { (s : Sight) → Sees (G.told given.now) links.now.links written.now.files tags.new s → SeenRight s (graph_of g.now).nodes tags.old seen.old → SeenMet s (graph_of g.now).nodes seen.old → OnOk result (SeenMet s (graph_of g.now).nodes seen.new) }
    ensures valued { IfOk result (λ r. ResolvedValued (answers_of seen.new.memo) i.now r) }
    ensures halted { (s : Sight) → Sees (G.told given.now) links.now.links written.now.files tags.new s → SeenRight s (graph_of g.now).nodes tags.old seen.old → IfOk result (λ r. HaltsAt s (graph_of g.now).nodes i.now r) }
{
    match i {
        Input::Constant(c) => {
            let t = constant_tag(tags, c.share()?)?;
            Ok(Resolved::Value(t))
        }
        Input::Result(node, result_number) => {
            let port = Port {
                node: *node,
                result: *result_number,
            };
            resolve_port(alloc, g, port, links, written, tags, seen, given)
        }
    }
}

fn resolve_port<G: Given>(
    alloc: Global,
    g: &Graph,
    root: Port,
    links: &Links,
    written: &Written,
    tags: &mut Tags,
    seen: &mut Seen,
    given: &G,
) -> Result<Resolved, AllocError>
    requires port { IsPort (graph_of g.now).nodes root }
    requires formed { AreExact tags.old }
    requires links { LinksFit tags.old links.now.links }
    requires seen { SeenFits (graph_of g.now).nodes tags.old seen.old }
    ensures formed { AreExact tags.new }
    ensures goes_on { GoesOn tags.old tags.new }
    ensures seen { OnOk result (SeenFits (graph_of g.now).nodes tags.new seen.new) }
    ensures kept { OnOk result (KeepsSelectors seen.old.memo seen.new.memo) }
    ensures answers { OnOk result (KeepsAnswers (answers_of seen.old.memo) (answers_of seen.new.memo)) }
    ensures fits { IfOk result (λ r. ResolvedFits (graph_of g.now).nodes tags.new (G.told given.now) seen.new.memo r) }
    ensures seen_right { (s : Sight) → Sees (G.told given.now) links.now.links written.now.files tags.new s → SeenRight s (graph_of g.now).nodes tags.old seen.old → OnOk result (SeenRight s (graph_of g.now).nodes tags.new seen.new) }
    ensures right { (s : Sight) → Sees (G.told given.now) links.now.links written.now.files tags.new s → SeenRight s (graph_of g.now).nodes tags.old seen.old → IfOk result (λ r. port_scan s (graph_of g.now).nodes root ≡ shown_resolved (graph_of g.now).nodes tags.new r) }
    ensures closed { IsClosed links.now.links tags.old seen.old → OnOk result (IsClosed links.now.links tags.new seen.new) }
    ensures found { IsClosed links.now.links tags.old seen.old → IfOk result (λ r. ResolvedFound links.now.links tags.new (formed_of seen.new.memo) r) }
    ensures first { OnOk result (Kept (formed_of seen.old.memo) (formed_of seen.new.memo)) }
    ensures seen_formed { (s : Sight) → Sees (G.told given.now) links.now.links written.now.files tags.new s → SeenRight s (graph_of g.now).nodes tags.old seen.old → SeenFormed s (graph_of g.now).nodes tags.old seen.old → OnOk result (SeenFormed s (graph_of g.now).nodes tags.new seen.new) }
    ensures forms { (s : Sight) → Sees (G.told given.now) links.now.links written.now.files tags.new s → SeenRight s (graph_of g.now).nodes tags.old seen.old → SeenFormed s (graph_of g.now).nodes tags.old seen.old → OnOk result (formings (graph_of g.now).nodes tags.new seen.new.memo ≡ after (port_forms s (graph_of g.now).nodes root) (formings (graph_of g.now).nodes tags.old seen.old.memo)) }
    ensures seen_met { (s : Sight) → Sees (G.told given.now) links.now.links written.now.files tags.new s → SeenRight s (graph_of g.now).nodes tags.old seen.old → SeenMet s (graph_of g.now).nodes seen.old → OnOk result (SeenMet s (graph_of g.now).nodes seen.new) }
    ensures valued { IfOk result (λ r. ResolvedValued (answers_of seen.new.memo) (input_at root) r) }
    ensures halted { (s : Sight) → Sees (G.told given.now) links.now.links written.now.files tags.new s → SeenRight s (graph_of g.now).nodes tags.old seen.old → IfOk result (λ r. HaltsAt s (graph_of g.now).nodes (input_at root) r) }
{
    match seen.memo.answer(root) {
        Some(a) => Ok(resolved(a.settled)),
        None => settle_port(alloc, g, root, links, written, tags, seen, given),
    }
}

/// Goes on with a port that isn't settled, until it is, or until the value of a selector is needed.
fn settle_port<G: Given>(
    alloc: Global,
    g: &Graph,
    root: Port,
    links: &Links,
    written: &Written,
    tags: &mut Tags,
    seen: &mut Seen,
    given: &G,
) -> Result<Resolved, AllocError>
    requires port { IsPort (graph_of g.now).nodes root }
    requires unanswered { answers_of seen.old.memo root ≡ None }
    requires formed { AreExact tags.old }
    requires links { LinksFit tags.old links.now.links }
    requires seen { SeenFits (graph_of g.now).nodes tags.old seen.old }
    ensures formed { AreExact tags.new }
    ensures goes_on { GoesOn tags.old tags.new }
    ensures seen { OnOk result (SeenFits (graph_of g.now).nodes tags.new seen.new) }
    ensures kept { OnOk result (KeepsSelectors seen.old.memo seen.new.memo) }
    ensures answers { OnOk result (KeepsAnswers (answers_of seen.old.memo) (answers_of seen.new.memo)) }
    ensures fits { IfOk result (λ r. ResolvedFits (graph_of g.now).nodes tags.new (G.told given.now) seen.new.memo r) }
    ensures seen_right { (s : Sight) → Sees (G.told given.now) links.now.links written.now.files tags.new s → SeenRight s (graph_of g.now).nodes tags.old seen.old → OnOk result (SeenRight s (graph_of g.now).nodes tags.new seen.new) }
    ensures right { (s : Sight) → Sees (G.told given.now) links.now.links written.now.files tags.new s → SeenRight s (graph_of g.now).nodes tags.old seen.old → IfOk result (λ r. port_scan s (graph_of g.now).nodes root ≡ shown_resolved (graph_of g.now).nodes tags.new r) }
    ensures closed { IsClosed links.now.links tags.old seen.old → OnOk result (IsClosed links.now.links tags.new seen.new) }
    ensures found { IsClosed links.now.links tags.old seen.old → IfOk result (λ r. ResolvedFound links.now.links tags.new (formed_of seen.new.memo) r) }
    ensures first { OnOk result (Kept (formed_of seen.old.memo) (formed_of seen.new.memo)) }
    ensures seen_formed { (s : Sight) → Sees (G.told given.now) links.now.links written.now.files tags.new s → SeenRight s (graph_of g.now).nodes tags.old seen.old → SeenFormed s (graph_of g.now).nodes tags.old seen.old → OnOk result (SeenFormed s (graph_of g.now).nodes tags.new seen.new) }
    ensures forms { (s : Sight) → Sees (G.told given.now) links.now.links written.now.files tags.new s → SeenRight s (graph_of g.now).nodes tags.old seen.old → SeenFormed s (graph_of g.now).nodes tags.old seen.old → OnOk result (formings (graph_of g.now).nodes tags.new seen.new.memo ≡ after (port_forms s (graph_of g.now).nodes root) (formings (graph_of g.now).nodes tags.old seen.old.memo)) }
    ensures seen_met { (s : Sight) → Sees (G.told given.now) links.now.links written.now.files tags.new s → SeenRight s (graph_of g.now).nodes tags.old seen.old → SeenMet s (graph_of g.now).nodes seen.old → OnOk result (SeenMet s (graph_of g.now).nodes seen.new) }
    ensures valued { IfOk result (λ r. ResolvedValued (answers_of seen.new.memo) (input_at root) r) }
    ensures halted { (s : Sight) → Sees (G.told given.now) links.now.links written.now.files tags.new s → SeenRight s (graph_of g.now).nodes tags.old seen.old → IfOk result (λ r. HaltsAt s (graph_of g.now).nodes (input_at root) r) }
{
    let mut top = top_of(alloc, &mut seen.stack, root);
    'steps: loop {
        match next_step(
            alloc,
            g,
            top.port,
            &mut top.arguments,
            links,
            written,
            tags,
            &mut seen.memo,
            given,
        )? {
            Step::Settles(a) => {
                seen.memo.settle(top.port, a)?;
                match pop_frame(&mut seen.stack) {
                    None => return Ok(resolved(a.settled)),
                    Some(below) => top = below,
                }
            }
            Step::Awaits(port) => {
                let awaited = Frame {
                    port,
                    arguments: ValueTags::new(alloc),
                };
                push_frame(&mut seen.stack, mem::replace(&mut top, awaited))?;
            }
            Step::Needs(t) => {
                let node = top.port.node;
                push_frame(&mut seen.stack, top)?;
                return Ok(Resolved::Need(t, node));
            }
        }
    }
}
