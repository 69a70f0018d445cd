//! The texts of the top level: a statement, and before it the definitions that it reads.
ghost use Rattle.std.specs.Prelude.{◌≡◌, ◌<◌, ◌++◌, length, All, Some, None, IfOk, IfSome, OnOk, replicate};
ghost use Rattle.dx_graph.specs.Sites.{IsLawfulSpot};
ghost use Rattle.dx_ast.specs.Limits.{max_macro_steps};
ghost use Rattle.dx_ast.specs.Lawful.{IsName, IsLawful, IsLawfulExpr, IsLawfulCall};
ghost use Rattle.dx_ast.specs.Plain.{plain_expr, plain_call, plain_stmt};
ghost use Rattle.dx_macros.specs.Checking.{Checks};
ghost use Rattle.dx_macros.specs.Dictionary.{top_text, of_call};
ghost use Rattle.dx_definitions.specs.TopTexts.{TopText, definition};
ghost use Rattle.dx_macros.specs.DictionaryView.{dictionary_of};
ghost use Rattle.dx_macros.specs.Expansion.{top_spot, effects};
ghost use Rattle.dx_base.specs.Places.{flags};
ghost use Rattle.dx_definitions.specs.Index.{text_of};
ghost use Rattle.dx_macros.specs.Walk.{first_fault, definitions_read};
ghost use Rattle.dx_graph.specs.Trails.{IsTrail, spot_under};
ghost use Rattle.dx_graph.specs.Graph.{no_nodes};
ghost use Rattle.dx_graph.specs.Unfolding.{unfolded};
ghost use Rattle.dx_graph.specs.GraphView.{graph_of, spots_in};
ghost use Rattle.dx_texts.specs.Expanding.{Remembers, Ready, Grows, Expands, setting, dictionary_in, top_results};
ghost use Rattle.dx_graph.specs.Operands.{Gives};
ghost use Rattle.dx_expansion.specs.Driving.{top_setting, top_expanded, effects_in, AreWalked, HaveResults, SameWorld, Rests, Learned};
ghost use Rattle.dx_texts.specs.Numbering.{HasNumbers, Adds, expr_calls};
ghost use Rattle.dx_counting.specs.Counting.{count_text, count_in, count_marked};
ghost use Rattle.dx_texts.specs.Marks.{ExprWalked, TopWalked};
ghost use Rattle.dx_graph.specs.declared.graph.Graph.{Graph};

use crate::silent::is_silent;
use dx_ast::{Assign, Call, Expr, Frames, Stmt};
use dx_base::{Bytes, Names, Sparse};
use dx_graph::{Graph, Results};
use dx_macros::{CheckFail, Dictionary, MAX_STEPS};
use dx_texts::{Text, World, expand_call, expand_expr, top_meaning};
use indexmap::IndexMap;
use std::alloc::{AllocError, Global};

/// The trail of the first of these targets, if there is one.
fn first_trail(
    alloc: Global,
    graph: &mut Graph,
    targets: &[Bytes],
) -> Result<Option<usize>, AllocError>
    ensures grows { Grows graph.old graph.new }
    ensures graph { graph_of graph.new ≡ graph_of graph.old }
    ensures trail { IfOk result (λ t. IsTrail (length (spots_in graph.new)) t) }
    ensures spot { IfOk result (λ t. spot_under (spots_in graph.new) t ≡ top_spot targets.now) }
{
    match targets.first() {
        None => Ok(None),
        Some(target) => Ok(Some(graph.target(alloc, target.bytes())?)),
    }
}

/// A text of the top level at a position.
fn text_at_top<'a>(w: &World<'a>, trail: Option<usize>, position: usize) -> Text<'a>
    ensures position { result.position ≡ position }
    ensures ready { (g : Graph) → Remembers (graph_of g).nodes w.now → IsTrail (length (spots_in g)) trail → ∥ IsLawfulSpot max_macro_steps (spot_under (spots_in g) trail) ∥₁ → Ready w.now result g }
    ensures setting { (g : Graph) → setting w.now result g ≡ top_setting w.now position (spot_under (spots_in g) trail) }
    ensures walked { (t : TopText) → TopWalked w.now position t → ExprWalked w.now result t.value }
    ensures calls { (t : TopText) → expr_calls w.now result t.value ≡ count_text (dictionary_in w.now).macros t }
{
    Text {
        trail,
        left: MAX_STEPS,
        position,
        own: IndexMap::new(w.alloc),
    }
}

/// An assignment at a position of the top level.
fn expand_assign<'a>(
    w: &World<'a>,
    graph: &mut Graph,
    a: &'a Assign,
    position: usize,
) -> Result<Results<'a>, AllocError>
    requires memo { Remembers (graph_of graph.old).nodes w.now }
    requires names { ∥ All IsName a.now.targets ∥₁ }
    requires lawful { ∥ IsLawfulExpr (plain_expr a.now.value) ∥₁ }
    requires walked { TopWalked w.now position (text_of a.now) }
    requires few { HasNumbers graph.old (count_text (dictionary_in w.now).macros (text_of a.now)) }
    ensures grows { Grows graph.old graph.new }
    ensures expands { IfOk result (λ r. Expands (top_expanded w.now position (text_of a.now)) graph.old graph.new r) }
    ensures adds { OnOk result (Adds (count_text (dictionary_in w.now).macros (text_of a.now)) graph.old graph.new) }
{
    let trail = first_trail(w.alloc, graph, a.targets.as_slice())?;
    let text = text_at_top(w, trail, position);
    let mut before: Names<'a> = Names::new(w.alloc);
    expand_expr(w, &text, graph, &mut before, &a.value)
}

/// A call at a position of the top level, whose results nothing reads.
fn expand_top_call<'a>(
    w: &World<'a>,
    graph: &mut Graph,
    c: &'a Call,
    position: usize,
) -> Result<(), AllocError>
    requires memo { Remembers (graph_of graph.old).nodes w.now }
    requires lawful { ∥ IsLawfulCall (plain_call c.now) ∥₁ }
    requires walked { TopWalked w.now position (of_call (plain_call c.now)) }
    requires few { HasNumbers graph.old (count_text (dictionary_in w.now).macros (of_call (plain_call c.now))) }
    ensures grows { Grows graph.old graph.new }
    ensures expands { OnOk result (unfolded (graph_of graph.new) ≡ unfolded (graph_of graph.old) ++ effects_in (Some (of_call (plain_call c.now))) w.now position) }
{
    let text = text_at_top(w, None, position);
    let mut before: Names<'a> = Names::new(w.alloc);
    drop(expand_call(w, &text, graph, &mut before, c)?);
    Ok(())
}

/// A definition at its position. One that only names another has no call, and so no text of its own.
fn expand_definition<'a>(
    w: &World<'a>,
    graph: &mut Graph,
    i: usize,
) -> Result<Results<'a>, AllocError>
    requires rests { Rests w.now graph.old }
    requires below { i < length w.now.memo }
    requires walked { TopWalked w.now i (definition (dictionary_in w.now).definitions i) }
    requires few { HasNumbers graph.old (count_text (dictionary_in w.now).macros (definition (dictionary_in w.now).definitions i)) }
    ensures grows { Grows graph.old graph.new }
    ensures gives { IfOk result (λ r. Gives (graph_of graph.new).nodes r (top_results w.now i)) }
    ensures adds { OnOk result (Adds (count_text (dictionary_in w.now).macros (definition (dictionary_in w.now).definitions i)) graph.old graph.new) }
{
    let a = w.dictionary.definition(i);
    match &a.value {
        Expr::Name(name) => Ok(Results::One(top_meaning(w, i, name.bytes()))),
        _ => expand_assign(w, graph, a, i),
    }
}

/// The definition at a position is expanded and remembered. Its effects are no effects of the graph.
fn define<'a>(w: &mut World<'a>, graph: &mut Graph, i: usize) -> Result<(), AllocError>
    requires rests { Rests w.old graph.old }
    requires below { i < length w.old.memo }
    requires walked { TopWalked w.old i (definition (dictionary_in w.old).definitions i) }
    requires few { HasNumbers graph.old (count_text (dictionary_in w.old).macros (definition (dictionary_in w.old).definitions i)) }
    ensures rests { OnOk result (Rests w.new graph.new) }
    ensures same { OnOk result (SameWorld w.old w.new) }
    ensures learned { OnOk result (Learned i w.old.memo w.new.memo) }
    ensures adds { OnOk result (Adds (count_text (dictionary_in w.old).macros (definition (dictionary_in w.old).definitions i)) graph.old graph.new) }
{
    let results = expand_definition(w, graph, i)?;
    graph.forget_effects(0);
    w.memo.set(i, results)?;
    Ok(())
}

/// The definitions that the walk of a statement marked are expanded, in the order of their places.
fn define_marked<'a>(
    w: &mut World<'a>,
    graph: &mut Graph,
    marks: &Sparse<()>,
) -> Result<(), AllocError>
    requires rests { Rests w.old graph.old }
    requires walked { AreWalked w.old (flags marks.now) }
    requires few { HasNumbers graph.old (count_marked (dictionary_in w.old).macros (dictionary_in w.old).definitions (flags marks.now) (length (dictionary_in w.old).definitions)) }
    ensures rests { OnOk result (Rests w.new graph.new) }
    ensures same { OnOk result (SameWorld w.old w.new) }
    ensures known { OnOk result (HaveResults w.new.memo (flags marks.now)) }
    ensures adds { OnOk result (Adds (count_marked (dictionary_in w.old).macros (dictionary_in w.old).definitions (flags marks.now) (length (dictionary_in w.old).definitions)) graph.old graph.new) }
{
    for position in marks.places() {
        define(w, graph, *position)?;
    }
    Ok(())
}

/// A statement at a position of the top level.
fn expand_last<'a>(
    w: &World<'a>,
    graph: &mut Graph,
    s: &'a Stmt,
    position: usize,
) -> Result<(), AllocError>
    requires memo { Remembers (graph_of graph.old).nodes w.now }
    requires lawful { IsLawful (plain_stmt s.now) }
    requires walked { (t : TopText) → top_text (plain_stmt s.now) ≡ Some t → TopWalked w.now position t }
    requires few { HasNumbers graph.old (count_in (dictionary_in w.now).macros (top_text (plain_stmt s.now))) }
    ensures grows { Grows graph.old graph.new }
    ensures expands { OnOk result (unfolded (graph_of graph.new) ≡ unfolded (graph_of graph.old) ++ effects_in (top_text (plain_stmt s.now)) w.now position) }
{
    match s {
        Stmt::Call(c) => expand_top_call(w, graph, c, position),
        Stmt::Sequence(c) => expand_top_call(w, graph, c, position),
        Stmt::Assign(a) => {
            drop(expand_assign(w, graph, a, position)?);
            Ok(())
        }
        _ => Ok(()),
    }
}

/// A statement that was walked, behind the definitions that its walk marked.
fn expand_walked<'a>(
    w: &mut World<'a>,
    graph: &mut Graph,
    s: &'a Stmt,
    marks: &Sparse<()>,
) -> Result<(), AllocError>
    requires rests { Rests w.old graph.old }
    requires empty { graph_of graph.old ≡ no_nodes }
    requires lawful { IsLawful (plain_stmt s.now) }
    requires no_fault { first_fault (dictionary_in w.old) (plain_stmt s.now) ≡ None }
    requires reads { flags marks.now ≡ definitions_read (dictionary_in w.old) (plain_stmt s.now) }
    ensures means { OnOk result (unfolded (graph_of graph.new) ≡ effects (dictionary_in w.old) w.old.frames (plain_stmt s.now)) }
{
    define_marked(w, graph, marks)?;
    expand_last(w, graph, s, w.dictionary.len())
}

/// A world that remembers nothing yet.
fn new_world<'a>(alloc: Global, d: &'a Dictionary, f: &Frames) -> World<'a>
    ensures dictionary { result.dictionary.now ≡ d.now }
    ensures frames { result.frames ≡ f.now }
    ensures memo { result.memo ≡ replicate (length (dictionary_of d.now).definitions) None }
{
    World {
        alloc,
        dictionary: d,
        frames: *f,
        memo: Sparse::new(alloc, d.len()),
    }
}

/// The expansion of a statement that can have no effect, whatever its names mean: a graph without effects. None where it may
/// have one.
pub fn expand_silent<'a>(alloc: Global, d: &'a Dictionary, s: &'a Stmt, f: &Frames) -> Option<Graph>
    ensures { IfSome result (λ g. unfolded (graph_of g) ≡ effects (dictionary_of d.now) f.now (plain_stmt s.now)) }
{
    let w: World<'a> = new_world(alloc, d, f);
    if !is_silent(&w, s) {
        return None;
    }
    Some(Graph::new(alloc))
}

/// The first static fault of a statement, as `check` answers it; where there is none its expansion, as `expand` does. The
/// statement and the definitions that it reads are walked once; these are expanded only where the statement may have an effect.
pub fn check_and_expand<'a>(
    alloc: Global,
    d: &'a Dictionary,
    s: &'a Stmt,
    f: &Frames,
) -> Result<Graph, CheckFail>
    requires lawful { IsLawful (plain_stmt s.now) }
    ensures fault { Checks (first_fault (dictionary_of d.now) (plain_stmt s.now)) result }
    ensures means { IfOk result (λ g. unfolded (graph_of g) ≡ effects (dictionary_of d.now) f.now (plain_stmt s.now)) }
{
    let marks = d.walk(alloc, s)?;
    let mut w: World<'a> = new_world(alloc, d, f);
    let mut graph = Graph::new(alloc);
    if is_silent(&w, s) {
        return Ok(graph);
    }
    expand_walked(&mut w, &mut graph, s, &marks)?;
    Ok(graph)
}

/// The expansion of a statement: the graph whose effects are those of the statement, in order, which is empty where the
/// statement isn't executed. A definition that is read has no effects. (That what a definition comes to stands in the graph once, however
/// often it is read, is only tested.)
///
/// # Errors
///
/// Only where memory ran out: the numbers of nodes can't run out, since a walk without a fault came by at most 65,536 calls.
pub fn expand(alloc: Global, d: &Dictionary, s: &Stmt, f: &Frames) -> Result<Graph, AllocError>
    requires lawful { IsLawful (plain_stmt s.now) }
    requires no_fault { first_fault (dictionary_of d.now) (plain_stmt s.now) ≡ None }
    ensures means { IfOk result (λ g. unfolded (graph_of g) ≡ effects (dictionary_of d.now) f.now (plain_stmt s.now)) }
{
    match check_and_expand(alloc, d, s, f) {
        Ok(graph) => Ok(graph),
        Err(CheckFail::Memory) => Err(AllocError),
        Err(CheckFail::Fault(_, _)) => unreachable!(),
    }
}
