//! The expansion of a text: each call becomes a node, and each macro its body.
ghost use Rattle.std.specs.Prelude.{◌≡◌, ◌<◌, ◌≤◌, ◌+◌, ◌++◌, [], ℕ, suc, List, Some, All, map, length, IfOk, OnOk};
ghost use Rattle.dx_base.specs.NameTable.{under_name};
ghost use Rattle.dx_graph.specs.Sites.{IsLawfulSpot};
ghost use Rattle.dx_ast.specs.Lawful.{IsName, IsLawfulExpr, IsLawfulCall, AreLawfulArgs, IsLawfulInBody, IsLawfulBody, IsLawfulMacro};
ghost use Rattle.dx_ast.specs.Plain.{plain_expr, plain_call, plain_args, plain_stmt, plain_stmts, plain_macro};
ghost use Rattle.dx_ast.specs.declared.expressions.Call.{out-Call};
ghost use Rattle.dx_ast.specs.declared.statements.MacroDef.{out-MacroDef};
ghost use Rattle.dx_signatures.specs.Callees.{param_names};
ghost use Rattle.dx_macros.specs.Names.{calls_in, calls_of, calls_in_args, calls_after, names_after};
ghost use Rattle.dx_macros.specs.Site.{Nth};
ghost use Rattle.dx_macros.specs.Expansion as plain;
ghost use Rattle.dx_graph.specs.Trails.{IsTrail, spot_under};
ghost use Rattle.dx_graph.specs.Graph.{Node};
ghost use Rattle.dx_graph.specs.Unfolding as trees;
ghost use Rattle.dx_graph.specs.GraphView.{graph_of, spots_in};
ghost use Rattle.dx_graph.specs.Operands.{GivenFits, given_of, OperandFits, operand_tree, OwnFits, Gives, ResultsFit, results_trees};
ghost use Rattle.dx_texts.specs.Expanding.{Ready, Remembers, Grows, Expands, ExpandsArgs, ExpandsStatement, ExpandsBody, IsCallOf, SameText, dictionary_in, top_scope, setting, inner_setting, scope_of, expr_in, call_in, args_in, body_in, function_call, function_expanded, own_effect, applied};
ghost use Rattle.dx_texts.specs.Numbering.{HasNumbers, Adds, macro_calls, expr_calls, call_calls, args_calls, callee_calls, statement_calls, body_calls};
ghost use Rattle.dx_texts.specs.Marks.{ExprWalked, CallWalked, ArgsWalked, CalleeWalked, MacroWalked, StatementWalked, NamesWalked, BodyWalked, Holds};

use crate::own::{assign, bind_params};
use crate::text::{Text, World, meaning};
use dx_ast::{Arg, Call, Expr, MacroDef, Stmt, results};
use dx_base::{Bytes, Function, Names};
use dx_graph::{Given, Graph, Operand, Results, frame_value, inputs_of};
use dx_macros::{Callee, called, put};
use std::alloc::{AllocError, Global};

/// A call of a function that has an effect is the next effect.
fn note_effect(graph: &mut Graph, f: Function, n: u32) -> Result<(), AllocError>
    requires { IsCallOf (graph_of graph.old).nodes n f }
    ensures grows { Grows graph.old graph.new }
    ensures nodes { (graph_of graph.new).nodes ≡ (graph_of graph.old).nodes }
    ensures effects { OnOk result (trees.unfolded (graph_of graph.new) ≡ trees.unfolded (graph_of graph.old) ++ own_effect f (trees.call_at (trees.calls_of (graph_of graph.old).nodes) n)) }
{
    match f {
        Function::Effect(_) => graph.effect(n),
        _ => Ok(()),
    }
}

/// A node for a call of a function.
fn add_node<'a>(
    alloc: Global,
    graph: &mut Graph,
    f: Function,
    given: &[Given<'a>],
    cache: u8,
    trail: Option<usize>,
    k: usize,
) -> Result<u32, AllocError>
    requires few { HasNumbers graph.old 1 }
    requires given { All (GivenFits (graph_of graph.old).nodes) given.now }
    requires cache { cache ≤ 2 }
    requires trail { IsTrail (length (spots_in graph.old)) trail }
    requires spot { ∥ IsLawfulSpot 0 (spot_under (spots_in graph.old) trail) ∥₁ }
    ensures grows { Grows graph.old graph.new }
    ensures call { IfOk result (λ n. IsCallOf (graph_of graph.new).nodes n f) }
    ensures unfolds { IfOk result (λ n. trees.call_at (trees.calls_of (graph_of graph.new).nodes) n ≡
        function_call (spot_under (spots_in graph.old) trail) f cache k (map (given_of (graph_of graph.old).nodes) given.now)) }
    ensures effects { trees.unfolded (graph_of graph.new) ≡ trees.unfolded (graph_of graph.old) }
    ensures adds { Adds 1 graph.old graph.new }
{
    let inputs = inputs_of(alloc, f, given)?;
    graph.call(f, inputs, cache, trail, k)
}

/// A call of a function over arguments that were expanded: a node behind the others, which is the next effect where the function has one. It
/// answers the results of the call. Only want of memory is an error.
pub fn call_function<'a>(
    alloc: Global,
    graph: &mut Graph,
    f: Function,
    given: &[Given<'a>],
    cache: u8,
    trail: Option<usize>,
    k: usize,
) -> Result<Results<'a>, AllocError>
    requires few { HasNumbers graph.old 1 }
    requires given { All (GivenFits (graph_of graph.old).nodes) given.now }
    requires cache { cache ≤ 2 }
    requires trail { IsTrail (length (spots_in graph.old)) trail }
    requires spot { ∥ IsLawfulSpot 0 (spot_under (spots_in graph.old) trail) ∥₁ }
    ensures grows { Grows graph.old graph.new }
    ensures expands { IfOk result (λ r. Expands (function_expanded f (function_call (spot_under (spots_in graph.old) trail) f cache k (map (given_of (graph_of graph.old).nodes) given.now))) graph.old graph.new r) }
    ensures adds { Adds 1 graph.old graph.new }
{
    let n = add_node(alloc, graph, f, given, cache, trail, k)?;
    note_effect(graph, f, n)?;
    Ok(Results::Node(n, results(f)))
}

/// An expression of a text: its calls become nodes behind the others. It answers what the expression means. Only want of memory is an error.
#[cycle(expand)]
pub fn expand_expr<'a>(
    w: &World<'a>,
    t: &Text<'a>,
    graph: &mut Graph,
    before: &mut Names<'a>,
    e: &'a Expr,
) -> Result<Results<'a>, AllocError>
    requires ready { Ready w.now t.now graph.old }
    requires lawful { ∥ IsLawfulExpr (plain_expr e.now) ∥₁ }
    requires walked { ExprWalked w.now t.now (plain_expr e.now) }
    requires few { HasNumbers graph.old (expr_calls w.now t.now (plain_expr e.now)) }
    ensures grows { Grows graph.old graph.new }
    ensures before { OnOk result (before.new ≡ before.old ++ calls_in (plain_expr e.now)) }
    ensures expands { IfOk result (λ r. Expands (expr_in (setting w.now t.now graph.old) before.old (plain_expr e.now)) graph.old graph.new r) }
    ensures adds { OnOk result (Adds (expr_calls w.now t.now (plain_expr e.now)) graph.old graph.new) }
{
    match e {
        Expr::Constant(c) => Ok(Results::One(Operand::Constant(c))),
        Expr::Name(n) => Ok(Results::One(meaning(w, t, n.bytes()))),
        Expr::Frame(v) => Ok(Results::One(Operand::Number(frame_value(&w.frames, *v)))),
        Expr::Call(c) => expand_call(w, t, graph, before, c.get()),
    }
}

/// A call in a text: its arguments, and then what it calls. It answers the results of the call. Only want of memory is an error.
#[cycle(expand)]
pub fn expand_call<'a>(
    w: &World<'a>,
    t: &Text<'a>,
    graph: &mut Graph,
    before: &mut Names<'a>,
    c: &'a Call,
) -> Result<Results<'a>, AllocError>
    requires ready { Ready w.now t.now graph.old }
    requires lawful { ∥ IsLawfulCall (plain_call c.now) ∥₁ }
    requires walked { CallWalked w.now t.now (plain_call c.now) }
    requires few { HasNumbers graph.old (call_calls w.now t.now (plain_call c.now)) }
    ensures grows { Grows graph.old graph.new }
    ensures before { OnOk result (before.new ≡ before.old ++ calls_of (plain_call c.now)) }
    ensures expands { IfOk result (λ r. Expands (call_in (setting w.now t.now graph.old) before.old (plain_call c.now)) graph.old graph.new r) }
    ensures adds { OnOk result (Adds (call_calls w.now t.now (plain_call c.now)) graph.old graph.new) }
{
    let name = c.name.bytes();
    let k = before.count(name) + 1;
    before.push(name)?;
    let given = expand_args(w, t, graph, before, c.args.as_slice())?;
    apply(w, t, graph, c, k, given.as_slice())
}

/// What an argument means: the first result of its expression.
fn first_of<'a>(results: Results<'a>) -> Operand<'a>
    ensures tree { (nodes : List Node) → operand_tree nodes result ≡ results_trees nodes results.entry 0 }
    ensures fits { (nodes : List Node) → ResultsFit nodes results.entry → OperandFits nodes result }
{
    results.at(0)
}

/// The arguments of a call in a text.
#[cycle(expand)]
fn expand_args<'a>(
    w: &World<'a>,
    t: &Text<'a>,
    graph: &mut Graph,
    before: &mut Names<'a>,
    args: &'a [Arg],
) -> Result<Vec<Given<'a>>, AllocError>
    requires ready { Ready w.now t.now graph.old }
    requires lawful { ∥ AreLawfulArgs (plain_args args.now) ∥₁ }
    requires walked { ArgsWalked w.now t.now (plain_args args.now) }
    requires few { HasNumbers graph.old (args_calls w.now t.now (plain_args args.now)) }
    ensures grows { Grows graph.old graph.new }
    ensures before { OnOk result (before.new ≡ before.old ++ calls_in_args (plain_args args.now)) }
    ensures expands { IfOk result (λ given. ExpandsArgs (args_in (setting w.now t.now graph.old) before.old (plain_args args.now)) graph.old graph.new given.items) }
    ensures adds { OnOk result (Adds (args_calls w.now t.now (plain_args args.now)) graph.old graph.new) }
{
    let mut given = Vec::new(w.alloc);
    for arg in args {
        let operand = first_of(expand_expr(w, t, graph, before, &arg.value)?);
        put(&mut given, Given { arg, operand })?;
    }
    Ok(given)
}

/// A call whose arguments were expanded.
#[cycle(expand)]
fn apply<'a>(
    w: &World<'a>,
    t: &Text<'a>,
    graph: &mut Graph,
    c: &'a Call,
    k: usize,
    given: &[Given<'a>],
) -> Result<Results<'a>, AllocError>
    requires ready { Ready w.now t.now graph.old }
    requires lawful { ∥ IsLawfulCall (plain_call c.now) ∥₁ }
    requires given { All (GivenFits (graph_of graph.old).nodes) given.now }
    requires walked { CalleeWalked w.now t.now (out-Call c.now).name }
    requires few { HasNumbers graph.old (suc (callee_calls w.now t.now (out-Call c.now).name)) }
    ensures grows { Grows graph.old graph.new }
    ensures expands { IfOk result (λ r. Expands (applied (setting w.now t.now graph.old) (out-Call c.now).name (out-Call c.now).cache k (map (given_of (graph_of graph.old).nodes) given.now)) graph.old graph.new r) }
    ensures adds { OnOk result (Adds (suc (callee_calls w.now t.now (out-Call c.now).name)) graph.old graph.new) }
{
    match called(w.dictionary, c.name.bytes()) {
        Callee::Unknown => Ok(Results::One(Operand::Null)),
        Callee::Function(f) => { call_function(w.alloc, graph, f, given, c.cache, t.trail, k) }
        Callee::Macro(m) => enter(w, t, graph, m, c.name.bytes(), k, given),
    }
}

/// The text of a macro's body at a call.
fn inner_text<'a>(
    w: &World<'a>,
    t: &Text<'a>,
    graph: &mut Graph,
    m: &'a MacroDef,
    name: &[u8],
    k: usize,
    given: &[Given<'a>],
) -> Result<Text<'a>, AllocError>
    requires ready { Ready w.now t.now graph.old }
    requires lawful { ∥ IsLawfulMacro (plain_macro m.now) ∥₁ }
    requires given { All (GivenFits (graph_of graph.old).nodes) given.now }
    requires name { IsName name.now }
    requires left { 0 < t.now.left }
    ensures grows { Grows graph.old graph.new }
    ensures graph { graph_of graph.new ≡ graph_of graph.old }
    ensures ready { IfOk result (λ inner. Ready w.now inner graph.new) }
    ensures left { IfOk result (λ inner. inner.left + 1 ≡ t.now.left) }
    ensures position { IfOk result (λ inner. inner.position ≡ t.now.position) }
    ensures own { IfOk result (λ inner. Holds (under_name inner.own) (param_names (out-MacroDef m.now).params)) }
    ensures setting { IfOk result (λ inner. setting w.now inner graph.new ≡ inner_setting (setting w.now t.now graph.old) (top_scope w.now t.now.position) inner.left (out-MacroDef m.now).params (Nth name.now k) (map (given_of (graph_of graph.old).nodes) given.now)) }
{
    let trail = graph.step(w.alloc, t.trail, name, k)?;
    let own = bind_params(w.alloc, m.params.as_slice(), given)?;
    Ok(Text {
        trail: Some(trail),
        left: t.left - 1,
        position: t.position,
        own,
    })
}

/// A call of a macro, where its body comes to nothing if no macro step is left.
#[cycle(expand)]
fn enter<'a>(
    w: &World<'a>,
    t: &Text<'a>,
    graph: &mut Graph,
    m: &'a MacroDef,
    name: &[u8],
    k: usize,
    given: &[Given<'a>],
) -> Result<Results<'a>, AllocError>
    requires ready { Ready w.now t.now graph.old }
    requires lawful { ∥ IsLawfulMacro (plain_macro m.now) ∥₁ }
    requires given { All (GivenFits (graph_of graph.old).nodes) given.now }
    requires name { IsName name.now }
    requires known { (dictionary_in w.now).macros name.now ≡ Some (plain_macro m.now) }
    requires walked { MacroWalked w.now t.now (plain_macro m.now) }
    requires few { HasNumbers graph.old (macro_calls w.now t.now (plain_macro m.now)) }
    ensures grows { Grows graph.old graph.new }
    ensures expands { IfOk result (λ r. Expands ((setting w.now t.now graph.old).under.enter (plain_macro m.now) (map (given_of (graph_of graph.old).nodes) given.now) (plain.spot_of_call (setting w.now t.now graph.old).spot (Nth name.now k))) graph.old graph.new r) }
    ensures adds { OnOk result (Adds (macro_calls w.now t.now (plain_macro m.now)) graph.old graph.new) }
{
    if t.left == 0 {
        return Ok(Results::One(Operand::Null));
    }
    let mut inner = inner_text(w, t, graph, m, name, k, given)?;
    expand_body(w, &mut inner, graph, m.body.as_slice())?;
    results_of(w, &inner, m.results.as_slice())
}

/// The results of a macro: what their names mean at the end of its body.
fn results_of<'a>(w: &World<'a>, t: &Text<'a>, names: &[Bytes]) -> Result<Results<'a>, AllocError>
    requires walked { NamesWalked w.now t.now names.now }
    ensures gives { (nodes : List Node) → Remembers nodes w.now → OwnFits nodes (under_name t.now.own) → IfOk result (λ r. Gives nodes r (plain.results_in names.now (scope_of w.now t.now nodes))) }
{
    let mut all = Vec::new(w.alloc);
    for name in names {
        put(&mut all, meaning(w, t, name.bytes()))?;
    }
    Ok(Results::Many(all))
}

/// The statements of a macro's body, each in the text that the earlier ones made.
#[cycle(expand)]
fn expand_body<'a>(
    w: &World<'a>,
    t: &mut Text<'a>,
    graph: &mut Graph,
    body: &'a [Stmt],
) -> Result<(), AllocError>
    requires ready { Ready w.now t.old graph.old }
    requires lawful { ∥ IsLawfulBody (plain_stmts body.now) ∥₁ }
    requires walked { (results : List (List ℕ)) × BodyWalked w.now t.old results (plain_stmts body.now) }
    requires few { HasNumbers graph.old (body_calls w.now t.old (plain_stmts body.now)) }
    ensures grows { Grows graph.old graph.new }
    ensures text { SameText t.old t.new }
    ensures ready { OnOk result (Ready w.now t.new graph.new) }
    ensures walked { OnOk result ((results : List (List ℕ)) → BodyWalked w.now t.old results (plain_stmts body.now) → NamesWalked w.now t.new results) }
    ensures expands { OnOk result ((results : List (List ℕ)) → ExpandsBody (body_in (setting w.now t.old graph.old) results [] (plain_stmts body.now)) graph.old graph.new (plain.results_in results (scope_of w.now t.new (graph_of graph.new).nodes))) }
    ensures adds { OnOk result (Adds (body_calls w.now t.old (plain_stmts body.now)) graph.old graph.new) }
{
    let mut before = Names::new(w.alloc);
    for s in body {
        expand_statement(w, t, graph, &mut before, s)?;
    }
    Ok(())
}

/// A statement of a macro's body.
#[cycle(expand)]
fn expand_statement<'a>(
    w: &World<'a>,
    t: &mut Text<'a>,
    graph: &mut Graph,
    before: &mut Names<'a>,
    s: &'a Stmt,
) -> Result<(), AllocError>
    requires ready { Ready w.now t.old graph.old }
    requires lawful { ∥ IsLawfulInBody (plain_stmt s.now) ∥₁ }
    requires walked { StatementWalked w.now t.old (plain_stmt s.now) }
    requires few { HasNumbers graph.old (statement_calls w.now t.old (plain_stmt s.now)) }
    ensures grows { Grows graph.old graph.new }
    ensures text { SameText t.old t.new }
    ensures before { OnOk result (before.new ≡ calls_after before.old (plain_stmt s.now)) }
    ensures own { OnOk result ((names : List (List ℕ)) → Holds (under_name t.old.own) names → Holds (under_name t.new.own) (names_after names (plain_stmt s.now))) }
    ensures ready { OnOk result (Ready w.now t.new graph.new) }
    ensures expands { OnOk result (ExpandsStatement (setting w.now t.old graph.old) before.old (plain_stmt s.now) graph.old graph.new (scope_of w.now t.new (graph_of graph.new).nodes)) }
    ensures adds { OnOk result (Adds (statement_calls w.now t.old (plain_stmt s.now)) graph.old graph.new) }
{
    match s {
        Stmt::Call(c) => {
            drop(expand_call(w, t, graph, before, c)?);
            Ok(())
        }
        Stmt::Assign(a) => {
            let results = expand_expr(w, t, graph, before, &a.value)?;
            assign(w.alloc, &mut t.own, a.targets.as_slice(), &results)
        }
        _ => Ok(()),
    }
}
