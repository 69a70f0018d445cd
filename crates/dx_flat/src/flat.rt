//! Calls over constants: where no argument has a call, and each name means a constant that is seen at once, nothing is walked.
ghost use Rattle.std.specs.Prelude.{◌≡◌, ◌≤◌, [], List, None, Some, All, map, true, IfSome};
ghost use Rattle.dx_ast.specs.Limits.{max_macro_steps};
ghost use Rattle.dx_ast.specs.Lawful.{IsLawful, IsLawfulExpr, IsLawfulCall, AreLawfulArgs};
ghost use Rattle.dx_ast.specs.Plain.{plain_expr, plain_call, plain_args, plain_stmt};
ghost use Rattle.dx_texts.specs.Expanding.{function_call, function_expanded};
ghost use Rattle.dx_flat.specs.Flat.{IsFlat, AreFlat};
ghost use Rattle.dx_graph.specs.Graph.{Node, no_nodes};
ghost use Rattle.dx_graph.specs.GraphView.{graph_of, spots_in};
ghost use Rattle.dx_graph.specs.Operands.{OperandFits, operand_tree, GivenFits, given_of};
ghost use Rattle.dx_graph.specs.Unfolding.{unfolded};
ghost use Rattle.dx_macros.specs.Dictionary.{of_call};
ghost use Rattle.dx_macros.specs.DictionaryView.{dictionary_of};
ghost use Rattle.dx_macros.specs.Expansion.{effects, effects_among, kept_of, top_spot};
ghost use Rattle.dx_macros.specs.Walk.{first_fault, fault_in, walk_of};
ghost use Rattle.dx_signatures.specs.CalleeView.{plain_callee};
ghost use Rattle.dx_signatures.specs.Faults.{arg_names, fault_of_call};

use dx_ast::{Arg, Call, Expr, Frames, Stmt};
use dx_base::{Few, Function};
use dx_graph::{Given, Graph, Operand, frame_value};
use dx_macros::{Callee, Dictionary, MAX_STEPS, called};
use dx_signatures::fault_of_call;
use dx_texts::call_function;
use std::alloc::Global;

/// What an expression comes to that is a constant, a variable of the sequencer, or a name that means a constant.
fn flat_operand<'a>(d: &'a Dictionary, f: &Frames, e: &'a Expr) -> Option<Operand<'a>>
    requires lawful { ∥ IsLawfulExpr (plain_expr e.now) ∥₁ }
    ensures tree { IfSome result (λ o. (nodes : List Node) → IsFlat (dictionary_of d.now) f.now (plain_expr e.now) (operand_tree nodes o)) }
    ensures fits { IfSome result (λ o. (nodes : List Node) → OperandFits nodes o) }
{
    match e {
        Expr::Constant(c) => Some(Operand::Constant(c)),
        Expr::Name(n) => Some(Operand::Constant(d.constant(n.bytes())?)),
        Expr::Frame(v) => Some(Operand::Number(frame_value(f, *v))),
        Expr::Call(_) => None,
    }
}

/// What arguments give all of which are so.
fn flat_args<'a>(
    alloc: Global,
    d: &'a Dictionary,
    f: &Frames,
    args: &'a [Arg],
) -> Option<Few<Given<'a>>>
    requires lawful { ∥ AreLawfulArgs (plain_args args.now) ∥₁ }
    ensures flat { IfSome result (λ given. (nodes : List Node) → AreFlat (dictionary_of d.now) f.now (plain_args args.now) (map (given_of nodes) given)) }
    ensures fits { IfSome result (λ given. (nodes : List Node) → All (GivenFits nodes) given) }
{
    let mut given = Few::with_capacity(alloc, args.len()).ok()?;
    for arg in args {
        let operand = flat_operand(d, f, &arg.value)?;
        match given.push(Given { arg, operand }) {
            Ok(()) => {}
            Err(_) => return None,
        }
    }
    Some(given)
}

/// The graph without nodes, with room for one.
fn room_for_one(alloc: Global) -> Option<Graph>
    ensures graph { IfSome result (λ g. graph_of g ≡ no_nodes) }
    ensures spots { IfSome result (λ g. spots_in g ≡ []) }
{
    Graph::with_capacity(alloc, 1).ok()
}

/// Whether a call with these arguments has no fault, where memory suffices to tell.
fn is_faultless(alloc: Global, callee: Callee<'_>, args: &[Arg]) -> bool
    ensures { result ≡ true → fault_of_call 0 (plain_callee callee.entry) max_macro_steps (arg_names (plain_args args.now)) 0 ≡ None }
{
    match fault_of_call(alloc, 0, callee, MAX_STEPS, args, 0) {
        Ok(None) => true,
        _ => false,
    }
}

/// The graph of one call of a function in a text of the top level.
fn graph_of_one<'a>(
    alloc: Global,
    function: Function,
    given: &[Given<'a>],
    cache: u8,
) -> Option<Graph>
    requires given { All (GivenFits []) given.now }
    requires cache { cache ≤ 2 }
    ensures { IfSome result (λ g. unfolded (graph_of g) ≡ effects_among (function_expanded function (function_call (top_spot []) function cache 1 (map (given_of []) given.now))).kept) }
{
    let mut graph = room_for_one(alloc)?;
    match call_function(alloc, &mut graph, function, given, cache, None, 1) {
        Ok(_) => Some(graph),
        Err(_) => None,
    }
}

/// The expansion of a call of a function over such arguments, where the call has no fault.
fn flat_call<'a>(alloc: Global, d: &'a Dictionary, c: &'a Call, f: &Frames) -> Option<Graph>
    requires lawful { ∥ IsLawfulCall (plain_call c.now) ∥₁ }
    ensures fault { IfSome result (λ g. fault_in (walk_of (dictionary_of d.now) (of_call (plain_call c.now))) ≡ None) }
    ensures means { IfSome result (λ g. unfolded (graph_of g) ≡ effects_among (kept_of max_macro_steps (dictionary_of d.now) f.now (Some (of_call (plain_call c.now))))) }
{
    let callee = called(d, c.name.bytes());
    let Callee::Function(function) = callee else {
        return None;
    };
    let args = c.args.as_slice();
    let given = flat_args(alloc, d, f, args)?;
    if !is_faultless(alloc, callee, args) {
        return None;
    }
    graph_of_one(alloc, function, given.as_slice(), c.cache)
}

/// The expansion of a call of a function over constants, which has no fault: its arguments are constants, variables of the
/// sequencer and names that mean constants, as is seen without a walk. None where the statement is anything else, has a fault, or
/// memory runs out.
pub fn expand_flat<'a>(alloc: Global, d: &'a Dictionary, s: &'a Stmt, f: &Frames) -> Option<Graph>
    requires lawful { IsLawful (plain_stmt s.now) }
    ensures fault { IfSome result (λ g. first_fault (dictionary_of d.now) (plain_stmt s.now) ≡ None) }
    ensures means { IfSome result (λ g. unfolded (graph_of g) ≡ effects (dictionary_of d.now) f.now (plain_stmt s.now)) }
{
    match s {
        Stmt::Call(c) => flat_call(alloc, d, c, f),
        _ => None,
    }
}
