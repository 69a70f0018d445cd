//! The names to which a text gave a meaning itself.
ghost use Rattle.std.specs.Prelude.{◌≡◌, ◌++◌, ℕ, List, Some, All, map, IfOk, OnOk};
ghost use Rattle.dx_base.specs.NameTable.{under_name, changed_at};
ghost use Rattle.dx_ast.specs.Lawful.{IsLawfulParam};
ghost use Rattle.dx_macros.specs.Expansion as plain;
ghost use Rattle.dx_graph.specs.Graph.{Node};
ghost use Rattle.dx_signatures.specs.Callees.{param_names};
ghost use Rattle.dx_texts.specs.Marks.{Holds};
ghost use Rattle.dx_graph.specs.Operands.{results_trees, ResultsFit, given_of, GivenFits, scope_with, OwnFits};

use dx_ast::Param;
use dx_base::Bytes;
use dx_graph::{Given, Operand, Results, param_operand};
use indexmap::IndexMap;
use std::alloc::{AllocError, Global};

/// What the names mean that a text gave a meaning itself.
pub type Own<'a> = IndexMap<Vec<u8>, Operand<'a>>;

/// The name means this from now on.
fn put<'a>(alloc: Global, own: &mut Own<'a>, name: &[u8], o: Operand<'a>) -> Result<(), AllocError>
    ensures { OnOk result (under_name own.new ≡ changed_at (under_name own.old) name.now (Some o.entry)) }
{
    let key = Vec::from_slice(alloc, name)?;
    own.insert(key, o)?;
    Ok(())
}

/// Each target means the result of its position.
pub fn assign<'a>(
    alloc: Global,
    own: &mut Own<'a>,
    targets: &[Bytes],
    results: &Results<'a>,
) -> Result<(), AllocError>
    ensures scope { OnOk result ((nodes : List Node) (top : plain.Scope) →
        scope_with nodes (under_name own.new) top ≡ plain.assigned targets.now 0 (results_trees nodes results.now) (scope_with nodes (under_name own.old) top)) }
    ensures fits { OnOk result ((nodes : List Node) → ResultsFit nodes results.now → OwnFits nodes (under_name own.old) → OwnFits nodes (under_name own.new)) }
    ensures own { OnOk result ((names : List (List ℕ)) → Holds (under_name own.old) names → Holds (under_name own.new) (names ++ targets.now)) }
{
    for (i, t) in targets.iter().enumerate() {
        put(alloc, own, t.bytes(), results.at(i))?;
    }
    Ok(())
}

/// The meanings of a macro's parameters at a call.
pub fn bind_params<'a>(
    alloc: Global,
    params: &'a [Param],
    given: &[Given<'a>],
) -> Result<Own<'a>, AllocError>
    ensures scope { IfOk result (λ own. (nodes : List Node) (top : plain.Scope) →
        scope_with nodes (under_name own) top ≡ plain.with_params params.now 0 (map (given_of nodes) given.now) top) }
    ensures fits { IfOk result (λ own. (nodes : List Node) → All (GivenFits nodes) given.now → ∥ All IsLawfulParam params.now ∥₁ → OwnFits nodes (under_name own)) }
    ensures own { IfOk result (λ own. Holds (under_name own) (param_names params.now)) }
{
    let mut own = IndexMap::new(alloc);
    for (i, p) in params.iter().enumerate() {
        put(alloc, &mut own, p.name.bytes(), param_operand(given, i, p))?;
    }
    Ok(own)
}
