//! The inputs of a node: what its arguments come to, in the order of the parameters.
ghost use Rattle.std.specs.Prelude.{◌≡◌, ◌≤◌, ◌+◌, ℕ, List, All, map, drop, length, IfOk, OnOk};
ghost use Rattle.dx_ast.specs.Table.{row_of};
ghost use Rattle.dx_macros.specs.Expansion as plain;
ghost use Rattle.dx_macros.specs.Tree.{NoTree};
ghost use Rattle.dx_graph.specs.Graph.{Node, MayTake};
ghost use Rattle.dx_graph.specs.Unfolding.{calls_of, tree_of, trees_of};
ghost use Rattle.dx_graph.specs.Operands.{operand_tree, OperandFits, given_of, GivenFits, before_trees};

use crate::given::{Given, given_for};
use crate::node::{Input, Inputs};
use crate::operand::Operand;
use dx_ast::{Const, more, params};
use dx_base::Function;
use std::alloc::{AllocError, Global};

/// The input that an operand is.
fn input_of<'a>(o: Operand<'a>) -> Result<Input, AllocError>
    ensures tree { IfOk result (λ i. (nodes : List Node) → tree_of (calls_of nodes) i ≡ operand_tree nodes o.entry) }
    ensures fits { IfOk result (λ i. (nodes : List Node) → OperandFits nodes o.entry → MayTake nodes (length nodes) i) }
{
    match o {
        Operand::Null => Ok(Input::Constant(Const::Null)),
        Operand::Number(n) => Ok(Input::Constant(Const::Int(n))),
        Operand::Constant(c) => Ok(Input::Constant(c.share()?)),
        Operand::Result(node, result) => Ok(Input::Result(node, result)),
    }
}

/// What is given for a parameter, or NULL.
fn named_operand<'a>(given: &[Given<'a>], i: usize, name: &[u8]) -> Operand<'a>
    ensures tree { (nodes : List Node) → operand_tree nodes result ≡ plain.or_tree (plain.given_for (map (given_of nodes) given.now) i name.now) plain.null_tree }
    ensures fits { (nodes : List Node) → All (GivenFits nodes) given.now → OperandFits nodes result }
{
    match given_for(given, i, name) {
        Some(o) => o,
        None => Operand::Null,
    }
}

/// The inputs for the named parameters, an omitted one being NULL.
fn named_inputs<'a>(
    alloc: Global,
    names: &[&[u8]],
    given: &[Given<'a>],
) -> Result<Inputs, AllocError>
    ensures trees { IfOk result (λ inputs. (nodes : List Node) (more : ℕ) →
        before_trees nodes inputs (plain.further more (drop (length names.now) (map (given_of nodes) given.now))) ≡ plain.inputs (map (λ p. p.now) names.now) more 0 (map (given_of nodes) given.now)) }
    ensures fits { IfOk result (λ inputs. (nodes : List Node) → All (GivenFits nodes) given.now → All (MayTake nodes (length nodes)) inputs) }
    ensures count { IfOk result (λ inputs. length inputs ≡ length names.now) }
{
    let mut inputs = Inputs::with_capacity(alloc, names.len().max(given.len()))?;
    for (i, name) in names.iter().enumerate() {
        inputs.push(input_of(named_operand(given, i, name))?)?;
    }
    Ok(inputs)
}

/// The further arguments join, as many as may follow.
fn put_further<'a>(inputs: &mut Inputs, more: usize, given: &[Given<'a>]) -> Result<(), AllocError>
    ensures trees { OnOk result ((nodes : List Node) →
        before_trees nodes inputs.new NoTree ≡ before_trees nodes inputs.old (plain.further more (map (given_of nodes) given.now))) }
    ensures fits { OnOk result ((nodes : List Node) → All (GivenFits nodes) given.now → All (MayTake nodes (length nodes)) inputs.old → All (MayTake nodes (length nodes)) inputs.new) }
    ensures few { OnOk result (length inputs.new ≤ length inputs.old + more) }
    ensures enough { OnOk result (length inputs.old ≤ length inputs.new) }
{
    for (i, g) in given.iter().enumerate() {
        if i >= more {
            return Ok(());
        }
        inputs.push(input_of(g.operand)?)?;
    }
    Ok(())
}

/// The arguments behind the first n.
fn behind<'g, 'a>(given: &'g [Given<'a>], n: usize) -> &'g [Given<'a>]
    ensures { result.now ≡ drop n given.now }
{
    if n <= given.len() { &given[n..] } else { &[] }
}

/// The inputs of a call of a function.
pub fn inputs_of<'a>(alloc: Global, f: Function, given: &[Given<'a>]) -> Result<Inputs, AllocError>
    ensures trees { IfOk result (λ inputs. (nodes : List Node) →
        trees_of (calls_of nodes) inputs ≡ plain.inputs (row_of f).params (row_of f).more 0 (map (given_of nodes) given.now)) }
    ensures fits { IfOk result (λ inputs. (nodes : List Node) → All (GivenFits nodes) given.now → All (MayTake nodes (length nodes)) inputs) }
    ensures enough { IfOk result (λ inputs. length (row_of f).params ≤ length inputs) }
    ensures few { IfOk result (λ inputs. length inputs ≤ length (row_of f).params + (row_of f).more) }
{
    let names = params(f);
    let mut inputs = named_inputs(alloc, names, given)?;
    put_further(&mut inputs, more(f) as usize, behind(given, names.len()))?;
    Ok(inputs)
}
