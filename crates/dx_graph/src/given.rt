//! The arguments of a call, and which of them a parameter gets.
ghost use Rattle.std.specs.Prelude.{◌≡◌, List, All, map, option_map};
ghost use Rattle.dx_ast.specs.declared.expressions.Arg.{out-Arg};
ghost use Rattle.dx_ast.specs.Lawful.{IsLawfulParam};
ghost use Rattle.dx_macros.specs.Expansion as plain;
ghost use Rattle.dx_graph.specs.Graph.{Node};
ghost use Rattle.dx_graph.specs.Operands.{operand_tree, OperandFits, OptionFits, given_of, GivenFits};

use crate::operand::Operand;
use dx_ast::{Arg, Param};

/// An argument that is given, and what it means.
#[derive(Clone, Copy)]
pub struct Given<'a> {
    pub arg: &'a Arg,
    pub operand: Operand<'a>,
}

fn is_named(a: &Arg, name: &[u8]) -> bool
    ensures { result ≡ plain.is_named (out-Arg a.now).name name.now }
{
    match &a.name {
        Some(n) => n.bytes() == name,
        None => false,
    }
}

/// The argument that names a parameter.
fn given_by_name<'a>(given: &[Given<'a>], name: &[u8]) -> Option<Operand<'a>>
    ensures tree { (nodes : List Node) → option_map (operand_tree nodes) result ≡ plain.given_by_name (map (given_of nodes) given.now) name.now }
    ensures fits { (nodes : List Node) → All (GivenFits nodes) given.now → OptionFits nodes result }
{
    for g in given {
        if is_named(g.arg, name) {
            return Some(g.operand);
        }
    }
    None
}

fn unnamed<'a>(g: &Given<'a>) -> Option<Operand<'a>>
    ensures tree { (nodes : List Node) → option_map (operand_tree nodes) result ≡ plain.unnamed (out-Arg g.now.arg.now).name (operand_tree nodes g.now.operand) }
    ensures fits { (nodes : List Node) → GivenFits nodes g.now → OptionFits nodes result }
{
    match &g.arg.name {
        Some(_) => None,
        None => Some(g.operand),
    }
}

/// Argument number i, where that is given by its place.
fn given_by_place<'a>(given: &[Given<'a>], i: usize) -> Option<Operand<'a>>
    ensures tree { (nodes : List Node) → option_map (operand_tree nodes) result ≡ plain.given_by_place (map (given_of nodes) given.now) i }
    ensures fits { (nodes : List Node) → All (GivenFits nodes) given.now → OptionFits nodes result }
{
    match given.get(i) {
        Some(g) => unnamed(g),
        None => None,
    }
}

/// What is given for parameter number i, which has this name.
pub fn given_for<'a>(given: &[Given<'a>], i: usize, name: &[u8]) -> Option<Operand<'a>>
    ensures tree { (nodes : List Node) → option_map (operand_tree nodes) result ≡ plain.given_for (map (given_of nodes) given.now) i name.now }
    ensures fits { (nodes : List Node) → All (GivenFits nodes) given.now → OptionFits nodes result }
{
    match given_by_place(given, i) {
        Some(o) => Some(o),
        None => given_by_name(given, name),
    }
}

fn default_of<'a>(p: &'a Param) -> Operand<'a>
    ensures tree { (nodes : List Node) → operand_tree nodes result ≡ plain.default_tree p.now.default }
    ensures fits { (nodes : List Node) → ∥ IsLawfulParam p.now ∥₁ → OperandFits nodes result }
{
    match &p.default {
        Some(c) => Operand::Constant(c),
        None => Operand::Null,
    }
}

/// What parameter number i of a macro means at a call: what is given for it, or its default, or NULL.
pub fn param_operand<'a>(given: &[Given<'a>], i: usize, p: &'a Param) -> Operand<'a>
    ensures tree { (nodes : List Node) → operand_tree nodes result ≡ plain.or_tree (plain.given_for (map (given_of nodes) given.now) i p.now.name) (plain.default_tree p.now.default) }
    ensures fits { (nodes : List Node) → All (GivenFits nodes) given.now → ∥ IsLawfulParam p.now ∥₁ → OperandFits nodes result }
{
    match given_for(given, i, p.name.bytes()) {
        Some(o) => o,
        None => default_of(p),
    }
}
