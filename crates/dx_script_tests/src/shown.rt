//! Graphs as text.

use crate::texts::{put_number, put_numbered};
use dx_ast::Const;
use dx_graph::{Graph, Input};
use std::alloc::{AllocError, Global};

/// Writes a constant; of an integer its distance from zero, of a list that it is one.
pub fn write_const(alloc: Global, c: &Const, out: &mut Vec<u8>) -> Result<(), AllocError> {
    match c {
        Const::Null => out.extend_from_slice(b"NULL"),
        Const::Int(n) => put_number(alloc, out, n.unsigned_abs() as usize),
        Const::Text(text) => {
            out.push(b'"')?;
            out.extend_from_slice(text.as_slice())?;
            out.push(b'"')?;
            Ok(())
        }
        _ => out.extend_from_slice(b"list"),
    }
}

fn write_input(alloc: Global, input: &Input, out: &mut Vec<u8>) -> Result<(), AllocError> {
    match input {
        Input::Constant(c) => write_const(alloc, c, out),
        Input::Result(node, result) => {
            put_number(alloc, out, *result as usize)?;
            put_numbered(alloc, out, " of ", *node as usize, "")
        }
    }
}

fn write_inputs(alloc: Global, inputs: &[Input], out: &mut Vec<u8>) -> Result<(), AllocError> {
    for input in inputs {
        out.push(b' ')?;
        write_input(alloc, input, out)?;
    }
    Ok(())
}

/// Writes a node as `SITE in PATH cache CACHE: INPUTS`.
fn write_node(alloc: Global, g: &Graph, n: u32, out: &mut Vec<u8>) -> Result<(), AllocError> {
    if n >= g.len() {
        return Ok(());
    }
    let site = g.site(alloc, n)?;
    let path = g.path(alloc, n)?;
    let node = g.node(n);
    out.extend_from_slice(site.bytes())?;
    out.extend_from_slice(b" in ")?;
    out.extend_from_slice(path.bytes())?;
    put_numbered(alloc, out, " cache ", node.cache as usize, ":")?;
    write_inputs(alloc, node.inputs.as_slice(), out)
}

/// Writes the effects of a graph, a line for each.
pub fn write_effects(alloc: Global, g: &Graph, out: &mut Vec<u8>) -> Result<(), AllocError> {
    for n in g.effects() {
        write_node(alloc, g, *n, out)?;
        out.push(b'\n')?;
    }
    Ok(())
}
