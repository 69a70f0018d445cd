//! What resolving ends in, and terms, as text.
ghost use Rattle.std.specs.Prelude.{◌<◌, length};
ghost use Rattle.dx_graph.specs.GraphView.{graph_of};

use dx_ast::{Const, name};
use dx_base::Function;
use dx_demand::{Resolved, Seen};
use dx_graph::Graph;
use dx_tags::{Named, Tag, Tags, Term, ValueTag};
use std::alloc::{AllocError, Global};

fn put(out: &mut Vec<u8>, piece: &str) -> Result<(), AllocError> {
    out.extend_from_slice(piece.as_bytes())
}

fn put_number(alloc: Global, out: &mut Vec<u8>, number: u64) -> Result<(), AllocError> {
    let digits = format!(in alloc; "{number}")?;
    out.extend_from_slice(digits.as_bytes())
}

/// Writes a tag, and its result where that isn't the first.
fn put_tag(alloc: Global, out: &mut Vec<u8>, t: ValueTag) -> Result<(), AllocError> {
    put_number(alloc, out, t.tag)?;
    if t.result > 0 {
        put(out, ".")?;
        put_number(alloc, out, t.result as u64)?;
    }
    Ok(())
}

/// Writes the site of a node behind a piece of text.
fn put_site(
    alloc: Global,
    g: &Graph,
    piece: &str,
    n: u32,
    out: &mut Vec<u8>,
) -> Result<(), AllocError> {
    put(out, piece)?;
    if n < g.len() {
        let site = g.site(alloc, n)?;
        out.extend_from_slice(site.bytes())?;
    }
    Ok(())
}

/// Writes what resolving ends in.
pub fn put_resolved(
    alloc: Global,
    g: &Graph,
    r: Resolved,
    out: &mut Vec<u8>,
) -> Result<(), AllocError> {
    match r {
        Resolved::Value(t) => {
            put(out, "value ")?;
            put_tag(alloc, out, t)
        }
        Resolved::Off => put(out, "off"),
        Resolved::Halt(n, _) => put_site(alloc, g, "halt ", n, out),
        Resolved::Need(t, n) => {
            put(out, "need ")?;
            put_tag(alloc, out, t)?;
            put_site(alloc, g, " of ", n, out)?;
            put(out, "; ")
        }
    }
}

/// Writes a constant; of a list that it is one.
fn put_const(alloc: Global, c: &Const, out: &mut Vec<u8>) -> Result<(), AllocError> {
    match c {
        Const::Null => put(out, "NULL"),
        Const::Int(n) => {
            if *n < 0 {
                put(out, "-")?;
            }
            put_number(alloc, out, n.unsigned_abs() as u64)
        }
        Const::Text(text) => {
            put(out, "\"")?;
            out.extend_from_slice(text.as_slice())?;
            put(out, "\"")
        }
        _ => put(out, "list"),
    }
}

fn put_arguments(
    alloc: Global,
    arguments: &[ValueTag],
    out: &mut Vec<u8>,
) -> Result<(), AllocError> {
    for t in arguments {
        put(out, " ")?;
        put_tag(alloc, out, *t)?;
    }
    Ok(())
}

fn put_held(alloc: Global, n: u64, out: &mut Vec<u8>) -> Result<(), AllocError> {
    put(out, "held ")?;
    put_number(alloc, out, n)
}

fn put_term(alloc: Global, t: &Term, out: &mut Vec<u8>) -> Result<(), AllocError> {
    match t {
        Term::Constant(c) => put_const(alloc, c, out),
        Term::Held(n) => put_held(alloc, *n, out),
        Term::Call(m, arguments) => {
            out.extend_from_slice(name(Function::Module(*m)))?;
            put_arguments(alloc, arguments.as_slice(), out)
        }
        Term::File(content) => {
            put(out, "file ")?;
            out.extend_from_slice(content.bytes())
        }
    }
}

fn put_named(alloc: Global, t: Named, out: &mut Vec<u8>) -> Result<(), AllocError> {
    match t {
        Named::Held(n) => put_held(alloc, n, out),
        Named::Formed(t) => put_term(alloc, t, out),
    }
}

/// Writes the terms from a tag on in the order in which they were formed; of a call with the site of the call that formed it first.
pub fn put_terms(
    alloc: Global,
    g: &Graph,
    first: Tag,
    tags: &Tags,
    seen: &Seen,
    out: &mut Vec<u8>,
) -> Result<(), AllocError> {
    for tag in first..tags.count() {
        put(out, " | ")?;
        put_named(alloc, tags.term(tag), out)?;
        if let Some(n) = seen.node_of(tag) {
            put_site(alloc, g, " by ", n, out)?;
        }
    }
    Ok(())
}

/// Writes the site of a call that data meets first of those with a term.
pub fn put_met(
    alloc: Global,
    g: &Graph,
    tag: Tag,
    n: u32,
    out: &mut Vec<u8>,
) -> Result<(), AllocError> {
    put(out, " met ")?;
    put_number(alloc, out, tag)?;
    put_site(alloc, g, " ", n, out)
}
