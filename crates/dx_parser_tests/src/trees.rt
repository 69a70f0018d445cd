//! The statements of a text, as text.

use crate::writing::{put, put_bytes, put_count, put_error, put_number};
use dx_ast::{Arg, Assign, Call, Const, Expr, FrameVar, MacroDef, Stmt, Word};
use dx_base::Bytes;
use dx_parser::{ParseFail, parse};
use std::alloc::{AllocError, Global};

/// Writes texts with a blank behind each.
fn put_texts(out: &mut Vec<u8>, list: &[Bytes]) -> Result<(), AllocError> {
    for bytes in list {
        put_bytes(out, bytes)?;
        put(out, " ")?;
    }
    Ok(())
}

fn put_numbers(alloc: Global, out: &mut Vec<u8>, numbers: &[i32]) -> Result<(), AllocError> {
    let mut before = "[";
    for n in numbers {
        put(out, before)?;
        put_number(alloc, out, *n)?;
        before = ", ";
    }
    put(out, if numbers.is_empty() { "[]" } else { "]" })
}

fn put_constant(alloc: Global, out: &mut Vec<u8>, c: &Const) -> Result<(), AllocError> {
    match c {
        Const::Null => put(out, "NULL"),
        Const::Int(n) => put_number(alloc, out, *n),
        Const::Text(text) => {
            put(out, "'")?;
            out.extend_from_slice(text.as_slice())?;
            put(out, "'")
        }
        Const::Vector(numbers) => {
            put(out, "vector ")?;
            put_numbers(alloc, out, numbers.as_slice())
        }
        Const::Ints(numbers) => put_numbers(alloc, out, numbers.as_slice()),
        Const::Vectors(width, numbers) => {
            put(out, "by ")?;
            put_count(alloc, out, u64::from(*width))?;
            put(out, " ")?;
            put_numbers(alloc, out, numbers.as_slice())
        }
        Const::Texts(list) => {
            put(out, "texts ")?;
            put_texts(out, list.as_slice())
        }
    }
}

fn put_frame(out: &mut Vec<u8>, frame: FrameVar) -> Result<(), AllocError> {
    put(
        out,
        match frame {
            FrameVar::Start => "@Start",
            FrameVar::End => "@End",
            FrameVar::Delta => "@Delta",
            FrameVar::Next => "@Next",
            FrameVar::Frame => "@Frame",
        },
    )
}

fn put_cache(alloc: Global, out: &mut Vec<u8>, call: &Call) -> Result<(), AllocError> {
    put(out, "[")?;
    put_count(alloc, out, u64::from(call.cache))?;
    put(out, "]")
}

/// Writes an expression; of a call its name, how many arguments it has, and its cache.
fn put_expression(alloc: Global, out: &mut Vec<u8>, e: &Expr) -> Result<(), AllocError> {
    match e {
        Expr::Constant(c) => put_constant(alloc, out, c),
        Expr::Name(name) => put_bytes(out, name),
        Expr::Frame(frame) => put_frame(out, *frame),
        Expr::Call(call) => {
            let call = call.get();
            put_bytes(out, &call.name)?;
            put(out, "(")?;
            put_count(alloc, out, call.args.len() as u64)?;
            put(out, ")")?;
            put_cache(alloc, out, call)
        }
    }
}

fn put_arguments(alloc: Global, out: &mut Vec<u8>, args: &[Arg]) -> Result<(), AllocError> {
    for arg in args {
        if let Some(name) = &arg.name {
            put_bytes(out, name)?;
            put(out, ": ")?;
        }
        put_expression(alloc, out, &arg.value)?;
        put(out, " ")?;
    }
    Ok(())
}

fn put_assignment(alloc: Global, out: &mut Vec<u8>, assign: &Assign) -> Result<(), AllocError> {
    put_texts(out, assign.targets.as_slice())?;
    put(out, "= ")?;
    put_expression(alloc, out, &assign.value)
}

fn put_call(alloc: Global, out: &mut Vec<u8>, call: &Call) -> Result<(), AllocError> {
    put_bytes(out, &call.name)?;
    put(out, " ")?;
    put_arguments(alloc, out, call.args.as_slice())?;
    put_cache(alloc, out, call)
}

fn put_macro(alloc: Global, out: &mut Vec<u8>, m: &MacroDef) -> Result<(), AllocError> {
    put(out, "macro ")?;
    put_bytes(out, &m.name)?;
    put(out, " ")?;
    put_count(alloc, out, m.params.len() as u64)?;
    put(out, " -> ")?;
    put_texts(out, m.results.as_slice())?;
    put_count(alloc, out, m.body.len() as u64)
}

fn put_sequencer_word(out: &mut Vec<u8>, word: Word) -> Result<(), AllocError> {
    put(
        out,
        match word {
            Word::Play => "Play",
            Word::Step => "Step",
            Word::Stop => "Stop",
            Word::Forward => "Forward",
            Word::Backward => "Backward",
            Word::LoopOn => "LoopOn",
            Word::LoopOff => "LoopOff",
            Word::PalindromeOn => "PalindromeOn",
            Word::PalindromeOff => "PalindromeOff",
        },
    )
}

fn put_statement(alloc: Global, out: &mut Vec<u8>, s: &Stmt) -> Result<(), AllocError> {
    match s {
        Stmt::Assign(assign) => put_assignment(alloc, out, assign),
        Stmt::Call(call) => put_call(alloc, out, call),
        Stmt::Macro(m) => put_macro(alloc, out, m.get()),
        Stmt::Include(name) => {
            put(out, "include ")?;
            put_bytes(out, name)
        }
        Stmt::SetFrame(frame, e) => {
            put_frame(out, *frame)?;
            put(out, " = ")?;
            put_expression(alloc, out, e)
        }
        Stmt::Word(word) => put_sequencer_word(out, *word),
        Stmt::Sequence(call) => {
            put(out, "sequence ")?;
            put_bytes(out, &call.name)
        }
    }
}

fn put_statements(alloc: Global, out: &mut Vec<u8>, list: &[Stmt]) -> Result<(), AllocError> {
    for s in list {
        put_statement(alloc, out, s)?;
        put(out, "|")?;
    }
    Ok(())
}

/// Writes the statements of a text with a bar behind each, or its first error as `LINE:COLUMN KIND`.
pub fn put_parsed(alloc: Global, out: &mut Vec<u8>, text: &[u8]) -> Result<(), AllocError> {
    match parse(alloc, text) {
        Ok(statements) => put_statements(alloc, out, statements.as_slice()),
        Err(ParseFail::Refused(e)) => put_error(alloc, out, e),
        Err(ParseFail::Memory) => put(out, "memory"),
    }
}

/// Writes `ok` for a text that has statements, and its first error where it has none.
pub fn put_judged(alloc: Global, out: &mut Vec<u8>, text: &[u8]) -> Result<(), AllocError> {
    match parse(alloc, text) {
        Ok(_) => put(out, "ok"),
        Err(ParseFail::Refused(e)) => put_error(alloc, out, e),
        Err(ParseFail::Memory) => put(out, "memory"),
    }
}
