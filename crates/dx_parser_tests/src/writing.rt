//! Words, numbers and refusals, written behind what a text has so far.

use dx_base::{Bytes, SyntaxError, SyntaxKind};
use std::alloc::{AllocError, Global};

pub fn put(out: &mut Vec<u8>, text: &str) -> Result<(), AllocError> {
    out.extend_from_slice(text.as_bytes())
}

pub fn put_bytes(out: &mut Vec<u8>, bytes: &Bytes) -> Result<(), AllocError> {
    out.extend_from_slice(bytes.bytes())
}

pub fn put_number(alloc: Global, out: &mut Vec<u8>, number: i32) -> Result<(), AllocError> {
    let digits = format!(in alloc; "{number}")?;
    put(out, digits.as_str())
}

pub fn put_count(alloc: Global, out: &mut Vec<u8>, count: u64) -> Result<(), AllocError> {
    let digits = format!(in alloc; "{count}")?;
    put(out, digits.as_str())
}

/// Writes `LINE:COLUMN`.
pub fn put_place(
    alloc: Global,
    out: &mut Vec<u8>,
    line: u64,
    column: u64,
) -> Result<(), AllocError> {
    put_count(alloc, out, line)?;
    put(out, ":")?;
    put_count(alloc, out, column)
}

fn word_of(kind: SyntaxKind) -> &'static str {
    match kind {
        SyntaxKind::Syntax => "Syntax",
        SyntaxKind::FloatNumber => "FloatNumber",
        SyntaxKind::NumberRange => "NumberRange",
        SyntaxKind::MixedList => "MixedList",
        SyntaxKind::ListTooLong => "ListTooLong",
    }
}

/// Writes `LINE:COLUMN KIND`.
pub fn put_error(alloc: Global, out: &mut Vec<u8>, e: SyntaxError) -> Result<(), AllocError> {
    put_place(alloc, out, e.line, e.column)?;
    put(out, " ")?;
    put(out, word_of(e.kind))
}
