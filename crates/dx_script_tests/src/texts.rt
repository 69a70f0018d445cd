//! Texts of pieces and numbers.

use std::alloc::{AllocError, Global};

pub fn put(text: &mut Vec<u8>, piece: &str) -> Result<(), AllocError> {
    text.extend_from_slice(piece.as_bytes())
}

pub fn put_number(alloc: Global, text: &mut Vec<u8>, number: usize) -> Result<(), AllocError> {
    let digits = format!(in alloc; "{number}")?;
    text.extend_from_slice(digits.as_bytes())
}

/// A front, a number, and an end.
pub fn put_numbered(
    alloc: Global,
    text: &mut Vec<u8>,
    front: &str,
    number: usize,
    end: &str,
) -> Result<(), AllocError> {
    put(text, front)?;
    put_number(alloc, text, number)?;
    put(text, end)
}

/// A front, a piece so many times, and an end.
pub fn put_repeated(
    text: &mut Vec<u8>,
    front: &str,
    piece: &str,
    count: u32,
    end: &str,
) -> Result<(), AllocError> {
    put(text, front)?;
    for _ in 0..count {
        put(text, piece)?;
    }
    put(text, end)
}
