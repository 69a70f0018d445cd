//! The tokens of a text, as text.

use crate::writing::{put, put_bytes, put_error, put_number, put_place};
use dx_base::Bytes;
use dx_lexer::{LexFail, LexKind, Place, next};
use std::alloc::{AllocError, Global};

fn put_word(out: &mut Vec<u8>, word: &str, bytes: &Bytes) -> Result<(), AllocError> {
    put(out, word)?;
    put_bytes(out, bytes)
}

fn put_kind(alloc: Global, out: &mut Vec<u8>, kind: &LexKind) -> Result<(), AllocError> {
    match kind {
        LexKind::End => put(out, "end"),
        LexKind::Name(name) => put_word(out, "name ", name),
        LexKind::Int(value) => {
            put(out, "int ")?;
            put_number(alloc, out, *value)
        }
        LexKind::Text(inside) => put_word(out, "text ", inside),
        LexKind::Frame(word) => put_word(out, "frame ", word),
        LexKind::Sign(sign) => put_word(out, "sign ", sign),
    }
}

/// Writes what stands in a text, as `LINE:COLUMN-LINE:COLUMN KIND BYTES` for each token and `LINE:COLUMN ERROR` for a
/// refusal.
pub fn put_tokens(alloc: Global, out: &mut Vec<u8>, text: &[u8]) -> Result<(), AllocError> {
    let mut at = Place {
        offset: 0,
        line: 1,
        column: 1,
    };
    'tokens: for _ in 0..100 {
        let found = match next(alloc, text, at) {
            Ok(found) => found,
            Err(LexFail::Refused(e)) => return put_error(alloc, out, e),
            Err(LexFail::Memory) => return put(out, "memory"),
        };
        put_place(alloc, out, found.from.line, found.from.column)?;
        put(out, "-")?;
        put_place(alloc, out, found.to.line, found.to.column)?;
        put(out, " ")?;
        put_kind(alloc, out, &found.kind)?;
        if matches!(&found.kind, LexKind::End) {
            return Ok(());
        }
        put(out, ", ")?;
        at = found.to;
    }
    Ok(())
}
