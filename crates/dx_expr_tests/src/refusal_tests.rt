//! Texts that are no expression.
use dx_expr::{ExprFail, parse_expr};
use std::alloc::Global;
use std::test::Fail;

/// Where a text is refused.
fn refused_at(alloc: Global, text: &[u8]) -> Option<u64> {
    match parse_expr(alloc, text) {
        Err(ExprFail::Refused(at)) => Some(at),
        _ => None,
    }
}

/// Texts that are no expression, each with the offset of its first token that doesn't fit, or of its end.
const REFUSED: [(&[u8], u64); 28] = [
    (b"", 0),
    (b"  ", 2),
    (b"absx(1)", 3),
    (b"minmax(1)", 3),
    (b"1e3", 1),
    (b"!=1", 0),
    (b"1 < = 2", 4),
    (b"min(1)", 5),
    (b"abs(1,2)", 5),
    (b"$21", 1),
    (b"$", 1),
    (b"$ 0 . 256", 6),
    (b"-2147483648", 1),
    (b"2147483648", 0),
    (b"1 +", 3),
    (b"1 2", 2),
    (b"1 < 2 < 3", 6),
    (b"1 == 2 == 3", 7),
    (b"(1", 2),
    (b"1)", 1),
    (b"[]", 1),
    (b"[1,]", 3),
    (b"[1].256", 4),
    (b"1 ? 2", 5),
    (b"1 & 2", 2),
    (b"dot(1 1)", 6),
    (b"sign 1", 5),
    (b"a", 0),
];

#[test]
fn refuses_at_the_first_misfit(rt: HostRuntime) -> Result<(), Fail> {
    for (text, at) in &REFUSED {
        assert!(rt; refused_at(rt.alloc(), text) == Some(*at));
    }
    Ok(())
}

/// A text of as many bytes as the number says, each the same, and then one more.
fn repeated(alloc: Global, byte: u8, count: usize, last: u8) -> Result<Vec<u8>, Fail> {
    let mut text = Vec::new(alloc);
    for _ in 0..count {
        text.push(byte)?;
    }
    text.push(last)?;
    Ok(text)
}

#[test]
fn refuses_at_the_limits(rt: HostRuntime) -> Result<(), Fail> {
    // The 65th open bracket, and 64 of them.
    let brackets = repeated(rt.alloc(), b'(', 65, b'1')?;
    assert!(rt; refused_at(rt.alloc(), &brackets) == Some(64));
    let brackets = repeated(rt.alloc(), b'(', 64, b'1')?;
    assert!(rt; refused_at(rt.alloc(), &brackets) == Some(65));
    // 4,097 bytes of an expression, 4,096 of them, and a misfit before the limit of a longer text.
    let signs = repeated(rt.alloc(), b'-', 4096, b'1')?;
    assert!(rt; refused_at(rt.alloc(), &signs) == Some(4096));
    let signs = repeated(rt.alloc(), b'-', 4095, b'1')?;
    assert!(rt; refused_at(rt.alloc(), &signs) == None);
    let misfits = repeated(rt.alloc(), b')', 5000, b'1')?;
    assert!(rt; refused_at(rt.alloc(), &misfits) == Some(0));
    Ok(())
}

/// A vector of as many parts as the number says.
fn vector_of(alloc: Global, count: usize) -> Result<Vec<u8>, Fail> {
    let mut text = Vec::from_slice(alloc, b"[1")?;
    for _ in 1..count {
        text.extend_from_slice(b",1")?;
    }
    text.push(b']')?;
    Ok(text)
}

#[test]
fn refuses_the_257th_part_at_the_comma_before_it(rt: HostRuntime) -> Result<(), Fail> {
    assert!(rt; refused_at(rt.alloc(), &vector_of(rt.alloc(), 256)?) == None);
    assert!(rt; refused_at(rt.alloc(), &vector_of(rt.alloc(), 257)?) == Some(512));
    Ok(())
}
