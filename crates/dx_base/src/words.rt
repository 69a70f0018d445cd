//! The words of the canonical text, put at the end of a text.
ghost use Rattle.std.specs.Prelude.{◌≡◌, ◌++◌, OnOk};
ghost use Rattle.std.specs.Fmt.{decimal, signed_decimal};
ghost use Rattle.dx_base.specs.Words as spec;
ghost use Rattle.dx_base.specs.Words.{all_escaped, escaped, quoted};

use crate::ElemType;
use itoa::Buffer;
use std::alloc::AllocError;

/// A count in decimal.
pub fn push_count(out: &mut Vec<u8>, n: u64) -> Result<(), AllocError>
    ensures { OnOk result (out.new.items ≡ out.old.items ++ decimal n) }
{
    let mut buffer = Buffer::new();
    out.extend_from_slice(buffer.format(n).as_bytes())
}

/// A number in decimal, behind a `-` where it is negative.
pub fn push_number(out: &mut Vec<u8>, n: i64) -> Result<(), AllocError>
    ensures { OnOk result (out.new.items ≡ out.old.items ++ signed_decimal n) }
{
    let mut buffer = Buffer::new();
    out.extend_from_slice(buffer.format(n).as_bytes())
}

/// Counts in decimal, each behind a space.
pub fn push_counts_behind(out: &mut Vec<u8>, counts: &[u32]) -> Result<(), AllocError>
    ensures { OnOk result (out.new.items ≡ out.old.items ++ spec.counts_behind counts.now) }
{
    for count in counts {
        out.push(b' ')?;
        push_count(out, u64::from(*count))?;
    }
    Ok(())
}

/// Numbers in decimal, each behind a space.
pub fn push_numbers_behind(out: &mut Vec<u8>, numbers: &[i64]) -> Result<(), AllocError>
    ensures { OnOk result (out.new.items ≡ out.old.items ++ spec.numbers_behind numbers.now) }
{
    for number in numbers {
        out.push(b' ')?;
        push_number(out, *number)?;
    }
    Ok(())
}

/// Numbers in decimal, separated by one space.
pub fn push_numbers(out: &mut Vec<u8>, numbers: &[i64]) -> Result<(), AllocError>
    ensures { OnOk result (out.new.items ≡ out.old.items ++ spec.spaced_numbers numbers.now) }
{
    match numbers {
        [] => Ok(()),
        [first, others @ ..] => {
            push_number(out, *first)?;
            push_numbers_behind(out, others)
        }
    }
}

/// The text in quotes, in which a quote, a backslash and a newline are written as two bytes.
pub fn push_quoted(out: &mut Vec<u8>, text: &[u8]) -> Result<(), AllocError>
    ensures { OnOk result (out.new.items ≡ out.old.items ++ quoted text.now) }
{
    out.push(b'"')?;
    push_all_escaped(out, text)?;
    out.push(b'"')?;
    Ok(())
}

fn push_all_escaped(out: &mut Vec<u8>, text: &[u8]) -> Result<(), AllocError>
    ensures { OnOk result (out.new.items ≡ out.old.items ++ all_escaped text.now) }
{
    for byte in text {
        push_escaped(out, *byte)?;
    }
    Ok(())
}

fn push_escaped(out: &mut Vec<u8>, byte: u8) -> Result<(), AllocError>
    ensures { OnOk result (out.new.items ≡ out.old.items ++ escaped byte) }
{
    match byte {
        b'"' => out.extend_from_slice(b"\\\""),
        b'\\' => out.extend_from_slice(b"\\\\"),
        b'\n' => out.extend_from_slice(b"\\n"),
        _ => Ok(out.push(byte)?),
    }
}

impl ElemType {
    /// The words for the type in the canonical text.
    pub fn word(self) -> &'static [u8]
        ensures { result.now ≡ spec.type_word self }
    {
        match self {
            ElemType::Byte => b"signed byte",
            ElemType::UByte => b"unsigned byte",
            ElemType::Short => b"short",
            ElemType::UShort => b"unsigned short",
            ElemType::Int => b"int",
            ElemType::UInt => b"unsigned int",
        }
    }
}
