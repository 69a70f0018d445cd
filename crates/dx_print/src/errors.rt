//! The lines of errors, and the words of the codes with which modules refuse their inputs.
ghost use Rattle.std.specs.Prelude.{◌≡◌, ◌++◌, OnOk};
ghost use Rattle.dx_print.specs.Errors as spec;

use dx_base::{Code, NativeKind, push_count};
use std::alloc::AllocError;

/// The line of an error of something that has a name, as a call or a file has: `error NAME: WHAT`.
pub fn push_error_line(out: &mut Vec<u8>, name: &[u8], what: &[u8]) -> Result<(), AllocError>
    ensures { OnOk result (out.new.items ≡ out.old.items ++ spec.error_line name.now what.now) }
{
    out.extend_from_slice(b"error ")?;
    out.extend_from_slice(name)?;
    out.extend_from_slice(b": ")?;
    out.extend_from_slice(what)?;
    Ok(out.push(b'\n')?)
}

/// The word of a code, with what it tells: of a file the kind and the offset in bytes, of an expression the offset in bytes.
pub fn push_code(out: &mut Vec<u8>, code: Code) -> Result<(), AllocError>
    ensures { OnOk result (out.new.items ≡ out.old.items ++ spec.code_text code) }
{
    match code {
        Code::BadArgument => out.extend_from_slice(b"BadArgument"),
        Code::Unsupported => out.extend_from_slice(b"Unsupported"),
        Code::NoFile => out.extend_from_slice(b"NoFile"),
        Code::BadFile(kind, at) => push_bad_file(out, kind, at),
        Code::BadField => out.extend_from_slice(b"BadField"),
        Code::Overflow => out.extend_from_slice(b"Overflow"),
        Code::DivisionByZero => out.extend_from_slice(b"DivisionByZero"),
        Code::ItemMismatch => out.extend_from_slice(b"ItemMismatch"),
        Code::BadExpression(at) => push_bad_expression(out, at),
        Code::NoComponent => out.extend_from_slice(b"NoComponent"),
        Code::NoMember => out.extend_from_slice(b"NoMember"),
        Code::NotRegular => out.extend_from_slice(b"NotRegular"),
        Code::TooLarge => out.extend_from_slice(b"TooLarge"),
    }
}

fn push_bad_file(out: &mut Vec<u8>, kind: NativeKind, at: u64) -> Result<(), AllocError>
    ensures { OnOk result (out.new.items ≡ out.old.items ++ spec.code_text (Code.BadFile kind at)) }
{
    out.extend_from_slice(b"BadFile ")?;
    out.extend_from_slice(native_kind(kind))?;
    out.extend_from_slice(b" ")?;
    push_count(out, at)
}

fn push_bad_expression(out: &mut Vec<u8>, at: u64) -> Result<(), AllocError>
    ensures { OnOk result (out.new.items ≡ out.old.items ++ spec.code_text (Code.BadExpression at)) }
{
    out.extend_from_slice(b"BadExpression ")?;
    push_count(out, at)
}

fn native_kind(kind: NativeKind) -> &'static [u8]
    ensures { result.now ≡ spec.native_kind_text kind }
{
    match kind {
        NativeKind::Syntax => b"Syntax",
        NativeKind::FloatType => b"FloatType",
        NativeKind::UnknownClass => b"UnknownClass",
        NativeKind::NoObject => b"NoObject",
        NativeKind::BadPart => b"BadPart",
        NativeKind::ValueRange => b"ValueRange",
        NativeKind::TooManyItems => b"TooManyItems",
        NativeKind::Truncated => b"Truncated",
        NativeKind::NoVariable => b"NoVariable",
        NativeKind::TooDeep => b"TooDeep",
        NativeKind::TooLarge => b"TooLarge",
        NativeKind::OtherFile => b"OtherFile",
    }
}
