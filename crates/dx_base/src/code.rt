//! Why a module, an effect or a file is refused.

/// Why a module, an effect or a selector refuses its inputs. `BadFile` and `BadExpression` hold the offset at which
/// the file or the expression goes wrong, counted in bytes from 0.
#[derive(Clone, Copy, Debug, PartialEq, Eq)]
pub enum Code {
    BadArgument,
    Unsupported,
    NoFile,
    BadFile(NativeKind, u64),
    BadField,
    Overflow,
    DivisionByZero,
    ItemMismatch,
    BadExpression(u64),
    NoComponent,
    NoMember,
    NotRegular,
    TooLarge,
}

/// Why a text is no native file.
#[derive(Clone, Copy, Debug, PartialEq, Eq)]
pub enum NativeKind {
    Syntax,
    FloatType,
    UnknownClass,
    NoObject,
    BadPart,
    ValueRange,
    TooManyItems,
    Truncated,
    NoVariable,
    TooDeep,
    TooLarge,
    OtherFile,
}
