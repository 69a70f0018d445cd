//! What reading answers, as rows tell it.
use dx_base::Bytes;
use dx_native_read::{NativeError, NativeFail, NativeKind, Object, read_object};
use dx_native_write::write_object;
use std::alloc::Global;
use std::test::Fail;

/// What reading a text answers.
pub(crate) enum Answer {
    /// An object, by its canonical text.
    Means(Bytes),
    Refused(NativeError),
}

fn text_of(alloc: Global, object: &Object) -> Result<Answer, Fail> {
    Ok(Answer::Means(write_object(alloc, object)?))
}

/// What a text means, or why it is refused.
pub(crate) fn read(alloc: Global, text: &[u8], which: Option<&Bytes>) -> Result<Answer, Fail> {
    match read_object(alloc, text, which) {
        Ok(object) => text_of(alloc, &object),
        Err(NativeFail::Refused(error)) => Ok(Answer::Refused(error)),
        Err(NativeFail::Memory) => Err(Fail::from("memory ran out")),
    }
}

/// Whether a text means the object of this canonical text.
pub(crate) fn means(alloc: Global, text: &[u8], wanted: &[u8]) -> Result<bool, Fail> {
    match read(alloc, text, None)? {
        Answer::Means(written) => Ok(written.bytes() == wanted),
        Answer::Refused(_) => Ok(false),
    }
}

/// Whether a text is refused so.
pub(crate) fn is_refused(
    alloc: Global,
    text: &[u8],
    which: Option<&Bytes>,
    wanted: NativeError,
) -> Result<bool, Fail> {
    match read(alloc, text, which)? {
        Answer::Means(_) => Ok(false),
        Answer::Refused(error) => Ok(error == wanted),
    }
}

/// A kind at an offset.
pub(crate) fn error(kind: NativeKind, at: usize) -> NativeError {
    NativeError {
        kind,
        at: at as u64,
    }
}
