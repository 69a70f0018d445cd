//! What the tests of devices are made from.

use dx_base::Bytes;
use dx_io::{CallNumbers, FileFail, Files, NamedBytes};
use std::alloc::{AllocError, Global};

pub(crate) fn numbers(alloc: Global, calls: &[u64]) -> Result<CallNumbers, AllocError> {
    Ok(CallNumbers::from_vec(calls.to_vec(alloc)?))
}

pub(crate) fn named(alloc: Global, files: &[(&str, &str)]) -> Result<NamedBytes, AllocError> {
    let mut pairs = Vec::new(alloc);
    for (name, text) in files {
        let name = Bytes::copy_of(alloc, name.as_bytes())?;
        let text = Bytes::copy_of(alloc, text.as_bytes())?;
        pairs.push((name, text)).map_err(|_| AllocError)?;
    }
    Ok(NamedBytes::from_vec(pairs))
}

/// What a read answers.
#[derive(Clone, Copy, PartialEq, Eq)]
pub(crate) enum Answer {
    /// A file with this content.
    Found,
    /// A file with another content.
    Other,
    Missing,
    Fault,
    Memory,
}

/// What a read of the name answers, where this content is expected.
pub(crate) fn read<F: Files>(
    alloc: Global,
    files: &mut F,
    name: &[u8],
    content: &[u8],
) -> Result<Answer, AllocError> {
    let name = Bytes::copy_of(alloc, name)?;
    Ok(match files.read(alloc, &name) {
        Ok(Some(found)) if found.bytes() == content => Answer::Found,
        Ok(Some(_)) => Answer::Other,
        Ok(None) => Answer::Missing,
        Err(FileFail::Fault) => Answer::Fault,
        Err(FileFail::Memory) => Answer::Memory,
    })
}
