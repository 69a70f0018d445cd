//! The last fault of a real device, for a line on standard error.

ghost use Rattle.std.specs.Prelude.{◌≡◌};

use dx_base::Bytes;
use std::alloc::Global;
use std::io::ErrorKind;
use thiserror::Error;

/// Why a call of a real device failed.
#[derive(Clone, Copy, Debug, Error, PartialEq, Eq)]
pub enum FaultCause {
    /// What the system answered.
    #[error("{0}")]
    System(ErrorKind),
    /// A file of more than 1,073,741,824 bytes is not read.
    #[error("the file is longer than 1073741824 bytes")]
    TooLong,
    /// A name that isn't UTF-8, or that has a NUL byte.
    #[error("no file can have this name")]
    NoFileName,
}

/// A fault with the name that was asked for or put. The name is missing where there was no memory for it, and where the
/// device has none.
#[derive(Debug, Drop)]
pub struct LastFault {
    pub name: Option<Bytes>,
    pub cause: FaultCause,
}

impl LastFault {
    /// The fault at a name, of which a copy is kept where there is memory for it.
    pub(crate) fn at(alloc: Global, name: &Bytes, cause: FaultCause) -> LastFault
        ensures { result.cause ≡ cause }
    {
        LastFault {
            name: Bytes::copy_of(alloc, name.bytes()).ok(),
            cause,
        }
    }
}

/// The path of a name, or nothing where no file can have it: a name that isn't UTF-8, or that has a NUL byte.
pub(crate) fn path_of(name: &Bytes) -> Option<&str> {
    if name.bytes().contains(&0) {
        return None;
    }
    std::str::from_utf8(name.bytes()).ok()
}
