//! The line on standard error that says why a session was cut short. No contract speaks of it.

use dx_base::push_quoted;
use dx_io::{FaultCause, LastFault};
use std::alloc::{AllocError, Global};
use std::io::ErrorKind;

/// The line where memory ran out.
pub const OUT_OF_MEMORY_LINE: &[u8] = b"dxi: out of memory\n";

/// The line of a device that failed: what can't be done, and to which name where the device has one, and why. There is none for a
/// reader that has closed the pipe.
pub fn fault_line(
    alloc: Global,
    what: &[u8],
    fault: Option<&LastFault>,
) -> Result<Vec<u8>, AllocError> {
    let mut line = Vec::new(alloc);
    match fault {
        None => push_line(&mut line, what, None, b"the system refuses it")?,
        Some(fault) => {
            if fault.cause != FaultCause::System(ErrorKind::BrokenPipe) {
                let name = fault.name.as_ref().map(|name| name.bytes());
                push_line(&mut line, what, name, words_of(fault.cause).as_bytes())?;
            }
        }
    }
    Ok(line)
}

fn push_line(
    line: &mut Vec<u8>,
    what: &[u8],
    name: Option<&[u8]>,
    why: &[u8],
) -> Result<(), AllocError> {
    line.extend_from_slice(b"dxi: cannot ")?;
    line.extend_from_slice(what)?;
    if let Some(name) = name {
        line.push(b' ')?;
        push_quoted(line, name)?;
    }
    line.extend_from_slice(b": ")?;
    line.extend_from_slice(why)?;
    line.push(b'\n')?;
    Ok(())
}

fn words_of(cause: FaultCause) -> &'static str {
    match cause {
        FaultCause::TooLong => "the file is longer than 1073741824 bytes",
        FaultCause::NoFileName => "no file can have this name",
        FaultCause::System(kind) => system_words(kind),
    }
}

fn system_words(kind: ErrorKind) -> &'static str {
    match kind {
        ErrorKind::NotFound => "no such file or folder",
        ErrorKind::PermissionDenied => "permission denied",
        ErrorKind::IsADirectory => "is a folder",
        ErrorKind::NotADirectory => "a part of the path is no folder",
        ErrorKind::StorageFull => "no space left",
        ErrorKind::QuotaExceeded => "no space left within the quota",
        ErrorKind::FileTooLarge => "the file would be too large",
        ErrorKind::ReadOnlyFilesystem => "the file system is read-only",
        ErrorKind::InvalidFilename => "the name is too long",
        ErrorKind::FilesystemLoop => "too many links follow each other",
        ErrorKind::ExecutableFileBusy | ErrorKind::ResourceBusy => "it is in use",
        ErrorKind::OutOfMemory => "out of memory",
        _ => "the system refuses it",
    }
}
