//! The files of a real folder.
ghost use Rattle.std.specs.Prelude.{◌≡◌, None, option_map};

use crate::fault::path_of;
use crate::{FaultCause, FileFail, Files, LastFault};
use dx_base::{Bytes, Fail};
use std::alloc::Global;
use std::io::{ErrorKind, Read};
use std::{fs, rt};

/// The longest file that is read, in bytes.
const MAX_LEN: usize = 1_073_741_824;

/// How many bytes are read at a time.
const PIECE: usize = 16_384;

/// The files of the folder that the program runs in. They tell neither their content nor what was asked for. A name
/// that no file can have is a file that isn't there, and a file that is too long counts as a fault.
#[derive(Drop)]
pub struct FolderFiles<'a, R: rt::Files> {
    rt: &'a R,
    faults: u64,
    last: Option<LastFault>,
}

impl<'a, R: rt::Files> FolderFiles<'a, R> {
    /// The files of this folder, none of whose reads has failed.
    pub fn new(rt: &'a R) -> FolderFiles<'a, R>
        ensures faults { result.faults ≡ 0 }
        ensures last { result.last ≡ None }
    {
        FolderFiles {
            rt,
            faults: 0,
            last: None,
        }
    }

    /// The last read that failed, with its name and its cause.
    pub fn last_fault(&self) -> Option<&LastFault>
        ensures { option_map (λ f. f.now) result ≡ self.now.last }
    {
        self.last.as_ref()
    }
}

impl<R: rt::Files> Files for FolderFiles<'_, R> {
    ghost use Rattle.std.specs.Prelude.{None};

    ghost content = { λ _. None };

    ghost asked = { λ _. None };

    ghost faults = { λ f. f.faults };

    fn read(&mut self, alloc: Global, name: &Bytes) -> Result<Option<Bytes>, FileFail> {
        let Some(path) = path_of(name) else {
            return Ok(None);
        };
        match bytes_of(self.rt, alloc, path) {
            Ok(found) => Ok(found.map(Bytes::from_vec)),
            Err(Fail::Memory) => Err(FileFail::Memory),
            Err(Fail::Refused(cause)) => {
                self.faults = self.faults.saturating_add(1);
                self.last = Some(LastFault::at(alloc, name, cause));
                Err(FileFail::Fault)
            }
        }
    }
}

// The system answers so for a name under which there is no file, and for one that no file can have: a path through a
// file, and a name that is too long.
fn is_missing(kind: ErrorKind) -> bool {
    matches!(
        kind,
        ErrorKind::NotFound | ErrorKind::NotADirectory | ErrorKind::InvalidFilename
    )
}

// All the bytes of a file, if there is one.
fn bytes_of<R: rt::Files>(
    rt: &R,
    alloc: Global,
    path: &str,
) -> Result<Option<Vec<u8>>, Fail<FaultCause>> {
    let mut file = match fs::open(rt, path) {
        Ok(file) => file,
        Err(e) if is_missing(e.kind()) => return Ok(None),
        Err(e) => return Err(Fail::Refused(FaultCause::System(e.kind()))),
    };
    let mut bytes = Vec::new(alloc);
    let mut piece = [0u8; PIECE];
    for _ in 0..u64::MAX {
        match file.read(&mut piece) {
            Ok(0) => return Ok(Some(bytes)),
            Ok(n) => bytes.extend_from_slice(&piece[..n])?,
            Err(e) if e.kind() == ErrorKind::Interrupted => {}
            Err(e) => return Err(Fail::Refused(FaultCause::System(e.kind()))),
        }
        if bytes.len() > MAX_LEN {
            return Err(Fail::Refused(FaultCause::TooLong));
        }
    }
    Err(Fail::Refused(FaultCause::TooLong))
}
