//! Exported files in a real folder.
ghost use Rattle.std.specs.Prelude.{◌≡◌, None, option_map};

use crate::fault::path_of;
use crate::{ExportFail, Exports, FaultCause, LastFault};
use dx_base::{Bytes, Fail};
use std::alloc::Global;
use std::fs::{File, OpenFile, Permissions};
use std::io::{Error, ErrorKind, Write};
use std::{fs, rt};

/// How many names of fresh files are tried.
const FRESH_NAMES: u32 = 1_000;

/// Exports into the folder that the program runs in. They tell nothing of the puts. A put writes a fresh file beside the
/// name and renames it, where nothing or an ordinary file stands under the name and the folder lets it, so that the old
/// content stays whole until the new one is; the mode of the old file is kept. Everywhere else, as for a link, a device
/// or a pipe, it writes under the name itself. A name that no file can have is a fault.
#[derive(Drop)]
pub struct FolderExports<'a, R: rt::Files> {
    rt: &'a R,
    faults: u64,
    last: Option<LastFault>,
}

impl<'a, R: rt::Files> FolderExports<'a, R> {
    /// Exports into this folder, none of whose puts has failed.
    pub fn new(rt: &'a R) -> FolderExports<'a, R>
        ensures faults { result.faults ≡ 0 }
        ensures last { result.last ≡ None }
    {
        FolderExports {
            rt,
            faults: 0,
            last: None,
        }
    }

    /// The last put that failed, with its name and its cause.
    pub fn last_fault(&self) -> Option<&LastFault>
        ensures { option_map (λ f. f.now) result ≡ self.now.last }
    {
        self.last.as_ref()
    }
}

impl<R: rt::Files> Exports for FolderExports<'_, R> {
    ghost use Rattle.std.specs.Prelude.{None};

    ghost puts = { λ _. None };

    ghost faults = { λ f. f.faults };

    fn put(&mut self, alloc: Global, name: &Bytes, content: &[u8]) -> Result<(), ExportFail> {
        match put_file(self.rt, alloc, name, content) {
            Ok(()) => Ok(()),
            Err(Fail::Memory) => Err(ExportFail::Memory),
            Err(Fail::Refused(cause)) => {
                self.faults = self.faults.saturating_add(1);
                self.last = Some(LastFault::at(alloc, name, cause));
                Err(ExportFail::Fault)
            }
        }
    }
}

fn system(e: Error) -> FaultCause {
    FaultCause::System(e.kind())
}

fn put_file<R: rt::Files>(
    rt: &R,
    alloc: Global,
    name: &Bytes,
    content: &[u8],
) -> Result<(), Fail<FaultCause>> {
    let Some(path) = path_of(name) else {
        return Err(Fail::Refused(FaultCause::NoFileName));
    };
    let replaced = match what_stands_at(rt, path) {
        Standing::Nothing => replace(rt, alloc, path, None, content)?,
        Standing::OrdinaryFile(mode) => replace(rt, alloc, path, Some(mode), content)?,
        Standing::Other => false,
    };
    if replaced {
        return Ok(());
    }
    write_under(rt, path, content).map_err(Fail::Refused)
}

// What stands under a name.
#[derive(Drop)]
enum Standing {
    Nothing,
    OrdinaryFile(Permissions),
    Other,
}

fn what_stands_at<R: rt::Files>(rt: &R, path: &str) -> Standing {
    match fs::symlink_metadata(rt, path) {
        Ok(found) if found.is_file() => Standing::OrdinaryFile(found.permissions()),
        Err(e) if e.kind() == ErrorKind::NotFound => Standing::Nothing,
        _ => Standing::Other,
    }
}

// Writes a fresh file and gives it the name. False where the folder doesn't let it, and then no file is left behind.
fn replace<R: rt::Files>(
    rt: &R,
    alloc: Global,
    path: &str,
    mode: Option<Permissions>,
    content: &[u8],
) -> Result<bool, Fail<FaultCause>> {
    let Some((fresh, file)) = fresh_file(rt, alloc, path)? else {
        return Ok(false);
    };
    let replaced = match fill(file, mode, content) {
        Ok(true) => fs::rename(rt, fresh.as_str(), path).is_ok(),
        Ok(false) => false,
        Err(cause) => {
            let _ = fs::remove_file(rt, fresh.as_str());
            return Err(Fail::Refused(cause));
        }
    };
    if !replaced {
        let _ = fs::remove_file(rt, fresh.as_str());
    }
    Ok(replaced)
}

// A new file in the folder of the path, with its name; nothing where none can be made there. No file that stands there
// is opened.
fn fresh_file<R: rt::Files>(
    rt: &R,
    alloc: Global,
    path: &str,
) -> Result<Option<(String, R::File)>, Fail<FaultCause>> {
    for number in 0..FRESH_NAMES {
        let name = match path.rsplit_once('/') {
            Some((folder, _)) => format!(in alloc; "{folder}/.dxi-{number}")?,
            None => format!(in alloc; ".dxi-{number}")?,
        };
        match File::create_new(rt, name.as_str()) {
            Ok(file) => return Ok(Some((name, file))),
            Err(e) if e.kind() == ErrorKind::AlreadyExists => {}
            Err(_) => return Ok(None),
        }
    }
    Ok(None)
}

// Gives the file its mode and its content. False where it can't have the mode.
fn fill<F: Write + OpenFile + Drop>(
    mut file: F,
    mode: Option<Permissions>,
    content: &[u8],
) -> Result<bool, FaultCause> {
    if let Some(mode) = mode {
        if file.set_permissions(mode).is_err() {
            return Ok(false);
        }
    }
    match file.write_all(content) {
        Ok(()) => Ok(true),
        Err(e) => Err(system(e)),
    }
}

// Writes under the name itself.
fn write_under<R: rt::Files>(rt: &R, path: &str, content: &[u8]) -> Result<(), FaultCause> {
    match fs::create(rt, path) {
        Ok(mut file) => file.write_all(content).map_err(system),
        Err(e) => Err(system(e)),
    }
}
