//! A real folder as input and as output.

use crate::made::{Answer, read};
use dx_base::Bytes;
use dx_io::{ExportFail, Exports, FaultCause, FolderExports, FolderFiles, LastFault};
use std::alloc::AllocError;
use std::os::unix::fs::{PermissionsExt, symlink};
use std::test::Fail;
use std::{fs, io};

/// What a read in the folder answers, where this content is expected.
pub(crate) fn read_back(
    rt: &HostRuntime,
    name: &[u8],
    content: &[u8],
) -> Result<Answer, AllocError> {
    read(rt.alloc(), &mut FolderFiles::new(rt), name, content)
}

fn put(
    rt: &HostRuntime,
    name: &[u8],
    content: &[u8],
) -> Result<Result<(), ExportFail>, AllocError> {
    let name = Bytes::copy_of(rt.alloc(), name)?;
    Ok(FolderExports::new(rt).put(rt.alloc(), &name, content))
}

// Whether a put of this content is done.
fn is_put(rt: &HostRuntime, name: &[u8], content: &[u8]) -> Result<bool, AllocError> {
    Ok(put(rt, name, content)?.is_ok())
}

// An empty folder, whatever an earlier run has left.
fn make_folder(rt: &HostRuntime, folder: &str) -> io::Result<()> {
    let _ = fs::remove_dir_all(rt, folder).is_ok();
    fs::create_dir(rt, folder)
}

// How many names a folder has.
fn names_in(rt: &HostRuntime, folder: &str) -> io::Result<usize> {
    let mut names = 0usize;
    for entry in fs::read_dir(rt, folder)? {
        let _ = entry?;
        names = names.saturating_add(1);
    }
    Ok(names)
}

fn mode_of(rt: &HostRuntime, path: &str) -> io::Result<u32> {
    Ok(fs::metadata(rt, path)?.permissions().mode())
}

fn is_link(rt: &HostRuntime, path: &str) -> io::Result<bool> {
    Ok(fs::symlink_metadata(rt, path)?.is_symlink())
}

fn is_named(fault: Option<&LastFault>, wanted: &[u8]) -> bool {
    match fault {
        Some(fault) => match &fault.name {
            Some(name) => name.bytes() == wanted,
            None => false,
        },
        None => false,
    }
}

const FILE: &str = "/tmp/dx_io-no-folder";

const READS: &[(&[u8], Answer)] = &[
    (b"/tmp/dx_io-no-folder", Answer::Found),
    (b"/tmp/dx_io-there-is-no-such-file", Answer::Missing),
    (b"/tmp/dx_io-no-folder/a", Answer::Missing),
    (b"/tmp/\xff", Answer::Missing),
    (b"/tmp/dx_io\0", Answer::Missing),
    (b"", Answer::Missing),
    (&[b'x'; 300], Answer::Missing),
    (b"/tmp", Answer::Fault),
];

// Whether each read answers as its row says, and the last fault has the name of the last one.
fn reads_answer(rt: &HostRuntime) -> Result<bool, AllocError> {
    let mut files = FolderFiles::new(rt);
    for (name, wanted) in READS {
        if read(rt.alloc(), &mut files, name, b"abc")? != *wanted {
            return Ok(false);
        }
    }
    Ok(is_named(files.last_fault(), b"/tmp"))
}

#[test]
fn a_name_that_no_file_can_have_is_a_missing_file(rt: HostRuntime) -> Result<(), Fail> {
    fs::write(&rt, FILE, "abc")?;
    assert!(rt; reads_answer(&rt)?);
    fs::remove_file(&rt, FILE)?;
    Ok(())
}

const PUTS: &str = "/tmp/dx_io-puts";

#[test]
fn a_put_replaces_a_file_and_keeps_its_mode(rt: HostRuntime) -> Result<(), Fail> {
    make_folder(&rt, PUTS)?;
    fs::write(&rt, "/tmp/dx_io-puts/.dxi-0", "mine")?;
    assert!(rt; is_put(&rt, b"/tmp/dx_io-puts/a", b"one")?);
    fs::set_permissions(&rt, "/tmp/dx_io-puts/a", fs::Permissions::from_mode(0o640))?;
    assert!(rt; is_put(&rt, b"/tmp/dx_io-puts/a", b"two")?);
    assert!(rt; mode_of(&rt, "/tmp/dx_io-puts/a")? & 0o777 == 0o640);
    assert!(rt; read_back(&rt, b"/tmp/dx_io-puts/a", b"two")? == Answer::Found);
    assert!(rt; read_back(&rt, b"/tmp/dx_io-puts/.dxi-0", b"mine")? == Answer::Found);
    assert!(rt; names_in(&rt, PUTS)? == 2);
    fs::remove_dir_all(&rt, PUTS)?;
    Ok(())
}

const LINKED: &str = "/tmp/dx_io-linked-puts";

#[test]
fn a_put_through_a_link_writes_what_it_leads_to(rt: HostRuntime) -> Result<(), Fail> {
    make_folder(&rt, LINKED)?;
    fs::write(&rt, "/tmp/dx_io-linked-puts/a", "a longer text")?;
    symlink(&rt, "/tmp/dx_io-linked-puts/a", "/tmp/dx_io-linked-puts/b")?;
    assert!(rt; is_put(&rt, b"/tmp/dx_io-linked-puts/b", b"two")?);
    assert!(rt; read_back(&rt, b"/tmp/dx_io-linked-puts/a", b"two")? == Answer::Found);
    assert!(rt; is_link(&rt, "/tmp/dx_io-linked-puts/b")?);
    assert!(rt; is_put(&rt, b"/dev/null", b"two")?);
    fs::remove_dir_all(&rt, LINKED)?;
    Ok(())
}

// Names under which no file can be put, and whether no file can have the name.
const REFUSED: &[(&[u8], bool)] = &[
    (b"/tmp/\xff", true),
    (b"/tmp/dx_io\0", true),
    (b"/tmp", false),
    (b"/tmp/dx_io-there-is-no-such-folder/a", false),
    (b"", false),
];

fn is_no_name(fault: Option<&LastFault>) -> bool {
    match fault {
        Some(fault) => fault.cause == FaultCause::NoFileName,
        None => false,
    }
}

// Whether a put fails, is kept under its name, and is one of a name that no file can have just where that is told.
fn fails<'a>(
    rt: &HostRuntime,
    exports: &mut FolderExports<'a, HostRuntime>,
    name: &[u8],
    told: bool,
) -> Result<bool, AllocError> {
    let name = Bytes::copy_of(rt.alloc(), name)?;
    let is_fault = exports.put(rt.alloc(), &name, b"two") == Err(ExportFail::Fault);
    let fault = exports.last_fault();
    Ok(is_fault && is_named(fault, name.bytes()) && is_no_name(fault) == told)
}

#[test]
fn a_put_that_fails_keeps_its_name_and_its_cause(rt: HostRuntime) -> Result<(), Fail> {
    let mut exports = FolderExports::new(&rt);
    assert!(rt; exports.last_fault().is_none());
    for (name, told) in REFUSED {
        assert!(rt; fails(&rt, &mut exports, name, *told)?);
    }
    Ok(())
}
