//! The program: it hands the words of its command line, the files of its folder, the standard output and the modules to `run_dxi`, and
//! ends with the status that it answers. Where the session was cut short, a line on standard error says why.
#![tactic(auto)]

mod fault_line;

use dx_io::{FolderExports, FolderFiles, LastFault, StdSink};
use dx_modules::Modules;
use dx_session::run_dxi;
use fault_line::{OUT_OF_MEMORY_LINE, fault_line};
use std::alloc::{AllocError, AllocGlobal};
use std::env;
use std::io::{self, ErrorKind, Print};
use std::process::ExitCode;
use std::rt::Env;

/// The status where memory ran out before the words were read.
const OUT_OF_MEMORY: u8 = 7;

fn main(rt: HostRuntime) -> ExitCode {
    let mut files = FolderFiles::new(&rt);
    let mut exports = FolderExports::new(&rt);
    let mut out = StdSink::new(io::writer(&rt));
    let mut modules = Modules::new();
    let status = match words(&rt) {
        Ok(words) => run_dxi(
            rt.alloc(),
            &words,
            &mut files,
            &mut exports,
            &mut out,
            &mut modules,
        ),
        Err(AllocError) => OUT_OF_MEMORY,
    };
    match status {
        4 => tell(&rt, b"read", files.last_fault()),
        5 => tell(&rt, b"write the output", out.last_fault()),
        6 => tell(&rt, b"export", exports.last_fault()),
        7 => write_line(&rt, OUT_OF_MEMORY_LINE),
        _ => {}
    }
    ExitCode::from(status)
}

// A line about a device that failed, if there is memory for it.
fn tell(rt: &HostRuntime, what: &[u8], fault: Option<&LastFault>) {
    if let Ok(line) = fault_line(rt.alloc(), what, fault) {
        write_line(rt, &line);
    }
}

// A line that can't be written changes nothing.
fn write_line(rt: &HostRuntime, line: &[u8]) {
    let _ = rt.stderr().write_all(line);
}

// The words behind the program's name. A line with a word that isn't UTF-8 has none, since it is no line of `dxi`.
fn words<R: Env + AllocGlobal>(rt: &R) -> Result<Vec<String>, AllocError> {
    let mut words = Vec::new(rt.alloc());
    match env::args(rt) {
        Ok(args) => {
            for word in args.skip(1) {
                words.push(word)?;
            }
            Ok(words)
        }
        Err(e) if e.kind() == ErrorKind::InvalidData => Ok(words),
        Err(_) => Err(AllocError),
    }
}
