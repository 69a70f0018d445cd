//! An execution over devices in memory, and what is seen of it.
ghost use Rattle.dx_engine.specs.Keeping.{StateFits};

use crate::shown::{push_ended, push_happened, push_names, push_number, push_puts};
use dx_base::Bytes;
use dx_engine::{ExecError, State};
use dx_graph::Graph;
use dx_io::{CallNumbers, MemExports, MemFiles, MemSink, NamedBytes};
use dx_modules::Modules;
use dx_objects::Recorder;
use std::alloc::{AllocError, Global};

/// The numbers of the read, the write and the put that fail; 0 for none.
#[derive(Clone, Copy)]
pub struct Failing {
    pub read: u64,
    pub write: u64,
    pub put: u64,
}

/// No call of a device fails.
pub const NONE: Failing = Failing {
    read: 0,
    write: 0,
    put: 0,
};

/// The files that are there: the numbers 7 and 8.
const FILES: [(&str, &str); 2] = [
    (
        "i",
        "object 1 class array type int rank 0 items 1 data follows\n7\nend\n",
    ),
    (
        "j",
        "object 1 class array type int rank 0 items 1 data follows\n8\nend\n",
    ),
];

fn numbers(alloc: Global, fail: u64) -> Result<CallNumbers, AllocError> {
    let mut numbers = Vec::new(alloc);
    numbers.push(fail)?;
    Ok(CallNumbers::from_vec(numbers))
}

fn named(alloc: Global, name: &str, text: &str) -> Result<(Bytes, Bytes), AllocError> {
    let name = Bytes::copy_of(alloc, name.as_bytes())?;
    Ok((name, Bytes::copy_of(alloc, text.as_bytes())?))
}

fn files(alloc: Global, fail: u64) -> Result<MemFiles, AllocError> {
    let fail = numbers(alloc, fail)?;
    let mut pairs = Vec::new(alloc);
    for (name, text) in &FILES {
        pairs.push(named(alloc, name, text)?)?;
    }
    Ok(MemFiles::new(alloc, NamedBytes::from_vec(pairs), fail))
}

/// Writes what was printed, put and answered, the names that were read, the events, how often a module ran, and what is kept.
fn push_seen(
    state: &State,
    files: &MemFiles,
    exports: &MemExports,
    out: &MemSink,
    lib: &Recorder<Modules>,
    ended: &Result<(), ExecError>,
    shown: &mut Vec<u8>,
) -> Result<(), AllocError> {
    shown.extend_from_slice(out.bytes())?;
    push_puts(exports.puts(), shown)?;
    push_ended(ended, shown)?;
    push_names(files.asked(), shown)?;
    push_happened(ended, state.events(), shown)?;
    push_number(lib.runs().len() as u64, b" runs, ", shown)?;
    push_number(state.links().len() as u64, b" links, ", shown)?;
    push_number(state.used(), b" used\n", shown)
}

fn execute_over(
    alloc: Global,
    g: &Graph,
    state: &mut State,
    files: &mut MemFiles,
    exports: &mut MemExports,
    out: &mut MemSink,
    shown: &mut Vec<u8>,
) -> Result<(), AllocError>
    requires { StateFits state.old }
    ensures { StateFits state.new }
{
    let mut lib = Recorder::new(alloc, Modules::new());
    let ended = state.execute(alloc, g, files, exports, out, &mut lib);
    push_seen(state, files, exports, out, &lib, &ended, shown)
}

/// Executes a graph over the files `i` and `j`, and writes what is seen of it. These calls of the devices fail.
pub fn execute(
    alloc: Global,
    g: &Graph,
    fail: Failing,
    state: &mut State,
    shown: &mut Vec<u8>,
) -> Result<(), AllocError>
    requires { StateFits state.old }
    ensures { StateFits state.new }
{
    let writes = numbers(alloc, fail.write)?;
    let puts = numbers(alloc, fail.put)?;
    let mut files = files(alloc, fail.read)?;
    let mut exports = MemExports::new(alloc, puts);
    let mut out = MemSink::new(alloc, writes);
    execute_over(alloc, g, state, &mut files, &mut exports, &mut out, shown)
}
