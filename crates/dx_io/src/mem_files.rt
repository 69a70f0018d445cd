//! Input files in memory.
ghost use Rattle.std.specs.Prelude.{◌≡◌, []};

use crate::{CallNumbers, FileFail, Files, NamedBytes};
use dx_base::Bytes;
use std::alloc::Global;

/// Files in memory, which tell their content and what was asked for. The reads with the numbers in `fail` fail.
#[derive(Drop)]
pub struct MemFiles {
    files: NamedBytes,
    fail: CallNumbers,
    asked: Vec<Bytes>,
    calls: u64,
    faults: u64,
}

impl MemFiles {
    ghost use Rattle.dx_io.specs.Memory.{asked_names, failing_reads, kept_files, read_calls, read_faults};

    /// These files, none of which was asked for.
    pub fn new(alloc: Global, files: NamedBytes, fail: CallNumbers) -> MemFiles
        ensures files { kept_files result ≡ files }
        ensures fail { failing_reads result ≡ fail }
        ensures asked { asked_names result ≡ [] }
        ensures calls { read_calls result ≡ 0 }
        ensures faults { read_faults result ≡ 0 }
    {
        MemFiles {
            files,
            fail,
            asked: Vec::new(alloc),
            calls: 0,
            faults: 0,
        }
    }

    /// The names of the reads so far.
    pub fn asked(&self) -> &[Bytes]
        ensures { result.now ≡ asked_names self.now }
    {
        &self.asked
    }
}

impl Files for MemFiles {
    ghost use Rattle.std.specs.Prelude.{◌≡◌, ◌+◌, Some, Contains, IfOk, IsErrOf, min};
    ghost use Rattle.dx_io.specs.Devices.{FileMap, Asks, ReadCause};
    ghost use Rattle.dx_io.specs.Memory.{asked_names, failing_reads, kept_files, read_calls, read_faults};
    ghost use Rattle.dx_io.specs.Named.{map_of};

    ghost content = { λ m. Some (map_of m.files) };

    ghost asked = { λ m. Some m.asked.items };

    ghost faults = { λ m. m.faults };

    fn read(&mut self, alloc: Global, name: &Bytes) -> Result<Option<Bytes>, FileFail>
        ensures found { (map : FileMap) → Some (map_of (kept_files self.old)) ≡ Some map →
            IfOk result (λ found. found ≡ map name.now) }
        ensures same { Some (map_of (kept_files self.new)) ≡ Some (map_of (kept_files self.old)) }
        ensures asks { Asks (Some (asked_names self.old)) (Some (asked_names self.new)) name.now result }
        ensures cause { ReadCause (read_faults self.old) (read_faults self.new) result }

        // Each call counts, and of those of the numbers in the list none succeeds, of the others none is a fault.
        ensures counts { read_calls self.new ≡ min (read_calls self.old + 1) u64.MAX }
        ensures fails { IsErrOf result FileFail.Fault → Contains (failing_reads self.old) (read_calls self.new) }
        ensures succeeds { IfOk result (λ _. Contains (failing_reads self.old) (read_calls self.new) → ⊥) }
        ensures keeps { failing_reads self.new ≡ failing_reads self.old }
        ensures files { kept_files self.new ≡ kept_files self.old }
        ensures faults { IfOk result (λ _. read_faults self.new ≡ read_faults self.old) }
    {
        self.calls = self.calls.saturating_add(1);
        self.asked.push(Bytes::copy_of(alloc, name.bytes())?)?;
        if self.fail.contains(self.calls) {
            self.faults = self.faults.saturating_add(1);
            return Err(FileFail::Fault);
        }
        Ok(self.files.find(alloc, name)?)
    }
}
