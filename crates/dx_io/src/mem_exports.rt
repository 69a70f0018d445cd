//! Exported files in memory.
ghost use Rattle.std.specs.Prelude.{◌≡◌, []};

use crate::{CallNumbers, ExportFail, Exports};
use dx_base::Bytes;
use std::alloc::Global;

/// Exports in memory, which tell the completed puts. The puts with the numbers in `fail` fail.
#[derive(Drop)]
pub struct MemExports {
    puts: Vec<(Bytes, Bytes)>,
    fail: CallNumbers,
    calls: u64,
    faults: u64,
}

impl MemExports {
    ghost use Rattle.dx_io.specs.Memory.{completed_puts, failing_puts, put_calls, put_faults};

    /// Exports without any put.
    pub fn new(alloc: Global, fail: CallNumbers) -> MemExports
        ensures puts { completed_puts result ≡ [] }
        ensures fail { failing_puts result ≡ fail }
        ensures calls { put_calls result ≡ 0 }
        ensures faults { put_faults result ≡ 0 }
    {
        MemExports {
            puts: Vec::new(alloc),
            fail,
            calls: 0,
            faults: 0,
        }
    }

    /// The name and the content of each completed put so far.
    pub fn puts(&self) -> &[(Bytes, Bytes)]
        ensures { result.now ≡ completed_puts self.now }
    {
        &self.puts
    }
}

impl Exports for MemExports {
    ghost use Rattle.std.specs.Prelude.{◌≡◌, ◌↔◌, ◌+◌, Some, Contains, IfOk, IsErrOf, min};
    ghost use Rattle.dx_io.specs.Devices.{Puts, PutCause};
    ghost use Rattle.dx_io.specs.Memory.{completed_puts, failing_puts, put_calls, put_faults};

    ghost puts = { λ m. Some m.puts.items };

    ghost faults = { λ m. m.faults };

    fn put(&mut self, alloc: Global, name: &Bytes, content: &[u8]) -> Result<(), ExportFail>
        ensures puts { Puts (Some (completed_puts self.old)) (Some (completed_puts self.new)) name.now content.now result }
        ensures cause { PutCause (put_faults self.old) (put_faults self.new) result }

        // Each call counts, and exactly those of the numbers in the list fail.
        ensures counts { put_calls self.new ≡ min (put_calls self.old + 1) u64.MAX }
        ensures fails { IsErrOf result ExportFail.Fault ↔ Contains (failing_puts self.old) (put_calls self.new) }
        ensures keeps { failing_puts self.new ≡ failing_puts self.old }
        ensures faults { IfOk result (λ _. put_faults self.new ≡ put_faults self.old) }
    {
        self.calls = self.calls.saturating_add(1);
        if self.fail.contains(self.calls) {
            self.faults = self.faults.saturating_add(1);
            return Err(ExportFail::Fault);
        }
        let name = Bytes::copy_of(alloc, name.bytes())?;
        let content = Bytes::copy_of(alloc, content)?;
        self.puts.push((name, content))?;
        Ok(())
    }
}
