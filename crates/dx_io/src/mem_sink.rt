//! The output in memory.
ghost use Rattle.std.specs.Prelude.{◌≡◌, ◌<◌, ◌≤◌, ℕ, []};

use crate::{CallNumbers, Sink, SinkFail};
use std::alloc::Global;

/// A sink in memory, which tells its bytes. The writes with the numbers in `fail` fail, and each other one takes all
/// of its piece, or the first bytes of it up to a limit.
#[derive(Drop)]
pub struct MemSink {
    bytes: Vec<u8>,
    limit: u64,
    fail: CallNumbers,
    calls: u64,
    faults: u64,
    ghost takes_some: { 0 < limit },
}

impl MemSink {
    ghost use Rattle.dx_io.specs.Memory.{failing_writes, sink_bytes, sink_limit, write_calls, write_faults};

    /// An empty sink, whose writes take all of their pieces.
    pub fn new(alloc: Global, fail: CallNumbers) -> MemSink
        ensures bytes { sink_bytes result ≡ [] }
        ensures limit { sink_limit result ≡ u64.MAX }
        ensures fail { failing_writes result ≡ fail }
        ensures calls { write_calls result ≡ 0 }
        ensures faults { write_faults result ≡ 0 }
    {
        MemSink::slow(alloc, u64::MAX, fail)
    }

    /// An empty sink, each of whose writes takes at most `limit` bytes.
    pub fn slow(alloc: Global, limit: u64, fail: CallNumbers) -> MemSink
        requires { 1 ≤ limit }
        ensures bytes { sink_bytes result ≡ [] }
        ensures limit { sink_limit result ≡ limit }
        ensures fail { failing_writes result ≡ fail }
        ensures calls { write_calls result ≡ 0 }
        ensures faults { write_faults result ≡ 0 }
    {
        MemSink {
            bytes: Vec::new(alloc),
            limit,
            fail,
            calls: 0,
            faults: 0,
        }
    }

    /// The bytes so far.
    pub fn bytes(&self) -> &[u8]
        ensures { result.now ≡ sink_bytes self.now }
    {
        &self.bytes
    }
}

impl Sink for MemSink {
    ghost use Rattle.std.specs.Prelude.{◌≡◌, ◌↔◌, ◌+◌, ◌<◌, ◌≤◌, Some, Contains, IfOk, IsErrOf, length, min};
    ghost use Rattle.dx_io.specs.Devices.{Takes, WriteCause};
    ghost use Rattle.dx_io.specs.Memory.{failing_writes, sink_bytes, sink_limit, write_calls, write_faults};

    ghost written = { λ m. Some m.bytes.items };

    ghost faults = { λ m. m.faults };

    fn write(&mut self, piece: &[u8]) -> Result<usize, SinkFail>
        ensures within { IfOk result (λ n. n ≤ length piece.now) }
        ensures some { IfOk result (λ n. 0 < length piece.now → 0 < n) }
        ensures takes { Takes (Some (sink_bytes self.old)) (Some (sink_bytes self.new)) piece.now result }
        ensures cause { WriteCause (write_faults self.old) (write_faults self.new) result }

        // Each call counts, and exactly those of the numbers in the list fail.
        ensures counts { write_calls self.new ≡ min (write_calls self.old + 1) u64.MAX }
        ensures fails { IsErrOf result SinkFail.Fault ↔ Contains (failing_writes self.old) (write_calls self.new) }
        ensures keeps { failing_writes self.new ≡ failing_writes self.old }
        ensures limit { sink_limit self.new ≡ sink_limit self.old }
        ensures whole { IfOk result (λ n. n ≡ min (length piece.now) (sink_limit self.old)) }
        ensures faults { IfOk result (λ _. write_faults self.new ≡ write_faults self.old) }
    {
        self.calls = self.calls.saturating_add(1);
        if self.fail.contains(self.calls) {
            self.faults = self.faults.saturating_add(1);
            return Err(SinkFail::Fault);
        }
        let n = (piece.len() as u64).min(self.limit) as usize;
        self.bytes.extend_from_slice(&piece[..n])?;
        Ok(n)
    }
}
