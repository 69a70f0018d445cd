//! The output as a trait, and writing all of a text to it.
ghost use Rattle.std.specs.Prelude.{◌<◌, ◌≤◌, List, ℕ, Option, length, IfOk, OnErr};
ghost use Rattle.dx_io.specs.Devices.{LeavesSome, Takes, Writes, WriteCause};

use crate::SinkFail;

/// Where the printed bytes go.
pub trait Sink {
    /// The bytes so far, where they are told.
    ghost written: { Self → Option (List ℕ) };

    /// How often a write has failed.
    ghost faults: { Self → ℕ };

    /// Takes a front of the piece and answers its length, which is above 0 where the piece isn't empty. A write that
    /// fails takes nothing. It answers `Fault` exactly where the count of faults has risen.
    fn write(&mut self, piece: &[u8]) -> Result<usize, SinkFail>
        ensures within { IfOk result (λ n. n ≤ length piece.now) }
        ensures some { IfOk result (λ n. 0 < length piece.now → 0 < n) }
        ensures takes { Takes (written self.old) (written self.new) piece.now result }
        ensures cause { WriteCause (faults self.old) (faults self.new) result };
}

/// Writes all of the bytes, or a front of them where it fails. It fails only where a write of the sink does, and so with
/// bytes left.
pub fn write_all<O: Sink>(out: &mut O, b: &[u8]) -> Result<(), SinkFail>
    ensures writes { Writes (O.written out.old) (O.written out.new) b.now result }
    ensures left { OnErr result (LeavesSome (O.written out.old) (O.written out.new) b.now) }
    ensures cause { WriteCause (O.faults out.old) (O.faults out.new) result }
{
    let mut rest = b;
    while !rest.is_empty() {
        let n = out.write(rest)?;
        (_, rest) = rest.split_at(n);
    }
    Ok(())
}
