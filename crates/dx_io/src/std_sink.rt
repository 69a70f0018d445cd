//! Any writer of std as a sink.
ghost use Rattle.std.specs.Prelude.{◌≡◌, ◌<◌, ◌≤◌, IfOk, None, length, option_map};

use crate::{FaultCause, LastFault, Sink, SinkFail};
use std::io::{ErrorKind, Write};

/// Any writer of std, as the standard output. It tells nothing of what was written.
#[derive(Drop)]
pub struct StdSink<W: Write + Drop> {
    inner: W,
    faults: u64,
    last: Option<LastFault>,
}

impl<W: Write + Drop> StdSink<W> {
    /// This writer, none of whose writes has failed.
    pub fn new(w: W) -> StdSink<W>
        ensures faults { result.faults ≡ 0 }
        ensures last { result.last ≡ None }
    {
        StdSink {
            inner: w,
            faults: 0,
            last: None,
        }
    }

    /// The last write that failed, with its cause.
    pub fn last_fault(&self) -> Option<&LastFault>
        ensures { option_map (λ f. f.now) result ≡ self.now.last }
    {
        self.last.as_ref()
    }
}

impl<W: Write + Drop> Sink for StdSink<W> {
    ghost use Rattle.std.specs.Prelude.{None};

    ghost written = { λ _. None };

    ghost faults = { λ s. s.faults };

    fn write(&mut self, piece: &[u8]) -> Result<usize, SinkFail> {
        match taken(&mut self.inner, piece) {
            Ok(n) => Ok(n),
            Err(kind) => {
                self.faults = self.faults.saturating_add(1);
                self.last = Some(LastFault {
                    name: None,
                    cause: FaultCause::System(kind),
                });
                Err(SinkFail::Fault)
            }
        }
    }
}

// How much of the piece the writer took, or why it took nothing. A write that was interrupted is tried again.
fn taken<W: Write>(inner: &mut W, piece: &[u8]) -> Result<usize, ErrorKind>
    ensures within { IfOk result (λ n. n ≤ length piece.now) }
    ensures some { IfOk result (λ n. 0 < length piece.now → 0 < n) }
{
    for _ in 0..u64::MAX {
        match inner.write(piece) {
            Ok(n) if n > 0 || piece.is_empty() => return Ok(n),
            Ok(_) => return Err(ErrorKind::WriteZero),
            Err(e) if e.kind() == ErrorKind::Interrupted => {}
            Err(e) => return Err(e.kind()),
        }
    }
    Err(ErrorKind::Interrupted)
}
