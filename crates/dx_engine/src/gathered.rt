//! What the effects of an execution come to, until they are put and set.
ghost use Rattle.std.specs.Prelude.{◌≡◌, Err, OnOk, IfOk};
ghost use Rattle.dx_io.specs.Devices.{Writes, Cause};
ghost use Rattle.dx_engine.specs.Gathering.{text_in, gathers, nothing, gathered_with, is_end};
ghost use Rattle.dx_engine.specs.declared.short.Short.TheVariants.{ReadFault, WriteFault};

use crate::done::Done;
use crate::short::Short;
use dx_base::Code;
use dx_ending::{Put, ready};
use dx_io::{Sink, write_all};
use dx_links::Changes;
use std::alloc::Global;

/// The error that an execution ends with, by its node and its code; the files that it puts, and what it sets, each in order.
#[derive(Drop)]
pub struct Gathered {
    pub error: Option<(u32, Code)>,
    pub puts: Vec<Put>,
    pub changes: Changes,
}

impl Gathered {
    /// Nothing was done yet, which takes no memory.
    pub(crate) fn new(alloc: Global) -> Gathered
        ensures { gathers result ≡ nothing }
    {
        Gathered {
            error: None,
            puts: Vec::new(alloc),
            changes: Changes::new(alloc),
        }
    }

    /// Prints what an effect prints, and keeps what it puts and sets. It answers whether the execution ends at it. Where it fails, a
    /// front of the text was printed, and what is kept then counts for nothing.
    pub(crate) fn take<O: Sink>(
        &mut self,
        alloc: Global,
        done: Done,
        out: &mut O,
    ) -> Result<bool, Short>
        ensures writes { Writes (O.written out.old) (O.written out.new) (text_in done) result }
        ensures gathered { OnOk result (gathers self.new ≡ gathered_with done (gathers self.old)) }
        ensures ends { IfOk result (λ ends. ends ≡ is_end done) }
        ensures reads { ¬ (result ≡ Err ReadFault) }
        ensures cause { Cause WriteFault (O.faults out.old) (O.faults out.new) result }
    {
        match done {
            Done::Prints(text) => write_all(out, text.bytes())?,
            Done::Puts(name, object) => self.puts.push(ready(alloc, name, &object)?)?,
            Done::Sets(change) => self.changes.push(change)?,
            Done::PassedOver => {}
            Done::Ends(n, code) => {
                self.error = Some((n, code));
                return Ok(true);
            }
        }
        Ok(false)
    }
}
