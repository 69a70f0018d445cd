//! The end of an execution: its puts, and what is kept behind it.
ghost use Rattle.std.specs.Prelude.{◌≡◌, ◌<◌, List, Bool, IfOk, Ok, Err, vec_len, vec_capacity};
ghost use Rattle.dx_io.specs.Devices.{Cause};
ghost use Rattle.dx_graph.specs.GraphView.{graph_of};
ghost use Rattle.dx_links.specs.declared.held.Change.{Change};
ghost use Rattle.dx_links.specs.LinkMap.{LinkMap};
ghost use Rattle.dx_getting.specs.Bound.{IsBound};
ghost use Rattle.dx_ending.specs.Putting.{ArePut, exports_of};
ghost use Rattle.dx_engine.specs.Beginning.{NodeFits};
ghost use Rattle.dx_engine.specs.Leaving.{PreparedSo, PreparedReady, IsLeft, LeavesSo};
ghost use Rattle.dx_engine.specs.Ending.{CutsPuts, OnEnd, OnCut, ErrorIs, SiteIs, ended_so};
ghost use Rattle.dx_engine.specs.declared.exec_error.ExecError.TheVariants.{ReadFault, WriteFault, ExportFault};

use crate::exec_error::ExecError;
use crate::gathered::Gathered;
use crate::prepared::{Prepared, prepare};
use crate::state::State;
use dx_base::{Bytes, Code};
use dx_ending::{change_in_place, make_puts};
use dx_getting::empty;
use dx_graph::Graph;
use dx_io::Exports;
use std::alloc::{AllocError, Global};

// The text of the site of an error, with its code.
fn site_of(
    alloc: Global,
    g: &Graph,
    error: Option<(u32, Code)>,
) -> Result<Option<(Bytes, Code)>, AllocError>
    requires node { NodeFits (graph_of g.now).nodes error }
    ensures { IfOk result (λ site. SiteIs (graph_of g.now).nodes error site) }
{
    match error {
        None => Ok(None),
        Some((n, code)) => Ok(Some((g.site(alloc, n)?, code))),
    }
}

// How the execution ends.
fn ended(site: Option<(Bytes, Code)>) -> Result<(), ExecError>
    ensures { ended_so site result }
{
    match site {
        None => Ok(()),
        Some((site, code)) => Err(ExecError::Module(site, code)),
    }
}

impl State {
    // Puts in place what was prepared. There is room for an event.
    fn keep(&mut self, prepared: Prepared)
        requires bound { IsBound self.old.links.links self.old.bound }
        requires ready { PreparedReady self.old.links self.old.bound prepared }
        requires room { vec_len self.old.at.work.events < vec_capacity self.old.at.work.events }
        ensures left { (changes : List Change) (full : Bool) (behind : LinkMap) → PreparedSo self.old.links.links changes full behind prepared → IsLeft self.old changes full behind self.new }
        ensures written { self.new.written ≡ self.old.written }
    {
        match prepared {
            Prepared::Kept => {}
            Prepared::Changed(ready) => change_in_place(&mut self.links, &mut self.bound, ready),
            Prepared::Emptied(changes) => empty(
                &mut self.links,
                &mut self.bound,
                &mut self.at.tags,
                &mut self.at.work.cache,
                &mut self.at.work.events,
                changes,
            ),
        }
    }

    /// Makes the puts of an execution whose effects were performed, and keeps what is behind it.
    pub(crate) fn finish<X: Exports>(
        &mut self,
        alloc: Global,
        g: &Graph,
        gathered: Gathered,
        exports: &mut X,
    ) -> Result<(), ExecError>
        requires bound { IsBound self.old.links.links self.old.bound }
        requires error { NodeFits (graph_of g.now).nodes gathered.error }
        ensures left { OnEnd result (LeavesSo self.old gathered self.new) }
        ensures put { OnEnd result (ArePut (X.puts exports.old) (X.puts exports.new) self.old.written.files self.new.written.files (exports_of gathered.puts.items)) }
        ensures error { ErrorIs (graph_of g.now).nodes gathered.error result }
        ensures cut { CutsPuts result (X.puts exports.old) (X.puts exports.new) self.old.written.files self.new.written.files (exports_of gathered.puts.items) }
        ensures links { OnCut result (self.new.links.links ≡ self.old.links.links) }
        ensures bound { OnCut result ((self.new.bound.pairs ≡ self.old.bound.pairs) × (self.new.bound.counts ≡ self.old.bound.counts) × (self.new.bound.from ≡ self.old.bound.from)) }
        ensures same { OnCut result ((self.new.at.tags ≡ self.old.at.tags) × (self.new.links.held ≡ self.old.links.held) × (self.new.at.work.cache ≡ self.old.at.work.cache)) }
        ensures faults { ¬ (result ≡ Err ReadFault) × ¬ (result ≡ Err WriteFault) }
        ensures cause { Cause ExportFault (X.faults exports.old) (X.faults exports.new) result }
    {
        let site = site_of(alloc, g, gathered.error)?;
        let failed = site.is_some();
        let prepared = prepare(
            alloc,
            &mut self.links,
            &mut self.bound,
            &self.at.tags,
            failed,
            gathered.changes,
        )?;
        self.written.reserve(gathered.puts.len())?;
        self.at.work.events.reserve(1)?;
        make_puts(alloc, gathered.puts, exports, &mut self.written)?;
        self.keep(prepared);
        ended(site)
    }
}
