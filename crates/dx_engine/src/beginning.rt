//! The beginning of an execution, and what its effects come to.
ghost use Rattle.std.specs.Prelude.{◌≡◌, OnOk, IfOk};
ghost use Rattle.dx_io.specs.Devices.{Cause};
ghost use Rattle.dx_graph.specs.GraphView.{graph_of};
ghost use Rattle.dx_graph.specs.Unfolding.{unfolded};
ghost use Rattle.dx_tags.specs.Closed.{GoesOn};
ghost use Rattle.dx_demand.specs.Terms.{AreExact};
ghost use Rattle.dx_getting.specs.Told.{told};
ghost use Rattle.dx_engine.specs.Keeping.{StateFits};
ghost use Rattle.dx_engine.specs.Beginning.{IsFresh, FromState, GathersFit, EffectsSo};
ghost use Rattle.dx_engine.specs.declared.short.Short.TheVariants.{ReadFault, WriteFault};

use crate::gathered::Gathered;
use crate::running::run_effects;
use crate::short::Short;
use crate::state::State;
use dx_getting::Known;
use dx_graph::Graph;
use dx_io::{Files, Sink};
use dx_looking::{Progress, Setup, ToldValues};
use dx_objects::Library;
use std::alloc::Global;

// Nothing was told, is known or happened yet; the terms, the cache and what is seen stay.
fn begin(alloc: Global, at: &mut Progress)
    ensures { IsFresh at.old.seen at.old.tags at.old.work.cache at.new }
{
    at.told = ToldValues::new(alloc);
    at.work.known = Known::new(alloc);
    at.work.events.clear();
}

impl State {
    /// Performs the effects of a graph in order, up to the first that ends the execution. Nothing is put yet, and no link changes.
    pub(crate) fn run<F: Files, L: Library, O: Sink>(
        &mut self,
        alloc: Global,
        g: &Graph,
        files: &mut F,
        lib: &mut L,
        out: &mut O,
    ) -> Result<Gathered, Short>
        requires fits { StateFits self.old }
        ensures same { F.content files.new ≡ F.content files.old }
        ensures read_cause { Cause ReadFault (F.faults files.old) (F.faults files.new) result }
        ensures write_cause { Cause WriteFault (O.faults out.old) (O.faults out.new) result }
        ensures links { self.new.links ≡ self.old.links }
        ensures bound { self.new.bound ≡ self.old.bound }
        ensures written { self.new.written ≡ self.old.written }
        ensures budget { self.new.at.work.cache.budget ≡ self.old.at.work.cache.budget }
        ensures fits { OnOk result (StateFits self.new) }
        ensures goes_on { GoesOn self.old.at.tags self.new.at.tags }
        ensures exact { AreExact self.new.at.tags }
        ensures gathers { IfOk result (λ gathered. GathersFit (graph_of g.now).nodes self.new gathered) }
        ensures effects { FromState L.answer (F.content files.old) self.old (λ x. EffectsSo x self.old (unfolded (graph_of g.now)) (graph_of g.now).nodes (told (L.done lib.old) (F.asked files.old)) (O.written out.old) result self.new (told (L.done lib.new) (F.asked files.new)) (O.written out.new)) }
    {
        self.at.seen.restart(alloc, g)?;
        begin(alloc, &mut self.at);
        let setup = Setup {
            alloc,
            graph: g,
            links: &self.links,
            bound: &self.bound,
            written: &self.written,
        };
        run_effects(&setup, &mut self.at, files, lib, out)
    }
}
