//! One execution over what is kept.
ghost use Rattle.std.specs.Prelude.{◌≡◌, []};
ghost use Rattle.dx_io.specs.Devices.{Cause};
ghost use Rattle.dx_graph.specs.GraphView.{graph_of};
ghost use Rattle.dx_graph.specs.Unfolding.{unfolded};
ghost use Rattle.dx_getting.specs.Told.{told};
ghost use Rattle.dx_engine.specs.Keeping.{StateFits, IsSoundState};
ghost use Rattle.dx_engine.specs.Beginning.{FromState};
ghost use Rattle.dx_engine.specs.Ending.{OnCut, HasPut};
ghost use Rattle.dx_engine.specs.Executing.{ExecutesSo};
ghost use Rattle.dx_engine.specs.declared.exec_error.ExecError.TheVariants.{ReadFault, WriteFault, ExportFault};

use crate::exec_error::ExecError;
use crate::state::State;
use dx_graph::Graph;
use dx_io::{Exports, Files, Sink};
use dx_objects::Library;
use std::alloc::Global;

impl State {
    /// Executes a graph: its effects in order up to the first that ends the execution, then its puts, and then the links are changed
    /// where there was no error. Texts are printed at once; nothing is put, and no link changes, before the last effect.
    ///
    /// For files that tell their content and a sound state it is as meant: the text, the files that are put, the error by its site,
    /// the links and the written files behind it; the runs, the reads, the events and what is kept are those of the cache machine.
    /// Where it is cut short it stopped in one effect, with the text of those before it and no run of those behind it, or at a put;
    /// the links are those before, and no result stays cached. Whatever is answered, what is kept is sound again.
    ///
    /// # Errors
    ///
    /// `Module`: exactly where the execution ends in the error of a call, with the site of the call and its code. `ReadFault`,
    /// `WriteFault`, `ExportFault`: exactly where that device's count of faults rose. `Memory`: want of memory.
    pub fn execute<F: Files, X: Exports, O: Sink, L: Library>(
        &mut self,
        alloc: Global,
        g: &Graph,
        files: &mut F,
        exports: &mut X,
        out: &mut O,
        lib: &mut L,
    ) -> Result<(), ExecError>
        requires fits { StateFits self.old }
        ensures same { F.content files.new ≡ F.content files.old }
        ensures read_cause { Cause ReadFault (F.faults files.old) (F.faults files.new) result }
        ensures write_cause { Cause WriteFault (O.faults out.old) (O.faults out.new) result }
        ensures export_cause { Cause ExportFault (X.faults exports.old) (X.faults exports.new) result }
        ensures fits { StateFits self.new }
        ensures budget { self.new.at.work.cache.budget ≡ self.old.at.work.cache.budget }
        ensures links { OnCut result (self.new.links.links ≡ self.old.links.links) }
        ensures forgets { OnCut result (self.new.at.work.cache.entries ≡ []) }
        ensures sound { FromState L.answer (F.content files.old) self.old (λ x. IsSoundState x self.new) }
        ensures written { HasPut (X.puts exports.old) (X.puts exports.new) self.old.written.files self.new.written.files }
        ensures executes { FromState L.answer (F.content files.old) self.old (λ x. ExecutesSo x self.old (unfolded (graph_of g.now)) (record { told = told (L.done lib.old) (F.asked files.old); written = O.written out.old; puts = X.puts exports.old }) result self.new (record { told = told (L.done lib.new) (F.asked files.new); written = O.written out.new; puts = X.puts exports.new })) }
    {
        let ended = self.attempt(alloc, g, files, exports, out, lib);
        self.forget(alloc, &ended);
        ended
    }
}
