//! An execution, up to where it is cut short.
ghost use Rattle.std.specs.Prelude.{◌≡◌, []};
ghost use Rattle.dx_io.specs.Devices.{Cause};
ghost use Rattle.dx_graph.specs.GraphView.{graph_of};
ghost use Rattle.dx_graph.specs.Unfolding.{unfolded};
ghost use Rattle.dx_getting.specs.Told.{told};
ghost use Rattle.dx_engine.specs.Keeping.{StateFits};
ghost use Rattle.dx_engine.specs.Beginning.{FromState};
ghost use Rattle.dx_engine.specs.Ending.{OnEnd, OnCut, HasPut};
ghost use Rattle.dx_engine.specs.Cutting.{IsCutFrom, IsForgotten, IsGivenBack};
ghost use Rattle.dx_engine.specs.Executing.{ExecutesSo};
ghost use Rattle.dx_engine.specs.declared.exec_error.ExecError.TheVariants.{ReadFault, WriteFault, ExportFault};

use crate::exec_error::ExecError;
use crate::state::State;
use dx_getting::Known;
use dx_graph::Graph;
use dx_io::{Exports, Files, Sink};
use dx_looking::ToldValues;
use dx_objects::Library;
use std::alloc::Global;

impl State {
    /// Executes a graph: its effects in order up to the first that ends the execution, then its puts, and then the links are changed
    /// where there was no error. Where it is cut short, what it has cached by then stays.
    pub(crate) fn attempt<F: Files, X: Exports, O: Sink, L: Library>(
        &mut self,
        alloc: Global,
        g: &Graph,
        files: &mut F,
        exports: &mut X,
        out: &mut O,
        lib: &mut L,
    ) -> Result<(), ExecError>
        requires fits { StateFits self.old }
        ensures same { F.content files.new ≡ F.content files.old }
        ensures read_cause { Cause ReadFault (F.faults files.old) (F.faults files.new) result }
        ensures write_cause { Cause WriteFault (O.faults out.old) (O.faults out.new) result }
        ensures export_cause { Cause ExportFault (X.faults exports.old) (X.faults exports.new) result }
        ensures fits { OnEnd result (StateFits self.new) }
        ensures budget { OnEnd result (self.new.at.work.cache.budget ≡ self.old.at.work.cache.budget) }
        ensures cut { OnCut result (IsCutFrom self.old self.new) }
        ensures written { HasPut (X.puts exports.old) (X.puts exports.new) self.old.written.files self.new.written.files }
        ensures executes { FromState L.answer (F.content files.old) self.old (λ x. ExecutesSo x self.old (unfolded (graph_of g.now)) (record { told = told (L.done lib.old) (F.asked files.old); written = O.written out.old; puts = X.puts exports.old }) result self.new (record { told = told (L.done lib.new) (F.asked files.new); written = O.written out.new; puts = X.puts exports.new })) }
    {
        let gathered = self.run(alloc, g, files, lib, out)?;
        self.finish(alloc, g, gathered, exports)
    }

    /// The results of an execution, and what was told in it, are given back behind it; and none stays cached where it was cut short.
    pub(crate) fn forget(&mut self, alloc: Global, ended: &Result<(), ExecError>)
        ensures known { self.new.at.work.known.calls ≡ [] }
        ensures told { self.new.at.told ≡ [] }
        ensures end { OnEnd ended.now (IsGivenBack self.old self.new) }
        ensures cut { OnCut ended.now (IsForgotten self.old self.new) }
    {
        self.at.work.known = Known::new(alloc);
        self.at.told = ToldValues::new(alloc);
        match ended {
            Ok(()) | Err(ExecError::Module(_, _)) => {}
            Err(_) => self.at.work.cache.clear(),
        }
    }
}
