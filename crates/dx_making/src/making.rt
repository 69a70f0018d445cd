//! Making an execution.
ghost use Rattle.std.specs.Prelude.{◌≡◌, IfOk, OnErr, is_some};
ghost use Rattle.dx_io.specs.Devices.{Cause};
ghost use Rattle.dx_ast.specs.Lawful.{IsLawful};
ghost use Rattle.dx_ast.specs.Plain.{plain_stmt};
ghost use Rattle.dx_macros.specs.DictionaryView.{dictionary_of};
ghost use Rattle.dx_macros.specs.Walk.{first_fault};
ghost use Rattle.dx_getting.specs.Told.{told};
ghost use Rattle.dx_engine.specs.Keeping.{StateFits, kept_of, IsSoundState};
ghost use Rattle.dx_engine.specs.Beginning.{FromState};
ghost use Rattle.dx_engine.specs.Ending.{HasPut};
ghost use Rattle.dx_shown.specs.Made.{coursed};
ghost use Rattle.dx_making.specs.Failing.{is_faulty};
ghost use Rattle.dx_making.specs.Making.{MakesSo};
ghost use Rattle.dx_making.specs.declared.end.End.TheVariants.{ReadFault, WriteFault, ExportFault};

use crate::end::End;
use crate::failing::{Failing, how_it_ends};
use dx_ast::{Frames, Stmt};
use dx_checked::CheckedDictionary;
use dx_engine::State;
use dx_io::{Exports, Files, Sink};
use dx_macros::CheckFail;
use dx_objects::Library;
use std::alloc::Global;

/// Makes an execution of a statement, and answers what is wrong with a call, if anything is. A static fault ends it before its
/// first effect, and then nothing that is kept changes; the events are told of executions without a static fault.
///
/// For files that tell their content and a sound state it is the cache machine's: what is printed and put, the failure by its site,
/// the runs, the reads, the events and what is kept behind it; or it was cut short on that way, and the links are those before.
/// Whatever is answered, what is kept is sound again.
///
/// # Errors
///
/// `ReadFault`, `WriteFault`, `ExportFault`: exactly where that device's count of faults rose. `Memory`: want of memory.
pub fn make<F: Files, X: Exports, O: Sink, L: Library>(
    alloc: Global,
    d: &CheckedDictionary,
    frames: &Frames,
    s: &Stmt,
    state: &mut State,
    files: &mut F,
    exports: &mut X,
    out: &mut O,
    lib: &mut L,
) -> Result<Option<Failing>, End>
    requires lawful { IsLawful (plain_stmt s.now) }
    requires fits { StateFits state.old }
    ensures same { F.content files.new ≡ F.content files.old }
    ensures read_cause { Cause ReadFault (F.faults files.old) (F.faults files.new) result }
    ensures write_cause { Cause WriteFault (O.faults out.old) (O.faults out.new) result }
    ensures export_cause { Cause ExportFault (X.faults exports.old) (X.faults exports.new) result }
    ensures faulty { IfOk result (λ failing. is_faulty failing ≡ is_some (first_fault (dictionary_of d.now) (plain_stmt s.now))) }
    ensures fits { StateFits state.new }
    ensures budget { state.new.at.work.cache.budget ≡ state.old.at.work.cache.budget }
    ensures sound { FromState L.answer (F.content files.old) state.old (λ x. IsSoundState x state.new) }
    ensures links { OnErr result (state.new.links.links ≡ state.old.links.links) }
    ensures written { HasPut (X.puts exports.old) (X.puts exports.new) state.old.written.files state.new.written.files }
    ensures makes { FromState L.answer (F.content files.old) state.old (λ x. MakesSo x state.old (coursed x (dictionary_of d.now) frames.now (plain_stmt s.now) (kept_of state.old)) (record { told = told (L.done lib.old) (F.asked files.old); written = O.written out.old; puts = X.puts exports.old }) result state.new (record { told = told (L.done lib.new) (F.asked files.new); written = O.written out.new; puts = X.puts exports.new })) }
{
    match d.expansion(alloc, s, frames) {
        Ok(graph) => how_it_ends(state.execute(alloc, &graph, files, exports, out, lib)),
        Err(CheckFail::Fault(site, fault)) => Ok(Some(Failing::Faulty(site, fault))),
        Err(CheckFail::Memory) => Err(End::Memory),
    }
}
