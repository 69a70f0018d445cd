//! One execution: what its effects do, and what is told behind it.
ghost use Rattle.std.specs.Prelude.{◌≡◌, IfOk, is_some};
ghost use Rattle.dx_io.specs.Devices.{WriteCause, Writes};
ghost use Rattle.dx_ast.specs.Lawful.{IsLawful};
ghost use Rattle.dx_ast.specs.Plain.{plain_stmt};
ghost use Rattle.dx_macros.specs.DictionaryView.{dictionary_of};
ghost use Rattle.dx_macros.specs.Walk.{first_fault};
ghost use Rattle.dx_engine.specs.Keeping.{StateFits, kept_of};
ghost use Rattle.dx_shown.specs.Made.{Coursed, coursed};
ghost use Rattle.dx_shown.specs.Session as spec;
ghost use Rattle.dx_telling.specs.Shown.{behind_of};
ghost use Rattle.dx_telling.specs.Tells.{Tells};
ghost use Rattle.dx_sessions.specs.Does.{OthersStay, OverSound, ShowsSo, devices};
ghost use Rattle.dx_sessions.specs.Ended.{is_faulty};
ghost use Rattle.dx_sessions.specs.Executes.{ExecutesSo};
ghost use Rattle.dx_sessions.specs.Keeping.{Keeps, counts};

use crate::ended::{Ended, how};
use crate::session::Session;
use dx_ast::{Frames, Stmt};
use dx_checked::CheckedDictionary;
use dx_engine::State;
use dx_io::{Exports, Files, Sink, SinkFail, write_all};
use dx_making::{End, Failing, make};
use dx_objects::Library;
use dx_telling::{Listings, push_behind};
use std::alloc::Global;

/// Makes an execution of a statement, and tells what is told behind it.
pub(crate) fn execute<F: Files, X: Exports, O: Sink, L: Library>(
    alloc: Global,
    d: &CheckedDictionary,
    frames: &Frames,
    s: &Stmt,
    listings: Listings,
    state: &mut State,
    files: &mut F,
    exports: &mut X,
    out: &mut O,
    lib: &mut L,
) -> Result<Ended, End>
    requires lawful { IsLawful (plain_stmt s.now) }
    requires fits { StateFits state.old }
    ensures keeps { Keeps state.old state.new (counts (F.content files.old) (F.faults files.old) (O.faults out.old) (X.faults exports.old) (X.puts exports.old)) (counts (F.content files.new) (F.faults files.new) (O.faults out.new) (X.faults exports.new) (X.puts exports.new)) result }
    ensures faulty { IfOk result (λ ended. is_faulty ended ≡ is_some (first_fault (dictionary_of d.now) (plain_stmt s.now))) }
    ensures executes { OverSound L.answer (F.content files.old) state.old (λ x. ExecutesSo x listings (kept_of state.old) (coursed x (dictionary_of d.now) frames.now (plain_stmt s.now) (kept_of state.old)) (devices (L.done lib.old) (F.asked files.old) (O.written out.old) (X.puts exports.old)) result state.new (devices (L.done lib.new) (F.asked files.new) (O.written out.new) (X.puts exports.new))) }
{
    match make(alloc, d, frames, s, state, files, exports, out, lib) {
        Ok(failing) => match tell_behind(alloc, listings, &failing, state, out) {
            Ok(()) => Ok(how(&failing)),
            Err(fail) => Err(End::from(fail)),
        },
        Err(end) => Err(end),
    }
}

// What is told behind an execution is one write.
fn tell_behind<O: Sink>(
    alloc: Global,
    listings: Listings,
    failing: &Option<Failing>,
    state: &State,
    out: &mut O,
) -> Result<(), SinkFail>
    ensures tells { (c : Coursed) → Tells c failing.now state.now.at.work.events.items state.now.links → Writes (O.written out.old) (O.written out.new) (behind_of listings c) result }
    ensures cause { WriteCause (O.faults out.old) (O.faults out.new) result }
{
    let mut text = Vec::new(alloc);
    push_behind(
        alloc,
        &mut text,
        listings,
        failing,
        state.events(),
        state.links(),
    )?;
    write_all(out, &text)
}

impl Session {
    ghost use Rattle.dx_sessions.specs.SessionView.{state_of};

    /// Executes a statement with what is current.
    pub(crate) fn execute<F: Files, X: Exports, O: Sink, L: Library>(
        &mut self,
        alloc: Global,
        s: &Stmt,
        files: &mut F,
        exports: &mut X,
        out: &mut O,
        lib: &mut L,
    ) -> Result<Ended, End>
        requires lawful { IsLawful (plain_stmt s.now) }
        requires fits { StateFits self.old.state }
        ensures keeps { Keeps self.old.state self.new.state (counts (F.content files.old) (F.faults files.old) (O.faults out.old) (X.faults exports.old) (X.puts exports.old)) (counts (F.content files.new) (F.faults files.new) (O.faults out.new) (X.faults exports.new) (X.puts exports.new)) result }
        ensures others { OthersStay self.old self.new }
        ensures faulty { IfOk result (λ ended. is_faulty ended ≡ is_some (first_fault (dictionary_of self.old.dictionary) (plain_stmt s.now))) }
        ensures does { OverSound L.answer (F.content files.old) self.old.state (λ x. ShowsSo x self.old.listings (state_of self.old) (spec.executed (coursed x) (state_of self.old) (plain_stmt s.now)) (devices (L.done lib.old) (F.asked files.old) (O.written out.old) (X.puts exports.old)) result self.new (devices (L.done lib.new) (F.asked files.new) (O.written out.new) (X.puts exports.new))) }
    {
        let frames = self.sequencer.frames();
        execute(
            alloc,
            &self.dictionary,
            &frames,
            s,
            self.listings,
            &mut self.state,
            files,
            exports,
            out,
            lib,
        )
    }
}
