//! Assignments: definitions that join, behind an execution where they have a call.
ghost use Rattle.std.specs.Prelude.{◌≡◌, ◌<◌, OnOk, OnErr, IsOk};
ghost use Rattle.dx_ast.specs.Lawful.{IsLawful, IsLawfulAssign};
ghost use Rattle.dx_ast.specs.Plain.{plain_expr, plain_stmt};
ghost use Rattle.dx_ast.specs.Syntax.{Assigns};
ghost use Rattle.dx_macros.specs.DictionaryView.{dictionary_of, room_of};
ghost use Rattle.dx_engine.specs.Keeping.{StateFits};
ghost use Rattle.dx_shown.specs.Made.{coursed};
ghost use Rattle.dx_shown.specs.Session as spec;
ghost use Rattle.dx_sessions.specs.Left.{Stays};
ghost use Rattle.dx_sessions.specs.Places.{here};
ghost use Rattle.dx_sessions.specs.Does.{DoesSo, OverSound, devices};
ghost use Rattle.dx_sessions.specs.Ended.{erred_of};
ghost use Rattle.dx_sessions.specs.Joining.{joined_by, joining};
ghost use Rattle.dx_sessions.specs.Keeping.{Keeps, counts};

use crate::ended::Ended;
use crate::session::Session;
use dx_ast::{Assign, Expr, Stmt};
use dx_checked::CheckedDictionary;
use dx_io::{Exports, Files, Sink};
use dx_making::End;
use dx_objects::Library;
use std::alloc::{AllocError, Global};

impl Session {
    ghost use Rattle.dx_sessions.specs.SessionView.{state_of};

    /// An assignment joins the definitions. One with a call is executed first, and joins unless it has a static fault.
    pub(crate) fn assign<F: Files, X: Exports, O: Sink, L: Library>(
        &mut self,
        alloc: Global,
        a: Assign,
        files: &mut F,
        exports: &mut X,
        out: &mut O,
        lib: &mut L,
    ) -> Result<bool, End>
        requires lawful { IsLawfulAssign a.targets (plain_expr a.value) }
        requires fits { StateFits self.old.state }
        ensures keeps { Keeps self.old.state self.new.state (counts (F.content files.old) (F.faults files.old) (O.faults out.old) (X.faults exports.old) (X.puts exports.old)) (counts (F.content files.new) (F.faults files.new) (O.faults out.new) (X.faults exports.new) (X.puts exports.new)) result }
        ensures listings { self.new.listings ≡ self.old.listings }
        ensures stays { OnErr result (Stays (state_of self.old) (state_of self.new)) }
        ensures moved { self.new.sequencer ≡ self.old.sequencer }
        ensures does { OverSound L.answer (F.content files.old) self.old.state (λ x. DoesSo x self.old.listings (here (state_of self.old)) (spec.assigned (coursed x) a.targets (plain_expr a.value) (state_of self.old)) (devices (L.done lib.old) (F.asked files.old) (O.written out.old) (X.puts exports.old)) result self.new (devices (L.done lib.new) (F.asked files.new) (O.written out.new) (X.puts exports.new))) }
    {
        if has_call(&a.value) {
            return self.assign_call(alloc, a, files, exports, out, lib);
        }
        self.dictionary.add(a)?;
        Ok(false)
    }

    // An assignment with a call. Room for it is made first, so that nothing but its execution can end it.
    fn assign_call<F: Files, X: Exports, O: Sink, L: Library>(
        &mut self,
        alloc: Global,
        a: Assign,
        files: &mut F,
        exports: &mut X,
        out: &mut O,
        lib: &mut L,
    ) -> Result<bool, End>
        requires lawful { IsLawfulAssign a.targets (plain_expr a.value) }
        requires fits { StateFits self.old.state }
        ensures keeps { Keeps self.old.state self.new.state (counts (F.content files.old) (F.faults files.old) (O.faults out.old) (X.faults exports.old) (X.puts exports.old)) (counts (F.content files.new) (F.faults files.new) (O.faults out.new) (X.faults exports.new) (X.puts exports.new)) result }
        ensures listings { self.new.listings ≡ self.old.listings }
        ensures stays { OnErr result (Stays (state_of self.old) (state_of self.new)) }
        ensures moved { self.new.sequencer ≡ self.old.sequencer }
        ensures does { OverSound L.answer (F.content files.old) self.old.state (λ x. DoesSo x self.old.listings (here (state_of self.old)) (spec.and_then (spec.executed (coursed x) (state_of self.old) (Assigns a.targets (plain_expr a.value))) (λ next. spec.silently (spec.joined a.targets (plain_expr a.value) next))) (devices (L.done lib.old) (F.asked files.old) (O.written out.old) (X.puts exports.old)) result self.new (devices (L.done lib.new) (F.asked files.new) (O.written out.new) (X.puts exports.new))) }
    {
        self.dictionary.reserve()?;
        let s = Stmt::Assign(a);
        let ended = self.execute(alloc, &s, files, exports, out, lib);
        join(&mut self.dictionary, s, ended)
    }
}

// Puts an assignment that was executed behind the definitions, unless it has a static fault. That takes no memory, since room was made.
// (A statement that isn't needed any more is dropped by a call, so that it isn't proved here again how each kind of them is dropped.)
fn join(dictionary: &mut CheckedDictionary, s: Stmt, ended: Result<Ended, End>) -> Result<bool, End>
    requires lawful { IsLawful (plain_stmt s) }
    requires room { 0 < room_of dictionary.old }
    ensures erred { result ≡ erred_of ended }
    ensures joins { dictionary_of dictionary.new ≡ joined_by ended (plain_stmt s) (dictionary_of dictionary.old) }
{
    let ended = match ended {
        Ok(ended) => ended,
        Err(end) => {
            drop(s);
            return Err(end);
        }
    };
    if ended.is_faulty() {
        drop(s);
        return Ok(ended.is_error());
    }
    put(dictionary, s)?;
    Ok(ended.is_error())
}

// Puts an assignment behind the definitions.
fn put(dictionary: &mut CheckedDictionary, s: Stmt) -> Result<(), AllocError>
    requires lawful { IsLawful (plain_stmt s) }
    ensures ok { OnOk result (dictionary_of dictionary.new ≡ joining (plain_stmt s) (dictionary_of dictionary.old)) }
    ensures room { 0 < room_of dictionary.old → IsOk result }
{
    match s {
        Stmt::Assign(a) => dictionary.add(a),
        other => {
            drop(other);
            Ok(())
        }
    }
}

// A call stands within calls alone.
fn has_call(e: &Expr) -> bool
    ensures { result ≡ spec.has_call (plain_expr e.now) }
{
    match e {
        Expr::Call(_) => true,
        _ => false,
    }
}
