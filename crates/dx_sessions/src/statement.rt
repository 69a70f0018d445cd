//! What each statement does.
ghost use Rattle.std.specs.Prelude.{◌≡◌, OnErr};
ghost use Rattle.dx_io.specs.Devices.{Cause, WriteCause};
ghost use Rattle.dx_ast.specs.Lawful.{IsLawful, IsLawfulCall};
ghost use Rattle.dx_ast.specs.Plain.{plain_call, plain_expr, plain_stmt};
ghost use Rattle.dx_ast.specs.Syntax.{Sequences};
ghost use Rattle.dx_sequencer.specs.Sequencer as seq;
ghost use Rattle.dx_engine.specs.Ending.{HasPut};
ghost use Rattle.dx_engine.specs.Keeping.{StateFits};
ghost use Rattle.dx_shown.specs.Made.{coursed};
ghost use Rattle.dx_shown.specs.Session as spec;
ghost use Rattle.dx_making.specs.declared.end.End.TheVariants.{ReadFault, WriteFault, ExportFault};
ghost use Rattle.dx_sessions.specs.Left.{LeavesSequencer, Stays};
ghost use Rattle.dx_sessions.specs.Places.{in_statement};
ghost use Rattle.dx_sessions.specs.Does.{DoesSo, OverSound, SetsSo, devices};

use crate::ended::erred;
use crate::session::Session;
use crate::setting::setting;
use dx_ast::{Call, Expr, FrameVar, Stmt};
use dx_io::{Exports, Files, Sink, SinkFail, write_all};
use dx_making::End;
use dx_objects::Library;
use dx_sequencer::FrameRange;
use dx_telling::frame_range;
use std::alloc::Global;

impl Session {
    ghost use Rattle.dx_sessions.specs.SessionView.{state_of};

    /// Performs a statement with what is current, and answers whether an error line was due: a static fault, a call that
    /// refuses its inputs, a play of too many steps, or a delta below 1. An include does nothing, since loading has put
    /// its statements in its place.
    ///
    /// For files that tell their content and a sound state, what is printed and put and the runs and reads of modules are exactly
    /// those of the executions that the statement means, with what is told behind each; and the state behind it is theirs, and sound.
    ///
    /// # Errors
    ///
    /// `ReadFault`, `WriteFault`, `ExportFault`: exactly where that device's count of faults rose; with any other answer it stays.
    /// `Memory`: want of memory.
    /// Executions before the one that was cut short are whole. The session can go on: macros, definitions and the sequence call are
    /// those before the statement, the sequencer stands behind the step that led to that execution, the links are those before it, and
    /// the files that were put by then are written files. Where that execution was made, and the write of what is told behind it was cut
    /// short, its text was printed, its files were put, and links and written files are those behind it.
    pub fn statement<F: Files, X: Exports, O: Sink, L: Library>(
        &mut self,
        alloc: Global,
        s: Stmt,
        files: &mut F,
        exports: &mut X,
        out: &mut O,
        lib: &mut L,
    ) -> Result<bool, End>
        requires lawful { IsLawful (plain_stmt s) }
        requires fits { StateFits self.old.state }
        ensures same { F.content files.new ≡ F.content files.old }
        ensures listings { self.new.listings ≡ self.old.listings }
        ensures read_cause { Cause ReadFault (F.faults files.old) (F.faults files.new) result }
        ensures write_cause { Cause WriteFault (O.faults out.old) (O.faults out.new) result }
        ensures export_cause { Cause ExportFault (X.faults exports.old) (X.faults exports.new) result }
        ensures fits { StateFits self.new.state }
        ensures stays { OnErr result (Stays (state_of self.old) (state_of self.new)) }
        ensures moved { OnErr result (LeavesSequencer (plain_stmt s) self.old.sequencer self.new.sequencer) }
        ensures written { HasPut (X.puts exports.old) (X.puts exports.new) self.old.state.written.files self.new.state.written.files }
        ensures does { OverSound L.answer (F.content files.old) self.old.state (λ x. DoesSo x self.old.listings (in_statement (coursed x) (state_of self.old) (plain_stmt s)) (spec.statement (coursed x) (state_of self.old) (plain_stmt s)) (devices (L.done lib.old) (F.asked files.old) (O.written out.old) (X.puts exports.old)) result self.new (devices (L.done lib.new) (F.asked files.new) (O.written out.new) (X.puts exports.new))) }
    {
        match s {
            Stmt::Assign(a) => self.assign(alloc, a, files, exports, out, lib),
            Stmt::Call(c) => {
                let call = Stmt::Call(c);
                let ended = self.execute(alloc, &call, files, exports, out, lib);
                // (by a call, so that it isn't proved here how each kind of statement is dropped)
                drop(call);
                erred(ended)
            }
            Stmt::Macro(m) => {
                self.dictionary.define(m.into_inner())?;
                Ok(false)
            }
            Stmt::Include(_) => Ok(false),
            Stmt::SetFrame(v, e) => match self.set(v, e, out) {
                Ok(refused) => Ok(refused),
                Err(fail) => Err(End::from(fail)),
            },
            Stmt::Word(w) => self.tell(alloc, w, files, exports, out, lib),
            Stmt::Sequence(c) => {
                self.set_sequence(c);
                Ok(false)
            }
        }
    }

    // Sets a variable of the sequencer, or prints the line of a delta that is refused.
    fn set<O: Sink>(&mut self, v: FrameVar, e: Expr, out: &mut O) -> Result<bool, SinkFail>
        ensures sets { SetsSo v (spec.setting (seq.frames_of self.old.sequencer) (plain_expr e)) self.old self.new (O.written out.old) (O.written out.new) result }
        ensures cause { WriteCause (O.faults out.old) (O.faults out.new) result }
    {
        let x = setting(&self.sequencer.frames(), e);
        match self.sequencer.set(v, x) {
            Ok(()) => Ok(false),
            Err(FrameRange) => {
                write_all(out, frame_range())?;
                Ok(true)
            }
        }
    }

    // The call that each step executes from now on.
    fn set_sequence(&mut self, c: Call)
        requires { IsLawfulCall (plain_call c) }
        ensures sequence { state_of self.new ≡ spec.with_sequence (Sequences (plain_call c)) (state_of self.old) }
        ensures state { self.new.state ≡ self.old.state }
        ensures listings { self.new.listings ≡ self.old.listings }
    {
        self.sequence = Some(Stmt::Sequence(c));
    }
}
