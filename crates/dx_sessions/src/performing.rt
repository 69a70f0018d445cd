//! A session from its beginning to its end.
ghost use Rattle.std.specs.Prelude.{◌≡◌, Some};
ghost use Rattle.dx_io.specs.Devices.{Cause, FileMap};
ghost use Rattle.dx_ast.specs.Lawful.{AreLawful};
ghost use Rattle.dx_ast.specs.Plain.{plain_stmts};
ghost use Rattle.dx_engine.specs.Keeping.{StateFits};
ghost use Rattle.dx_looking.specs.Setting.{fixed};
ghost use Rattle.dx_performing.specs.Kept.{new as none_kept};
ghost use Rattle.dx_shown.specs.Made.{coursed};
ghost use Rattle.dx_shown.specs.Session.{initial, statements as statements_of};
ghost use Rattle.dx_making.specs.declared.end.End.TheVariants.{ReadFault, WriteFault, ExportFault};
ghost use Rattle.dx_sessions.specs.Does.{OverSound, PerformsSo, devices};
ghost use Rattle.dx_sessions.specs.Keeping.{Keeps, counts};

use crate::session::Session;
use dx_ast::Stmts;
use dx_io::{Exports, Files, Sink};
use dx_making::End;
use dx_objects::Library;
use dx_telling::Listings;
use std::alloc::Global;

/// Performs the statements of a session from its beginning, with a cache of this budget, in bytes of stated sizes, and answers whether
/// an error line was due.
///
/// For files that tell their content it is exactly what the cache machine's session shows; or it was cut short on that way, with so
/// much of it whole and a front of what comes next.
///
/// # Errors
///
/// `ReadFault`, `WriteFault`, `ExportFault`: exactly where that device's count of faults rose; with any other answer it stays.
/// `Memory`: want of memory.
pub fn perform<F: Files, X: Exports, O: Sink, L: Library>(
    alloc: Global,
    statements: Stmts,
    budget: u64,
    listings: Listings,
    files: &mut F,
    exports: &mut X,
    out: &mut O,
    lib: &mut L,
) -> Result<bool, End>
    requires lawful { AreLawful (plain_stmts statements) }
    ensures same { F.content files.new ≡ F.content files.old }
    ensures read_cause { Cause ReadFault (F.faults files.old) (F.faults files.new) result }
    ensures write_cause { Cause WriteFault (O.faults out.old) (O.faults out.new) result }
    ensures export_cause { Cause ExportFault (X.faults exports.old) (X.faults exports.new) result }
    ensures performs { (map : FileMap) → F.content files.old ≡ Some map → PerformsSo listings (statements_of (coursed (fixed L.answer map budget)) (initial none_kept) (plain_stmts statements)).shown (devices (L.done lib.old) (F.asked files.old) (O.written out.old) (X.puts exports.old)) result (devices (L.done lib.new) (F.asked files.new) (O.written out.new) (X.puts exports.new)) }
{
    let mut session = Session::new(alloc, budget, listings);
    session.statements(alloc, statements, files, exports, out, lib)
}

impl Session {
    ghost use Rattle.dx_sessions.specs.SessionView.{state_of};

    /// Performs statements one after the other, and answers whether an error line was due. The first that is cut short is the last.
    pub(crate) fn statements<F: Files, X: Exports, O: Sink, L: Library>(
        &mut self,
        alloc: Global,
        statements: Stmts,
        files: &mut F,
        exports: &mut X,
        out: &mut O,
        lib: &mut L,
    ) -> Result<bool, End>
        requires lawful { AreLawful (plain_stmts statements) }
        requires fits { StateFits self.old.state }
        ensures keeps { Keeps self.old.state self.new.state (counts (F.content files.old) (F.faults files.old) (O.faults out.old) (X.faults exports.old) (X.puts exports.old)) (counts (F.content files.new) (F.faults files.new) (O.faults out.new) (X.faults exports.new) (X.puts exports.new)) result }
        ensures performs { OverSound L.answer (F.content files.old) self.old.state (λ x. PerformsSo self.old.listings (statements_of (coursed x) (state_of self.old) (plain_stmts statements)).shown (devices (L.done lib.old) (F.asked files.old) (O.written out.old) (X.puts exports.old)) result (devices (L.done lib.new) (F.asked files.new) (O.written out.new) (X.puts exports.new))) }
    {
        let mut erred = false;
        for statement in statements.into_vec() {
            erred |= self.statement(alloc, statement, files, exports, out, lib)?;
        }
        Ok(erred)
    }
}
