//! What the program does with its words, and the status with which it ends.
ghost use Rattle.std.specs.Prelude.{◌≡◌, ◌⊎◌, None, Some, IfOk, IsErrOf, IsTrue, map as each};
ghost use Rattle.dx_ast.specs.Lawful.{AreLawful};
ghost use Rattle.dx_ast.specs.Plain.{plain_stmts};
ghost use Rattle.dx_io.specs.Devices.{Cause, FileMap, Rose, Writes};
ghost use Rattle.dx_making.specs.declared.end.End.TheVariants.{ReadFault, WriteFault, ExportFault};
ghost use Rattle.dx_outcome.specs.Budget.{StaysWithin};
ghost use Rattle.dx_outcome.specs.Computed.{job_loading, of_loading, plan_of};
ghost use Rattle.dx_getting.specs.Told.{told};
ghost use Rattle.dx_outcome.specs.Ends.{CompletesAs, EndsAs, IsWholeStatus, PrintsAs, ReadsAs, RunsAs, is_cut};
ghost use Rattle.dx_outcome.specs.Lines.{refusal_line};
ghost use Rattle.dx_outcome.specs.Meaning.{AreDemanded, EndsAsMeant, IsMeaning, Meaning};
ghost use Rattle.dx_outcome.specs.Outcome.{IsOutcome, Outcome, listings_of, outcome, seen_of, shown_of, status_of};
ghost use Rattle.dx_outcome.specs.Plan.{IsPlan, Plan};
ghost use Rattle.dx_outcome.specs.Reads.{AsksAs};
ghost use Rattle.dx_session.specs.Ends.{Ends, SeesSo, end_of, exit_of as spec_exit_of};
ghost use Rattle.dx_words.specs.Range.{IsInRange};
ghost use Rattle.dx_sessions.specs.Does.{devices};
ghost use Rattle.dx_shown.specs.Listed.{any_error};
ghost use Rattle.dx_words.specs.Line.{texts, words_of};

use crate::lines;
use crate::loading::load_job;
use dx_ast::Stmts;
use dx_include::LoadFail;
use dx_io::{Exports, Files, Sink, write_all};
use dx_making::End;
use dx_objects::Library;
use dx_sessions::perform;
use dx_telling::Listings;
use dx_words::{Words, WordsFail, read_words};
use std::alloc::Global;

/// Runs the session or the workload that the words name, and answers the status of the program.
///
/// 0 where the session was performed and no error line was due, 1 where one was; 2 where loading was refused; 3 where the words are no
/// line; 4, 5 and 6 where a file couldn't be read, the output not be written, or a file not be put; 7 where memory ran out.
pub fn run_dxi<F: Files, X: Exports, O: Sink, L: Library>(
    alloc: Global,
    words: &Vec<String>,
    files: &mut F,
    exports: &mut X,
    out: &mut O,
    lib: &mut L,
) -> u8
    // Over files that tell their content. What is printed and put, what is asked for and run, and the status, are those of the line's
    // outcome; where the call is cut short, they are a front of that.
    ensures session { (map : FileMap) → F.content files.old ≡ Some map →
        let was = devices (L.done lib.old) (F.asked files.old) (O.written out.old) (X.puts exports.old) in
        let now = devices (L.done lib.new) (F.asked files.new) (O.written out.new) (X.puts exports.new) in
        (o : Outcome) × IsOutcome (texts words.now.items) map L.answer o × EndsAs result o was now }

    // Where no device failed, it comes to its end with the whole of the outcome, or memory runs out.
    ensures completeness { (map : FileMap) → F.content files.old ≡ Some map →
        ¬ (Rose (F.faults files.old) (F.faults files.new)) → ¬ (Rose (O.faults out.old) (O.faults out.new)) → ¬ (Rose (X.faults exports.old) (X.faults exports.new)) →
        let was = devices (L.done lib.old) (F.asked files.old) (O.written out.old) (X.puts exports.old) in
        let now = devices (L.done lib.new) (F.asked files.new) (O.written out.new) (X.puts exports.new) in
        (o : Outcome) × IsOutcome (texts words.now.items) map L.answer o × CompletesAs result o was now }

    // The text alone: with `--trace` each run, hit, kept, dropped and cleared result in its place, with `--links` the links behind each
    // execution.
    ensures text { (map : FileMap) → F.content files.old ≡ Some map →
        (o : Outcome) × IsOutcome (texts words.now.items) map L.answer o × PrintsAs result o.seen (O.written out.old) (O.written out.new) }

    // The runs of modules alone: exactly those of the cache machine, in their order.
    ensures runs { (map : FileMap) → F.content files.old ≡ Some map →
        (o : Outcome) × IsOutcome (texts words.now.items) map L.answer o × RunsAs result o.seen (L.done lib.old) (L.done lib.new) }

    // The files asked for beside the runs: those of loading, and then one for each run of Import whose call has no file of its own; a front
    // of these where the call was cut short, with the next run's name at most where the status is 4 or 7.
    ensures reads { (map : FileMap) → F.content files.old ≡ Some map →
        (o : Outcome) × IsOutcome (texts words.now.items) map L.answer o × ReadsAs result o (told (L.done lib.old) (F.asked files.old)) (told (L.done lib.new) (F.asked files.new)) }

    // Which names these are: those of loading, and then, execution by execution, the texts that its runs of Import have as first inputs, but
    // for those under which earlier executions have put a file; a front of these where the call was cut short.
    ensures asks { (map : FileMap) → F.content files.old ≡ Some map →
        (o : Outcome) × IsOutcome (texts words.now.items) map L.answer o × AsksAs result o (F.asked files.old) (F.asked files.new) }

    // And so the files put and the status, and on a line without `--trace` the bytes printed, are those of the language's meaning,
    // evaluated afresh.
    ensures meaning { (map : FileMap) → F.content files.old ≡ Some map →
        let was = devices (L.done lib.old) (F.asked files.old) (O.written out.old) (X.puts exports.old) in
        let now = devices (L.done lib.new) (F.asked files.new) (O.written out.new) (X.puts exports.new) in
        (m : Meaning) × IsMeaning (texts words.now.items) map L.answer m × EndsAsMeant result m was now }

    // No module runs that this meaning doesn't demand.
    ensures demand { (map : FileMap) → F.content files.old ≡ Some map →
        (m : Meaning) × IsMeaning (texts words.now.items) map L.answer m × AreDemanded m.demanded (L.done lib.old) (L.done lib.new) }

    // The stated sizes of what the cache machine keeps never exceed the budget.
    ensures budget { (map : FileMap) → F.content files.old ≡ Some map →
        (p : Plan) → IsPlan (texts words.now.items) map p → StaysWithin L.answer map p }

    // Also over files that tell nothing. The call came to its end, or was cut short.
    ensures statuses { IsTrue (is_cut result) ⊎ IsWholeStatus result }
    ensures usage { result ≡ 3 → words_of (texts words.now.items) ≡ None }
    ensures no_line { words_of (texts words.now.items) ≡ None → IsTrue (is_cut result) ⊎ (result ≡ 3) }

    // No file changes.
    ensures same { F.content files.new ≡ F.content files.old }

    // A fault is answered only where the device's count has risen.
    ensures read_fault { result ≡ 4 → Rose (F.faults files.old) (F.faults files.new) }
    ensures write_fault { result ≡ 5 → Rose (O.faults out.old) (O.faults out.new) }
    ensures export_fault { result ≡ 6 → Rose (X.faults exports.old) (X.faults exports.new) }

    // With any other status its count stays, so that no fault is told as want of memory, or as another device's.
    ensures no_read_fault { ¬ (result ≡ 4) → F.faults files.new ≡ F.faults files.old }
    ensures no_write_fault { ¬ (result ≡ 5) → O.faults out.new ≡ O.faults out.old }
    ensures no_export_fault { ¬ (result ≡ 6) → X.faults exports.new ≡ X.faults exports.old }
{
    run(alloc, words, files, exports, out, lib)
}

// The same, by the outcome as it is computed.
fn run<F: Files, X: Exports, O: Sink, L: Library>(
    alloc: Global,
    words: &Vec<String>,
    files: &mut F,
    exports: &mut X,
    out: &mut O,
    lib: &mut L,
) -> u8
    ensures ends { (map : FileMap) → F.content files.old ≡ Some map →
        EndsAs result (outcome L.answer map (plan_of (texts words.now.items) map)) (devices (L.done lib.old) (F.asked files.old) (O.written out.old) (X.puts exports.old)) (devices (L.done lib.new) (F.asked files.new) (O.written out.new) (X.puts exports.new)) }
    ensures statuses { IsTrue (is_cut result) ⊎ IsWholeStatus result }
    ensures usage { result ≡ 3 → words_of (texts words.now.items) ≡ None }
    ensures no_line { words_of (texts words.now.items) ≡ None → IsTrue (is_cut result) ⊎ (result ≡ 3) }
    ensures same { F.content files.new ≡ F.content files.old }
    ensures read_fault { result ≡ 4 → Rose (F.faults files.old) (F.faults files.new) }
    ensures write_fault { result ≡ 5 → Rose (O.faults out.old) (O.faults out.new) }
    ensures export_fault { result ≡ 6 → Rose (X.faults exports.old) (X.faults exports.new) }
    ensures no_read_fault { ¬ (result ≡ 4) → F.faults files.new ≡ F.faults files.old }
    ensures no_write_fault { ¬ (result ≡ 5) → O.faults out.new ≡ O.faults out.old }
    ensures no_export_fault { ¬ (result ≡ 6) → X.faults exports.new ≡ X.faults exports.old }
{
    exit_of(answer_words(alloc, words, files, exports, out, lib))
}

// The status of a call that came to its end, or that of what cut it short.
fn exit_of(ended: Result<u8, End>) -> u8
    ensures { result ≡ spec_exit_of ended }
{
    match ended {
        Ok(status) => status,
        Err(End::ReadFault) => 4,
        Err(End::WriteFault) => 5,
        Err(End::ExportFault) => 6,
        Err(End::Memory) => 7,
    }
}

// Reads the words, and does what they say.
fn answer_words<F: Files, X: Exports, O: Sink, L: Library>(
    alloc: Global,
    words: &Vec<String>,
    files: &mut F,
    exports: &mut X,
    out: &mut O,
    lib: &mut L,
) -> Result<u8, End>
    ensures ends { (map : FileMap) → F.content files.old ≡ Some map →
        Ends result (outcome L.answer map (plan_of (texts words.now.items) map)) (devices (L.done lib.old) (F.asked files.old) (O.written out.old) (X.puts exports.old)) (devices (L.done lib.new) (F.asked files.new) (O.written out.new) (X.puts exports.new)) }
    ensures status { IfOk result IsWholeStatus }
    ensures usage { IfOk result (λ status. status ≡ 3 → words_of (texts words.now.items) ≡ None) }
    ensures no_line { words_of (texts words.now.items) ≡ None → IfOk result (λ status. status ≡ 3) }
    ensures same { F.content files.new ≡ F.content files.old }
    ensures read_cause { Cause ReadFault (F.faults files.old) (F.faults files.new) result }
    ensures write_cause { Cause WriteFault (O.faults out.old) (O.faults out.new) result }
    ensures export_cause { Cause ExportFault (X.faults exports.old) (X.faults exports.new) result }
{
    match read_words(alloc, words) {
        Ok(said) => run_job(alloc, &said, files, exports, out, lib),
        Err(WordsFail::Refused) => print_alone(lines::usage(), 3, out),
        Err(WordsFail::Memory) => Err(End::Memory),
    }
}

// Prints a line alone, with this status.
fn print_alone<O: Sink>(line: &[u8], status: u8, out: &mut O) -> Result<u8, End>
    ensures prints { Writes (O.written out.old) (O.written out.new) line.now result }
    ensures status { IfOk result (λ own. own ≡ status) }
    ensures cause { Cause WriteFault (O.faults out.old) (O.faults out.new) result }
    ensures no_read { IsErrOf result ReadFault → ⊥ }
    ensures no_export { IsErrOf result ExportFault → ⊥ }
{
    match write_all(out, line) {
        Ok(()) => Ok(status),
        Err(fail) => Err(End::from(fail)),
    }
}

// Loads what the words name, and performs it.
fn run_job<F: Files, X: Exports, O: Sink, L: Library>(
    alloc: Global,
    said: &Words,
    files: &mut F,
    exports: &mut X,
    out: &mut O,
    lib: &mut L,
) -> Result<u8, End>
    requires range { IsInRange said.now.job }
    ensures ends { (map : FileMap) → F.content files.old ≡ Some map →
        Ends result (outcome L.answer map (of_loading said.now (job_loading map said.now.job))) (devices (L.done lib.old) (F.asked files.old) (O.written out.old) (X.puts exports.old)) (devices (L.done lib.new) (F.asked files.new) (O.written out.new) (X.puts exports.new)) }
    ensures status { IfOk result (λ status. (status ≡ 0) ⊎ (status ≡ 1) ⊎ (status ≡ 2)) }
    ensures same { F.content files.new ≡ F.content files.old }
    ensures read_cause { Cause ReadFault (F.faults files.old) (F.faults files.new) result }
    ensures write_cause { Cause WriteFault (O.faults out.old) (O.faults out.new) result }
    ensures export_cause { Cause ExportFault (X.faults exports.old) (X.faults exports.new) result }
{
    match load_job(alloc, &said.job, files) {
        Ok(statements) => perform_job(alloc, said, statements, files, exports, out, lib),
        Err(why) => match cut_by(&why) {
            Some(end) => Err(end),
            None => refuse(alloc, &why, out),
        },
    }
}

// What cut a loading short, if it wasn't refused.
fn cut_by(why: &LoadFail) -> Option<End>
    ensures { result ≡ end_of why.now }
{
    match why {
        LoadFail::ReadFault => Some(End::ReadFault),
        LoadFail::Memory => Some(End::Memory),
        _ => None,
    }
}

// Prints why nothing is loaded.
fn refuse<O: Sink>(alloc: Global, why: &LoadFail, out: &mut O) -> Result<u8, End>
    ensures prints { Writes (O.written out.old) (O.written out.new) (refusal_line why.now) result }
    ensures status { IfOk result (λ own. own ≡ 2) }
    ensures cause { Cause WriteFault (O.faults out.old) (O.faults out.new) result }
    ensures no_read { IsErrOf result ReadFault → ⊥ }
    ensures no_export { IsErrOf result ExportFault → ⊥ }
{
    let line = lines::refusal(alloc, why)?;
    print_alone(&line, 2, out)
}

// Performs what was loaded.
fn perform_job<F: Files, X: Exports, O: Sink, L: Library>(
    alloc: Global,
    said: &Words,
    statements: Stmts,
    files: &mut F,
    exports: &mut X,
    out: &mut O,
    lib: &mut L,
) -> Result<u8, End>
    requires lawful { AreLawful (plain_stmts statements) }
    ensures sees { (map : FileMap) → F.content files.old ≡ Some map →
        SeesSo result (each (seen_of (listings_of said.now)) (shown_of L.answer map said.now (plain_stmts statements))) (status_of (any_error (shown_of L.answer map said.now (plain_stmts statements)))) (devices (L.done lib.old) (F.asked files.old) (O.written out.old) (X.puts exports.old)) (devices (L.done lib.new) (F.asked files.new) (O.written out.new) (X.puts exports.new)) }
    ensures status { IfOk result (λ status. (status ≡ 0) ⊎ (status ≡ 1)) }
    ensures same { F.content files.new ≡ F.content files.old }
    ensures read_cause { Cause ReadFault (F.faults files.old) (F.faults files.new) result }
    ensures write_cause { Cause WriteFault (O.faults out.old) (O.faults out.new) result }
    ensures export_cause { Cause ExportFault (X.faults exports.old) (X.faults exports.new) result }
{
    match perform(
        alloc,
        statements,
        said.budget,
        listings(said),
        files,
        exports,
        out,
        lib,
    ) {
        Ok(erred) => Ok(exit_status(erred)),
        Err(end) => Err(end),
    }
}

fn listings(said: &Words) -> Listings
    ensures { result ≡ listings_of said.now }
{
    Listings {
        trace: said.trace,
        links: said.links,
    }
}

// 1 exactly where an error line was due.
fn exit_status(erred: bool) -> u8
    ensures is { result ≡ status_of erred }
    ensures own { (result ≡ 0) ⊎ (result ≡ 1) }
{
    if erred { 1 } else { 0 }
}
