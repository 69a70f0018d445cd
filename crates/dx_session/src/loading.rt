//! The loading of a session, or of the text of a workload.
ghost use Rattle.std.specs.Prelude.{◌≡◌, ◌≤◌, Some, IfOk};
ghost use Rattle.dx_ast.specs.Lawful.{AreLawful};
ghost use Rattle.dx_ast.specs.Plain.{plain_stmts};
ghost use Rattle.dx_io.specs.Devices.{FileMap};
ghost use Rattle.dx_include.specs.Answers.{LoadCause, Loads};
ghost use Rattle.dx_include.specs.Computed.{loading_of};
ghost use Rattle.dx_outcome.specs.Computed.{job_loading};
ghost use Rattle.dx_outcome.specs.Plan.{alone, workload_file, workload_name};
ghost use Rattle.dx_session.specs.Loads.{LoadsOwn};
ghost use Rattle.dx_words.specs.Range.{IsInRange};

use crate::workload;
use crate::workload::WorkloadFile;
use dx_ast::Stmts;
use dx_base::Bytes;
use dx_include::{LoadFail, load};
use dx_io::Files;
use dx_words::Job;
use dx_workload::workload_text;
use std::alloc::Global;

/// Loads the session that is named, or the text of the workload, which asks for no file of the folder.
pub(crate) fn load_job<F: Files>(alloc: Global, job: &Job, files: &mut F) -> Result<Stmts, LoadFail>
    requires range { IsInRange job.now }
    ensures loading { (map : FileMap) → F.content files.old ≡ Some map →
        Loads (job_loading map job.now) result (F.asked files.old) (F.asked files.new) }
    ensures lawful { IfOk result (λ statements. AreLawful (plain_stmts statements)) }
    ensures same { F.content files.new ≡ F.content files.old }
    ensures cause { LoadCause (F.faults files.old) (F.faults files.new) result }
{
    match job {
        Job::Session(name) => load_session(alloc, files, name),
        Job::Workload(n) => load_workload(alloc, *n),
    }
}

// Loads a session, as it is computed.
fn load_session<F: Files>(alloc: Global, files: &mut F, name: &Bytes) -> Result<Stmts, LoadFail>
    ensures loading { (map : FileMap) → F.content files.old ≡ Some map →
        Loads (loading_of map name.now) result (F.asked files.old) (F.asked files.new) }
    ensures lawful { IfOk result (λ statements. AreLawful (plain_stmts statements)) }
    ensures same { F.content files.new ≡ F.content files.old }
    ensures cause { LoadCause (F.faults files.old) (F.faults files.new) result }
{
    load(alloc, files, name)
}

fn load_workload(alloc: Global, n: u32) -> Result<Stmts, LoadFail>
    requires some { 1 ≤ n }
    requires few { n ≤ 100000 }
    ensures loading { LoadsOwn (loading_of (workload_file n) workload_name) result }
    ensures lawful { IfOk result (λ statements. AreLawful (plain_stmts statements)) }
{
    let text = workload_text(alloc, n)?;
    load_alone(alloc, text)
}

// Loads the text that is the one file there is. It has no faults.
fn load_alone(alloc: Global, text: Bytes) -> Result<Stmts, LoadFail>
    ensures loading { LoadsOwn (loading_of (alone workload_name text) workload_name) result }
    ensures lawful { IfOk result (λ statements. AreLawful (plain_stmts statements)) }
{
    let name = Bytes::copy_of(alloc, workload::name())?;
    let mut file = WorkloadFile { text };
    load_session(alloc, &mut file, &name)
}
