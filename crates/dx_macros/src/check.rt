//! The walk of a statement before its execution: its first static fault, or which definitions it reads.
ghost use Rattle.std.specs.Prelude.{◌≡◌, [], IfOk};
ghost use Rattle.dx_ast.specs.Lawful.{IsLawful};
ghost use Rattle.dx_ast.specs.Plain.{plain_call, plain_stmt};
ghost use Rattle.dx_macros.specs.Dictionary.{of_call};
ghost use Rattle.dx_macros.specs.DictionaryView.{dictionary_of};
ghost use Rattle.dx_macros.specs.Machine.{do_job, at_end, alone};
ghost use Rattle.dx_macros.specs.MachineView.{plain_activation, plain_job, means, Ends, Finds};
ghost use Rattle.dx_base.specs.Places.{flags};
ghost use Rattle.dx_definitions.specs.Index.{text_of};
ghost use Rattle.dx_macros.specs.Walk.{walk_of, walk_begins, fault_in, first_fault, read_in, definitions_read};
ghost use Rattle.dx_macros.specs.Weight.{IsFit};
ghost use Rattle.dx_macros.specs.Checking.{Checks};

use crate::dictionary::Dictionary;
use crate::fault::CheckFail;
use crate::jobs::{do_job, text_at_top};
use crate::machine::{Activation, Job, Machine, Stop};
use crate::pushing::put;
use crate::site::site_text;
use dx_ast::{Assign, Call, Stmt};
use dx_base::{Bytes, Sparse};
use std::alloc::{AllocError, Global};

/// Does all jobs, and answers which definitions were read.
fn run<'a>(alloc: Global, d: &'a Dictionary, m: Machine<'a>) -> Result<Sparse<()>, Stop<'a>>
    requires { IsFit (dictionary_of d.now) m }
    ensures { Ends (means (dictionary_of d.now) m.entry) result }
{
    let mut m = m;
    loop {
        match m.jobs.pop() {
            None => return Ok(m.read),
            Some(job) => match do_job(alloc, d, &mut m, job) {
                Ok(()) => (),
                Err(stop) => return Err(stop),
            },
        }
    }
}

fn begin<'a>(
    alloc: Global,
    d: &'a Dictionary,
    text: Activation<'a>,
    job: Job<'a>,
) -> Result<Machine<'a>, AllocError>
    ensures fit { IfOk result (λ m. IsFit (dictionary_of d.now) m) }
    ensures means { IfOk result (λ m. means (dictionary_of d.now) m ≡ do_job (dictionary_of d.now) (plain_job job.entry) at_end (alone (plain_activation [] text.entry)) (walk_begins (dictionary_of d.now))) }
{
    let mut jobs: Vec<Job<'a>> = Vec::new(alloc);
    put(&mut jobs, job)?;
    Ok(Machine {
        jobs,
        active: text,
        waiting: Vec::new(alloc),
        calls: 0,
        read: Sparse::new(alloc, d.len()),
    })
}

fn walk_call<'a>(alloc: Global, d: &'a Dictionary, c: &'a Call) -> Result<Sparse<()>, Stop<'a>>
    ensures finds { Finds (fault_in (walk_of (dictionary_of d.now) (of_call (plain_call c.now)))) result }
    ensures reads { IfOk result (λ read. flags read ≡ read_in (walk_of (dictionary_of d.now) (of_call (plain_call c.now)))) }
{
    let position = d.len();
    let none: &'a [Bytes] = &[];
    let text = text_at_top(alloc, none, position);
    let m = begin(alloc, d, text, Job::Call(0, c))?;
    run(alloc, d, m)
}

fn walk_assign<'a>(alloc: Global, d: &'a Dictionary, a: &'a Assign) -> Result<Sparse<()>, Stop<'a>>
    ensures finds { Finds (fault_in (walk_of (dictionary_of d.now) (text_of a.now))) result }
    ensures reads { IfOk result (λ read. flags read ≡ read_in (walk_of (dictionary_of d.now) (text_of a.now))) }
{
    let position = d.len();
    let text = text_at_top(alloc, a.targets.as_slice(), position);
    let m = begin(alloc, d, text, Job::Expr(a.targets.len(), &a.value))?;
    run(alloc, d, m)
}

// A statement that isn't executed has no calls, and reads nothing.
fn walk_statement<'a>(alloc: Global, d: &'a Dictionary, s: &'a Stmt) -> Result<Sparse<()>, Stop<'a>>
    ensures finds { Finds (first_fault (dictionary_of d.now) (plain_stmt s.now)) result }
    ensures reads { IfOk result (λ read. flags read ≡ definitions_read (dictionary_of d.now) (plain_stmt s.now)) }
{
    match s {
        Stmt::Call(c) => walk_call(alloc, d, c),
        Stmt::Sequence(c) => walk_call(alloc, d, c),
        Stmt::Assign(a) => walk_assign(alloc, d, a),
        _ => Ok(Sparse::new(alloc, d.len())),
    }
}

impl Dictionary {
    /// One walk of a statement before its execution: which definitions it reads, those at the marked places in the order
    /// in which the definitions joined, or its first static fault with the text of the site of the call that has it.
    /// A statement that isn't executed has no fault and reads nothing.
    pub fn walk(&self, alloc: Global, s: &Stmt) -> Result<Sparse<()>, CheckFail>
        requires lawful { IsLawful (plain_stmt s.now) }
        ensures fault { Checks (first_fault (dictionary_of self.now) (plain_stmt s.now)) result }
        ensures reads { IfOk result (λ read. flags read ≡ definitions_read (dictionary_of self.now) (plain_stmt s.now)) }
    {
        match walk_statement(alloc, self, s) {
            Ok(read) => Ok(read),
            Err(Stop::Memory) => Err(CheckFail::Memory),
            Err(Stop::Fault(site, fault)) => {
                let text = site_text(alloc, site.as_slice())?;
                Err(CheckFail::Fault(text, fault))
            }
        }
    }

    /// The first static fault of a statement, and the text of the site of the call that has it: an Ok where there is
    /// none. A statement that isn't executed has none.
    pub fn check(&self, alloc: Global, s: &Stmt) -> Result<(), CheckFail>
        requires lawful { IsLawful (plain_stmt s.now) }
        ensures { Checks (first_fault (dictionary_of self.now) (plain_stmt s.now)) result }
    {
        match self.walk(alloc, s) {
            Ok(_) => Ok(()),
            Err(fail) => Err(fail),
        }
    }
}
