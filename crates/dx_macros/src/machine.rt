//! The walk under way: the texts that are walked, the jobs that are left, and what was counted and read so far.
ghost use Rattle.std.specs.Prelude.{◌≡◌, ◌<◌, ◌++◌, [], OnOk, IfOk, slice_set, slice_index_or, true, false};
ghost use Rattle.dx_ast.specs.Limits.{max_walk_calls};
ghost use Rattle.dx_signatures.specs.Callees.{param_names};
ghost use Rattle.dx_macros.specs.MachineView.{PushesJob, Enters, IsLeft, CountsCall, steps_to, base_of, waiting_above};
ghost use Rattle.dx_base.specs.NameLists.{has};
ghost use Rattle.dx_base.specs.Places.{flags};
ghost use Rattle.dx_macros.specs.Steps.{plain_steps};

use crate::pushing::put;
use crate::site::SiteStep;
use dx_ast::{Arg, Call, Expr, MacroDef, Param, Stmt};
use dx_base::{Bytes, Names, Sparse};
use dx_signatures::StaticFault;
use std::alloc::{AllocError, Global};
use std::mem;

/// How a text is reached.
#[derive(Clone, Copy)]
pub enum Reached<'a> {
    /// It stands at the top level, and has these targets.
    Top(&'a [Bytes]),
    /// It is the body of a macro whose call has this step.
    Call(SiteStep<'a>),
}

/// A text that is walked: a macro's body, or a text of the top level.
#[derive(Drop)]
pub struct Activation<'a> {
    pub reached: Reached<'a>,
    /// How many macro steps are left.
    pub left: u8,
    /// The position of its top-level text.
    pub position: usize,
    pub params: &'a [Param],
    /// Its targets so far.
    pub assigned: Names<'a>,
    /// The names of its calls so far.
    pub before: Names<'a>,
}

/// A part of the walk that is still to come.
#[derive(Drop)]
pub enum Job<'a> {
    /// An expression, and how many targets it has.
    Expr(usize, &'a Expr),
    Call(usize, &'a Call),
    Args(&'a [Arg]),
    /// The body of a macro whose call has this step.
    Enter(&'a MacroDef, SiteStep<'a>),
    /// The rest of a body, and then the results of its macro.
    Body(&'a [Bytes], &'a [Stmt]),
    /// Targets that are assigned.
    Own(&'a [Bytes]),
    /// Names that are read.
    Names(&'a [Bytes]),
    /// The text is at its end, and the one that waits goes on.
    Leave,
}

/// A walk under way.
#[derive(Drop)]
pub struct Machine<'a> {
    /// What is left to do, the next one last.
    pub jobs: Vec<Job<'a>>,
    pub active: Activation<'a>,
    /// The texts that wait for the end of the active one, the next one last.
    pub waiting: Vec<Activation<'a>>,
    /// How many calls were counted.
    pub calls: u32,
    /// Which definitions were read.
    pub read: Sparse<()>,
}

/// Why a walk stops.
#[derive(Drop)]
pub enum Stop<'a> {
    Fault(Vec<SiteStep<'a>>, StaticFault),
    Memory,
}

impl<'a> From<AllocError> for Stop<'a> {
    ghost use Rattle.dx_macros.specs.declared.machine.Stop.TheVariants.{Memory};

    ghost from_gives = { λ _ r. r ≡ Memory };

    fn from(_: AllocError) -> Stop<'a> {
        Stop::Memory
    }
}

/// One more job; the rest stays as it was.
pub fn push<'a>(m: &mut Machine<'a>, job: Job<'a>) -> Result<(), Stop<'a>>
    ensures { PushesJob m.old job.entry result m.new }
{
    match m.jobs.push(job) {
        Ok(()) => Ok(()),
        Err(_) => Err(Stop::Memory),
    }
}

/// A text is begun, for whose end the one so far waits.
pub fn enter<'a>(m: &mut Machine<'a>, text: Activation<'a>) -> Result<(), Stop<'a>>
    ensures { Enters m.old text.entry result m.new }
{
    let so_far = mem::replace(&mut m.active, text);
    match put(&mut m.waiting, so_far) {
        Ok(()) => match put(&mut m.jobs, Job::Leave) {
            Ok(()) => Ok(()),
            Err(_) => Err(Stop::Memory),
        },
        Err(_) => Err(Stop::Memory),
    }
}

/// The text that waits goes on.
pub fn leave<'a>(m: &mut Machine<'a>)
    ensures { IsLeft m.old m.new }
{
    match m.waiting.pop() {
        None => (),
        Some(text) => m.active = text,
    }
}

/// A call is counted, and its name stands before what follows.
pub fn counted<'a>(m: &mut Machine<'a>, name: &'a [u8]) -> Result<(), Stop<'a>>
    requires { m.old.calls < max_walk_calls }
    ensures { CountsCall m.old name.now result m.new }
{
    m.calls += 1;
    match m.active.before.push(name) {
        Ok(()) => Ok(()),
        Err(_) => Err(Stop::Memory),
    }
}

fn has_param(params: &[Param], name: &[u8]) -> bool
    ensures { result ≡ has (param_names params.now) name.now }
{
    for p in params {
        if p.name.bytes() == name {
            return true;
        }
    }
    false
}

/// The name is that of a parameter or of a target so far.
pub fn is_own<'a>(text: &Activation<'a>, name: &[u8]) -> bool
    ensures { result ≡ has (param_names text.now.params.now ++ text.now.assigned) name.now }
{
    has_param(text.params, name) || text.assigned.has(name)
}

fn reach<'a>(steps: &mut Vec<SiteStep<'a>>, reached: Reached<'a>) -> Result<(), AllocError>
    ensures { OnOk result (plain_steps steps.new.items ≡ steps_to (plain_steps steps.old.items) reached.entry) }
{
    match reached {
        Reached::Top(targets) => {
            steps.clear();
            match targets.first() {
                None => Ok(()),
                Some(t) => put(steps, SiteStep::Target(t.bytes())),
            }
        }
        Reached::Call(step) => put(steps, step),
    }
}

/// The steps that lead to the text that is walked, where these wait.
pub fn base<'a>(
    alloc: Global,
    waiting: &[Activation<'a>],
    reached: Reached<'a>,
) -> Result<Vec<SiteStep<'a>>, AllocError>
    ensures { IfOk result (λ steps. plain_steps steps.items ≡ steps_to (base_of (waiting_above [] waiting.now)) reached.entry) }
{
    let mut steps = Vec::new(alloc);
    for text in waiting {
        reach(&mut steps, text.reached)?;
    }
    reach(&mut steps, reached)?;
    Ok(steps)
}

/// A definition is read.
pub fn mark(read: &mut Sparse<()>, i: usize) -> Result<(), AllocError>
    ensures { OnOk result (flags read.new ≡ slice_set (flags read.old) i true) }
{
    read.set(i, ())
}

pub fn is_read(read: &Sparse<()>, i: usize) -> bool
    ensures { result ≡ slice_index_or (flags read.now) i false }
{
    read.get(i).is_some()
}
