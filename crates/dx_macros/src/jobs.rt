//! The jobs of a walk, one at a time.
ghost use Rattle.std.specs.Prelude.{◌≡◌, ◌∷◌, ◌++◌, ◌<◌, ◌-◌, ◌+◌, [], suc, length, OnOk, slice_index_or, false};
ghost use Rattle.dx_ast.specs.Plain.{plain_expr, plain_call, plain_args, plain_macro, plain_stmts};
ghost use Rattle.dx_ast.specs.declared.expressions.Call.{out-Call};
ghost use Rattle.dx_ast.specs.declared.statements.MacroDef.{out-MacroDef};
ghost use Rattle.dx_ast.specs.Limits.{max_walk_calls};
ghost use Rattle.dx_signatures.specs.Callees.{param_names};
ghost use Rattle.dx_macros.specs.DictionaryView.{dictionary_of};
ghost use Rattle.dx_signatures.specs.CalleeView.{plain_callee};
ghost use Rattle.dx_macros.specs.Steps.{plain_step};
ghost use Rattle.dx_macros.specs.Machine.{ExprJob, CallJob, ArgsJob, EnterJob, BodyJob, OwnJob, NamesJob};
ghost use Rattle.dx_macros.specs.MachineView.{BeginsAtTop, BeginsIn, stack_now, plain_job, means, Continues, job_first, name_first, definition_first, accepted, FaultIs};
ghost use Rattle.dx_base.specs.Places.{flags};
ghost use Rattle.dx_macros.specs.Weight.{expr_weight, call_weight, args_weight, body_weight, macro_weight, callee_weight, job_weight, Falls, Pays};

use crate::callee::called;
use crate::dictionary::Dictionary;
use crate::machine::{
    Activation, Job, Machine, Reached, Stop, base, counted, enter, is_own, is_read, leave, mark,
    push,
};
use crate::site::SiteStep;
use dx_ast::{Arg, Assign, Call, Expr, MacroDef, Param, Stmt};
use dx_base::{Bytes, Names};
use dx_signatures::{Callee, StaticFault, fault_of_call};
use std::alloc::{AllocError, Global};

fn do_args<'a>(d: &'a Dictionary, m: &mut Machine<'a>, args: &'a [Arg]) -> Result<(), Stop<'a>>
    ensures continues { Continues (job_first (dictionary_of d.now) (ArgsJob (plain_args args.now)) m.old) result (means (dictionary_of d.now) m.new) }
    ensures falls { Falls (dictionary_of d.now) (args_weight (plain_args args.now)) m.old result m.new }
{
    match args.split_first() {
        None => Ok(()),
        Some((a, others)) => {
            push(m, Job::Args(others))?;
            push(m, Job::Expr(0, &a.value))
        }
    }
}

fn do_body<'a>(
    d: &'a Dictionary,
    m: &mut Machine<'a>,
    results: &'a [Bytes],
    stmts: &'a [Stmt],
) -> Result<(), Stop<'a>>
    ensures continues { Continues (job_first (dictionary_of d.now) (BodyJob results.now (plain_stmts stmts.now)) m.old) result (means (dictionary_of d.now) m.new) }
    ensures falls { Falls (dictionary_of d.now) (body_weight results.now (plain_stmts stmts.now)) m.old result m.new }
{
    match stmts.split_first() {
        None => push(m, Job::Names(results)),
        Some((s, others)) => {
            push(m, Job::Body(results, others))?;
            match s {
                Stmt::Call(c) => push(m, Job::Call(0, c)),
                Stmt::Assign(a) => {
                    push(m, Job::Own(a.targets.as_slice()))?;
                    push(m, Job::Expr(a.targets.len(), &a.value))
                }
                _ => Ok(()),
            }
        }
    }
}

fn put_names<'a>(list: &mut Names<'a>, names: &'a [Bytes]) -> Result<(), AllocError>
    ensures { OnOk result (list.new ≡ list.old ++ names.now) }
{
    for n in names {
        list.push(n.bytes())?;
    }
    Ok(())
}

fn do_own<'a>(d: &'a Dictionary, m: &mut Machine<'a>, names: &'a [Bytes]) -> Result<(), Stop<'a>>
    ensures continues { Continues (job_first (dictionary_of d.now) (OwnJob names.now) m.old) result (means (dictionary_of d.now) m.new) }
    ensures falls { Falls (dictionary_of d.now) (1) m.old result m.new }
{
    put_names(&mut m.active.assigned, names)?;
    Ok(())
}

/// The most macro steps of a site.
pub const MAX_STEPS: u8 = 64;

/// A text of the top level at a position.
pub fn text_at_top<'a>(alloc: Global, targets: &'a [Bytes], position: usize) -> Activation<'a>
    ensures { BeginsAtTop targets.now position result }
{
    Activation {
        reached: Reached::Top(targets),
        left: MAX_STEPS,
        position,
        params: &[],
        assigned: Names::new(alloc),
        before: Names::new(alloc),
    }
}

/// A macro's body, where a macro step is left.
fn text_of_macro<'a>(
    alloc: Global,
    caller: &Activation<'a>,
    params: &'a [Param],
    step: SiteStep<'a>,
) -> Activation<'a>
    requires { 0 < caller.now.left }
    ensures { BeginsIn caller.now (caller.now.left - 1) (param_names params.now) (plain_step step.entry) result }
{
    Activation {
        reached: Reached::Call(step),
        left: caller.left - 1,
        position: caller.position,
        params,
        assigned: Names::new(alloc),
        before: Names::new(alloc),
    }
}

/// A definition is walked at its first reading.
fn define<'a>(
    alloc: Global,
    d: &'a Dictionary,
    m: &mut Machine<'a>,
    i: usize,
) -> Result<(), Stop<'a>>
    requires { i < length (dictionary_of d.now).definitions }
    ensures continues { Continues (definition_first (dictionary_of d.now) i m.old) result (means (dictionary_of d.now) m.new) }
    ensures falls { slice_index_or (flags m.old.read) i false ≡ false → Falls (dictionary_of d.now) 1 m.old result m.new }
{
    let a = d.definition(i);
    let text = text_at_top(alloc, a.targets.as_slice(), i);
    mark(&mut m.read, i)?;
    enter(m, text)?;
    push(m, Job::Expr(a.targets.len(), &a.value))
}

fn read_name<'a>(
    alloc: Global,
    d: &'a Dictionary,
    m: &mut Machine<'a>,
    name: &[u8],
) -> Result<(), Stop<'a>>
    ensures continues { Continues (name_first (dictionary_of d.now) name.now m.old) result (means (dictionary_of d.now) m.new) }
    ensures falls { Falls (dictionary_of d.now) 1 m.old result m.new }
{
    if is_own(&m.active, name) {
        return Ok(());
    }
    match d.last_before(m.active.position, name) {
        None => Ok(()),
        Some(i) => {
            if is_read(&m.read, i) {
                Ok(())
            } else {
                define(alloc, d, m, i)
            }
        }
    }
}

fn do_names<'a>(
    alloc: Global,
    d: &'a Dictionary,
    m: &mut Machine<'a>,
    names: &'a [Bytes],
) -> Result<(), Stop<'a>>
    ensures continues { Continues (job_first (dictionary_of d.now) (NamesJob names.now) m.old) result (means (dictionary_of d.now) m.new) }
    ensures falls { Falls (dictionary_of d.now) (suc (length names.now)) m.old result m.new }
{
    match names.split_first() {
        None => Ok(()),
        Some((n, others)) => {
            push(m, Job::Names(others))?;
            read_name(alloc, d, m, n.bytes())
        }
    }
}

fn do_enter<'a>(
    alloc: Global,
    d: &'a Dictionary,
    m: &mut Machine<'a>,
    x: &'a MacroDef,
    step: SiteStep<'a>,
) -> Result<(), Stop<'a>>
    ensures continues { Continues (job_first (dictionary_of d.now) (EnterJob (plain_macro x.now) (plain_step step.entry)) m.old) result (means (dictionary_of d.now) m.new) }
    ensures falls { Falls (dictionary_of d.now) (macro_weight (plain_macro x.now)) m.old result m.new }
{
    if m.active.left == 0 {
        return Ok(());
    }
    let text = text_of_macro(alloc, &m.active, x.params.as_slice(), step);
    enter(m, text)?;
    push(m, Job::Body(x.results.as_slice(), x.body.as_slice()))
}

/// The call's arguments and its macro's body are to come.
fn accept<'a>(
    d: &'a Dictionary,
    m: &mut Machine<'a>,
    callee: Callee<'a>,
    step: SiteStep<'a>,
    c: &'a Call,
) -> Result<(), Stop<'a>>
    requires { m.old.calls < max_walk_calls }
    ensures continues { Continues (accepted (dictionary_of d.now) (plain_callee callee.entry) (plain_step step.entry) (out-Call c.now).name (plain_args (out-Call c.now).args) m.old) result (means (dictionary_of d.now) m.new) }
    ensures pays { Pays (dictionary_of d.now) (args_weight (plain_args (out-Call c.now).args) + callee_weight (plain_callee callee.entry)) m.old result m.new }
{
    counted(m, c.name.bytes())?;
    match callee {
        Callee::Macro(x) => {
            push(m, Job::Enter(x, step))?;
            push(m, Job::Args(c.args.as_slice()))
        }
        Callee::Function(_) => push(m, Job::Args(c.args.as_slice())),
        Callee::Unknown => push(m, Job::Args(c.args.as_slice())),
    }
}

fn faulty<'a>(alloc: Global, m: &Machine<'a>, step: SiteStep<'a>, fault: StaticFault) -> Stop<'a>
    ensures { FaultIs ((stack_now m.now).active.base ++ plain_step step.entry ∷ []) fault result }
{
    match base(alloc, m.waiting.as_slice(), m.active.reached) {
        Err(_) => Stop::Memory,
        Ok(site) => {
            let mut site = site;
            match site.push(step) {
                Err(_) => Stop::Memory,
                Ok(()) => Stop::Fault(site, fault),
            }
        }
    }
}

/// A call is checked at its step, the k-th call of its name in the text.
fn do_call<'a>(
    alloc: Global,
    d: &'a Dictionary,
    m: &mut Machine<'a>,
    targets: usize,
    c: &'a Call,
) -> Result<(), Stop<'a>>
    ensures continues { Continues (job_first (dictionary_of d.now) (CallJob targets (plain_call c.now)) m.old) result (means (dictionary_of d.now) m.new) }
    ensures falls { Falls (dictionary_of d.now) (call_weight (plain_call c.now)) m.old result m.new }
{
    let name = c.name.bytes();
    let args = c.args.as_slice();
    let callee = called(d, name);
    let k = m.active.before.count(name) + 1;
    let step = SiteStep::Nth(name, k);
    match fault_of_call(alloc, m.calls, callee, m.active.left, args, targets)? {
        Some(fault) => Err(faulty(alloc, m, step, fault)),
        None => accept(d, m, callee, step, c),
    }
}

fn do_expr<'a>(
    alloc: Global,
    d: &'a Dictionary,
    m: &mut Machine<'a>,
    targets: usize,
    e: &'a Expr,
) -> Result<(), Stop<'a>>
    ensures continues { Continues (job_first (dictionary_of d.now) (ExprJob targets (plain_expr e.now)) m.old) result (means (dictionary_of d.now) m.new) }
    ensures falls { Falls (dictionary_of d.now) (expr_weight (plain_expr e.now)) m.old result m.new }
{
    match e {
        Expr::Constant(_) => Ok(()),
        Expr::Frame(_) => Ok(()),
        Expr::Name(n) => read_name(alloc, d, m, n.bytes()),
        Expr::Call(c) => do_call(alloc, d, m, targets, c.get()),
    }
}

/// Does a job.
pub fn do_job<'a>(
    alloc: Global,
    d: &'a Dictionary,
    m: &mut Machine<'a>,
    job: Job<'a>,
) -> Result<(), Stop<'a>>
    ensures continues { Continues (job_first (dictionary_of d.now) (plain_job job.entry) m.old) result (means (dictionary_of d.now) m.new) }
    ensures falls { Falls (dictionary_of d.now) (job_weight (plain_job job.entry)) m.old result m.new }
{
    match job {
        Job::Expr(targets, e) => do_expr(alloc, d, m, targets, e),
        Job::Call(targets, c) => do_call(alloc, d, m, targets, c),
        Job::Args(args) => do_args(d, m, args),
        Job::Enter(x, step) => do_enter(alloc, d, m, x, step),
        Job::Body(results, stmts) => do_body(d, m, results, stmts),
        Job::Own(names) => do_own(d, m, names),
        Job::Names(names) => do_names(alloc, d, m, names),
        Job::Leave => {
            leave(m);
            Ok(())
        }
    }
}
