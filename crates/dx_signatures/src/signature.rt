//! The first fault of a call by itself: its name, its arguments, its targets, and the limits.
ghost use Rattle.std.specs.Prelude.{◌≡◌, None, map, length, IfOk, nat_lt, ◌+◌, ◌<◌, is_some};
ghost use Rattle.std.specs.List.{list_any};
ghost use Rattle.dx_ast.specs.Table.{row_of};
ghost use Rattle.dx_ast.specs.Plain.{plain_args, plain_macro};
ghost use Rattle.dx_ast.specs.Limits.{max_walk_calls};
ghost use Rattle.dx_signatures.specs.CalleeView.{plain_callee, place_of, UsesOne, FaultOfCounts};
ghost use Rattle.dx_signatures.specs.Callees.{param_names, CallsMacro, signature_of_function};
ghost use Rattle.dx_base.specs.NameLists.{texts};
ghost use Rattle.dx_signatures.specs.Faults.{names_fit, arg_names, fault_of_signature, fault_of_callee, fault_of_call};

use crate::callee::Callee;
use crate::fault::StaticFault;
use dx_ast::{Arg, MacroDef, Param, more, params, results};
use dx_base::{Bytes, Function};
use std::alloc::{AllocError, Global};

fn names_of_params<'a>(alloc: Global, params: &'a [Param]) -> Result<Vec<&'a [u8]>, AllocError>
    ensures { IfOk result (λ v. texts v.items ≡ param_names params.now) }
{
    let mut names = Vec::new(alloc);
    for p in params {
        names.push(p.name.bytes())?;
    }
    Ok(names)
}

fn place_of(names: &[&[u8]], name: &[u8]) -> Option<usize>
    ensures { result ≡ place_of (texts names.now) name.now }
{
    let mut i = 0;
    for n in names {
        if *n == name {
            return Some(i);
        }
        i += 1;
    }
    None
}

/// An argument uses a parameter that isn't given yet.
fn use_one<'a>(free: &mut Vec<&'a [u8]>, name: &Option<Bytes>) -> bool
    ensures { UsesOne (texts free.old.items) name.now (texts free.new.items) result }
{
    match name {
        None => {
            if !free.is_empty() {
                free.remove(0);
            }
            true
        }
        Some(n) => match place_of(free.as_slice(), n.bytes()) {
            None => false,
            Some(i) => {
                free.remove(i);
                true
            }
        },
    }
}

/// Each named argument names a parameter that isn't given yet.
fn names_fit(free: Vec<&[u8]>, args: &[Arg]) -> bool
    ensures { result ≡ names_fit (texts free.entry.items) (arg_names (plain_args args.now)) }
{
    let mut free = free;
    for a in args {
        if !use_one(&mut free, &a.name) {
            return false;
        }
    }
    true
}

fn is_beyond(n: usize, a: usize, b: usize) -> bool
    ensures { result ≡ nat_lt (a + b) n }
{
    n > a && n - a > b
}

/// An argument has a name.
fn has_named(args: &[Arg]) -> bool
    ensures { result ≡ list_any is_some (arg_names (plain_args args.now)) }
{
    for a in args {
        if a.name.is_some() {
            return true;
        }
    }
    false
}

/// The named arguments fit the parameters of a macro.
fn fits_macro(alloc: Global, params: &[Param], args: &[Arg]) -> Result<bool, AllocError>
    ensures { IfOk result (λ fit. fit ≡ names_fit (param_names params.now) (arg_names (plain_args args.now))) }
{
    if !has_named(args) {
        return Ok(true);
    }
    let free = names_of_params(alloc, params)?;
    Ok(names_fit(free, args))
}

/// The named arguments fit the parameters of a function.
fn fits_function(alloc: Global, f: Function, args: &[Arg]) -> Result<bool, AllocError>
    ensures { IfOk result (λ fit. fit ≡ names_fit (row_of f).params (arg_names (plain_args args.now))) }
{
    if !has_named(args) {
        return Ok(true);
    }
    let free = Vec::from_slice(alloc, params(f))?;
    Ok(names_fit(free, args))
}

/// The first fault of so many arguments and targets, by how many there may be and whether the named arguments fit.
fn fault_of_signature(
    named: usize,
    more: usize,
    results: usize,
    fit: bool,
    args: usize,
    targets: usize,
) -> Option<StaticFault>
    ensures { FaultOfCounts named more results fit args targets result }
{
    if is_beyond(args, named, more) {
        Some(StaticFault::TooManyArguments)
    } else if !fit {
        Some(StaticFault::NoSuchParameter)
    } else if targets > results {
        Some(StaticFault::TooManyResults)
    } else {
        None
    }
}

/// The first fault of a call of a macro, where this many macro steps are left.
fn fault_of_macro<'a>(
    alloc: Global,
    m: &'a MacroDef,
    left: u8,
    args: &[Arg],
    targets: usize,
) -> Result<Option<StaticFault>, AllocError>
    ensures { IfOk result (λ f. f ≡ fault_of_callee (CallsMacro (plain_macro m.now)) left (arg_names (plain_args args.now)) targets) }
{
    let params = m.params.as_slice();
    let fit = fits_macro(alloc, params, args)?;
    match fault_of_signature(params.len(), 0, m.results.len(), fit, args.len(), targets) {
        Some(fault) => Ok(Some(fault)),
        None => {
            if left == 0 {
                Ok(Some(StaticFault::Nesting))
            } else {
                Ok(None)
            }
        }
    }
}

/// The first fault of a call of a function.
fn fault_of_function(
    alloc: Global,
    f: Function,
    args: &[Arg],
    targets: usize,
) -> Result<Option<StaticFault>, AllocError>
    ensures { IfOk result (λ fault. fault ≡ fault_of_signature (signature_of_function f) (arg_names (plain_args args.now)) targets) }
{
    let fit = fits_function(alloc, f, args)?;
    let named = params(f).len();
    Ok(fault_of_signature(
        named,
        more(f) as usize,
        results(f) as usize,
        fit,
        args.len(),
        targets,
    ))
}

/// The most calls of a walk.
const MAX_CALLS: u32 = 65_536;

/// The first fault of a call behind so many calls, where this many macro steps are left.
pub fn fault_of_call<'a>(
    alloc: Global,
    calls: u32,
    callee: Callee<'a>,
    left: u8,
    args: &[Arg],
    targets: usize,
) -> Result<Option<StaticFault>, AllocError>
    ensures counted { IfOk result (λ f. f ≡ None → calls < max_walk_calls) }
    ensures fault { IfOk result (λ f. f ≡ fault_of_call calls (plain_callee callee.entry) left (arg_names (plain_args args.now)) targets) }
{
    if calls >= MAX_CALLS {
        return Ok(Some(StaticFault::Calls));
    }
    match callee {
        Callee::Unknown => Ok(Some(StaticFault::UnknownFunction)),
        Callee::Macro(m) => fault_of_macro(alloc, m, left, args, targets),
        Callee::Function(f) => fault_of_function(alloc, f, args, targets),
    }
}
