//! Calls in work.
ghost use Rattle.std.specs.Prelude.{◌≡◌, List, ◌++◌, ◌∷◌, [], MatchOption, OnOk};
ghost use Rattle.dx_base.specs.declared.function.Module.{Module};
ghost use Rattle.dx_tags.specs.declared.term.Term.TheVariants.{Call, File};
ghost use Rattle.dx_tags.specs.declared.term.ValueTag.{ValueTag};
ghost use Rattle.dx_tags.specs.NamedTerms.{term_named};
ghost use Rattle.dx_getting.specs.Stands.{Setting};
ghost use Rattle.dx_getting.specs.Stack.{IsOpen, NextIs};

use dx_base::Module;
use dx_objects::Outs;
use dx_tags::{Content, Named, Tags, Term, ValueTag, ValueTags};
use std::alloc::{AllocError, Global};
use std::mem;

/// A call in work: the value that is wanted of it, and the values of its first arguments.
#[derive(Drop)]
pub struct Open {
    pub wanted: ValueTag,
    pub inputs: Outs,
}

/// What a call has to do next: an argument is got, or it is run, with the written file that it has.
#[derive(Drop)]
pub enum Next<'a> {
    Argument(ValueTag),
    Run(Module, Option<&'a Content>),
}

// The module and the arguments of a call's term.
fn call_in(named: Named<'_>) -> (Module, &ValueTags)
    requires { (m : Module) × (args : List ValueTag) × (term_named named ≡ Call m args) }
    ensures { term_named named.entry ≡ Call result.0 result.1.now }
{
    match named {
        Named::Held(_) => unreachable!(),
        Named::Formed(term) => match term {
            Term::Call(module, args) => (*module, args),
            _ => unreachable!(),
        },
    }
}

// The bytes of a file's term, and none of another.
fn file_in(named: Named<'_>) -> Option<&Content>
    ensures { MatchOption result ((bytes : _) → ¬ (term_named named.entry ≡ File bytes)) (λ content. term_named named.entry ≡ File content.now) }
{
    match named {
        Named::Held(_) => None,
        Named::Formed(term) => match term {
            Term::File(content) => Some(content),
            _ => None,
        },
    }
}

/// What a call in work has to do next.
pub(crate) fn next_of<'a>(tags: &'a Tags, call: &Open) -> Next<'a>
    requires call { (e : Setting) × (e.terms ≡ tags.now) × IsOpen e call.now }
    ensures { (e : Setting) → e.terms ≡ tags.now → IsOpen e call.now → NextIs e call.now result }
{
    let (module, args) = call_in(tags.term(call.wanted.tag));
    match args.as_slice().get(call.inputs.len()) {
        None => Next::Run(module, None),
        Some(arg) => match file_in(tags.term(arg.tag)) {
            None => Next::Argument(*arg),
            Some(content) => Next::Run(module, Some(content)),
        },
    }
}

/// Puts a call on top.
pub(crate) fn put_on(
    alloc: Global,
    below: &mut Vec<Open>,
    top: &mut Open,
    wanted: ValueTag,
) -> Result<(), AllocError>
    ensures below { OnOk result (below.new.items ≡ below.old.items ++ top.old ∷ []) }
    ensures top { OnOk result (top.new ≡ record { wanted = wanted; inputs = [] }) }
{
    below.reserve(1)?;
    let inputs = Outs::new(alloc);
    let under = mem::replace(top, Open { wanted, inputs });
    match below.push(under) {
        Ok(()) => {}
        Err(_) => unreachable!(),
    }
    Ok(())
}
