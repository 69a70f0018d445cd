//! The call of a row, and what it answers.
use crate::shown::push_object;
use crate::stock::value;
use dx_base::Module;
use dx_objects::{Code, Outs, RunFail};
use dx_select::{
    run_collect, run_collect_named, run_collect_series, run_extract, run_mark, run_replace,
    run_select, run_unmark,
};
use std::alloc::{AllocError, Global};
use std::test::Fail;

// The inputs of these letters.
fn inputs(alloc: Global, ids: &[u8]) -> Result<Outs, Fail> {
    let mut inputs = Outs::new(alloc);
    for id in ids {
        inputs.push(value(alloc, *id)?)?;
    }
    Ok(inputs)
}

// Where the module doesn't take so many inputs, it is refused as Unsupported.
fn run(alloc: Global, module: Module, inputs: &Outs) -> Result<Outs, RunFail> {
    if !module.takes(inputs.len()) {
        return Err(RunFail::Code(Code::Unsupported));
    }
    match module {
        Module::Select => run_select(alloc, inputs),
        Module::Extract => run_extract(alloc, inputs),
        Module::Replace => run_replace(alloc, inputs),
        Module::Mark => run_mark(alloc, inputs),
        Module::Unmark => run_unmark(alloc, inputs),
        Module::Collect => run_collect(alloc, inputs),
        Module::CollectNamed => run_collect_named(alloc, inputs),
        Module::CollectSeries => run_collect_series(alloc, inputs),
        _ => Err(RunFail::Code(Code::Unsupported)),
    }
}

fn word(fail: RunFail) -> &'static [u8] {
    match fail {
        RunFail::Code(Code::BadArgument) => b"BadArgument",
        RunFail::Code(Code::Unsupported) => b"Unsupported",
        RunFail::Code(Code::NoComponent) => b"NoComponent",
        RunFail::Code(Code::NoMember) => b"NoMember",
        RunFail::Code(Code::TooLarge) => b"TooLarge",
        RunFail::Code(_) => b"another code",
        RunFail::Memory => b"memory",
    }
}

// What the results are: one object.
fn shown(alloc: Global, results: &Outs) -> Result<Vec<u8>, AllocError> {
    let mut text = Vec::new(alloc);
    if let Some(object) = results.value(0) {
        push_object(&mut text, object)?;
    }
    Ok(text)
}

/// Whether the module answers this for the inputs of these letters.
pub(crate) fn answers(
    alloc: Global,
    module: Module,
    ids: &[u8],
    wanted: &[u8],
) -> Result<bool, Fail> {
    let inputs = inputs(alloc, ids)?;
    match run(alloc, module, &inputs) {
        Err(fail) => Ok(word(fail) == wanted),
        Ok(results) => Ok(results.len() == 1 && shown(alloc, &results)?.as_slice() == wanted),
    }
}
