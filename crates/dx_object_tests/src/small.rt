//! A library for tests: each module gives its inputs back, and refuses a file, and NULL as the first input.
ghost use Rattle.dx_object_tests.specs.Small.{small_answer, small_few};

use dx_base::{Bytes, Module};
use dx_objects::{Code, Library, NativeKind, Outs, RunFail};
use std::alloc::Global;

#[derive(Drop)]
pub(crate) struct Small;

impl Library for Small {
    ghost use Rattle.std.specs.Prelude.{None};

    ghost answer = { small_answer };

    ghost done = { λ s. None };

    ghost few_results = { small_few };

    fn run(
        &mut self,
        alloc: Global,
        module: Module,
        inputs: &Outs,
        file: Option<&Bytes>,
    ) -> Result<Outs, RunFail> {
        if let Some(file) = file {
            let at = file.bytes().len() as u64;
            return Err(RunFail::Code(Code::BadFile(NativeKind::Truncated, at)));
        }
        if inputs.value(0).is_none() {
            return Err(RunFail::Code(Code::BadArgument));
        }
        if inputs.len() > 64 {
            return Err(RunFail::Code(Code::TooLarge));
        }
        Ok(inputs.copy(alloc)?)
    }
}
