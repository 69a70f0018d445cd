//! The library of the shipped program.
ghost use Rattle.dx_modules.specs.Answer.{answer_of};
ghost use Rattle.dx_modules.specs.Few.{few};

use dx_base::{Bytes, Module};
use dx_compute::run_compute;
use dx_import::run_import;
use dx_inquire::run_inquire;
use dx_objects::{Library, Outs, RunFail};
use dx_select::{
    run_collect, run_collect_named, run_collect_series, run_extract, run_mark, run_replace,
    run_select, run_unmark,
};
use dx_slab::run_slab;
use dx_stats::{run_histogram, run_statistics};
use std::alloc::Global;

/// The fourteen modules of Data Explorer's integer profile. It keeps no runs.
#[derive(Drop)]
pub struct Modules;

impl Modules {
    /// The library, which takes no memory.
    pub fn new() -> Modules {
        Modules
    }
}

impl Library for Modules {
    ghost use Rattle.std.specs.Prelude.{None};

    ghost answer = { answer_of };

    ghost done = { λ m. None };

    ghost few_results = { few };

    fn run(
        &mut self,
        alloc: Global,
        module: Module,
        inputs: &Outs,
        file: Option<&Bytes>,
    ) -> Result<Outs, RunFail> {
        match module {
            Module::Import => run_import(alloc, inputs, file),
            Module::Select => run_select(alloc, inputs),
            Module::Extract => run_extract(alloc, inputs),
            Module::Replace => run_replace(alloc, inputs),
            Module::Mark => run_mark(alloc, inputs),
            Module::Unmark => run_unmark(alloc, inputs),
            Module::Compute => run_compute(alloc, inputs),
            Module::Statistics => run_statistics(alloc, inputs),
            Module::Histogram => run_histogram(alloc, inputs),
            Module::Collect => run_collect(alloc, inputs),
            Module::CollectNamed => run_collect_named(alloc, inputs),
            Module::CollectSeries => run_collect_series(alloc, inputs),
            Module::Inquire => run_inquire(alloc, inputs),
            Module::Slab => run_slab(alloc, inputs),
        }
    }
}
