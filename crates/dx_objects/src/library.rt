//! The modules that compute, as one trait, and a library that keeps what it was asked.
ghost use Rattle.std.specs.Prelude.{◌≡◌, ◌++◌, ◌∷◌, [], ℕ, List, Option, OnOk, OnErr, length};
ghost use Rattle.std.specs.Option.{option_copied};
ghost use Rattle.dx_base.specs.Modules.{Takes};
ghost use Rattle.dx_base.specs.declared.function.Module.{Module};
ghost use Rattle.dx_objects.specs.Runs.{Values, Ran, Answer, HasFewResults, Gives, Tells, all_ran};

use crate::outs::Outs;
use crate::run_fail::RunFail;
use dx_base::{Bytes, Module};
use std::alloc::{AllocError, Global};
use std::marker::Model;

/// The modules of the executive: each gives results for its inputs, or refuses them with a code.
pub trait Library {
    /// What a module answers for its inputs and for the bytes of a file, or none. It belongs to the type.
    ghost answer: { Module → Values → Option (List ℕ) → Answer };

    /// The runs so far, where they are told.
    ghost done: { Self → Option (List Ran) };

    /// Runs a module on as many inputs as it takes, and on the bytes of a file where it is to read one. Beside the
    /// module's own answer only want of memory is possible. Where runs are told, this one stands last; where memory ran
    /// out it may be missing.
    fn run(
        &mut self,
        alloc: Global,
        module: Module,
        inputs: &Outs,
        file: Option<&Bytes>,
    ) -> Result<Outs, RunFail>
        requires { Takes «module» (length inputs.now) }
        ensures answer { Gives (answer «module» inputs.now (option_copied file.entry)) result }
        ensures done { Tells (done self.old) (done self.new) («module», inputs.now) result };

    /// No module has more than 64 results.
    ghost few_results: { (m : Module) (inputs : Values) (file : Option (List ℕ)) → HasFewResults (answer m inputs file) };
}

/// A run of a module on these inputs.
#[derive(Drop)]
pub struct Run {
    pub module: Module,
    pub inputs: Outs,
}

/// A library that answers as another one does and keeps its runs in their order, those included in which memory ran
/// out within the other library.
#[derive(Drop)]
pub struct Recorder<L> {
    alloc: Global,
    inner: L,
    runs: Vec<Run>,
}

impl<L> Model for Recorder<L> {
    ghost use Rattle.std.specs.Prelude.{List};
    ghost use Rattle.std.specs.Coded.{coded×, coded_list, coded_option};
    ghost use Rattle.dx_base.specs.ObjectCode.{coded_tree};
    ghost use Rattle.dx_base.specs.contracts.function.Module as modules;
    ghost use Rattle.dx_objects.specs.Runs.{Ran, all_ran};

    ghost Value = { List Ran };

    ghost coded = { coded_list (coded× modules.the_row.coded (coded_list (coded_option coded_tree))) };

    ghost view = { λ r. all_ran r.runs.items };
}

impl<L: Library> Recorder<L> {
    /// No runs yet, which takes no memory.
    pub fn new(alloc: Global, inner: L) -> Recorder<L>
        ensures { result ≡ [] }
    {
        Recorder {
            alloc,
            inner,
            runs: Vec::new(alloc),
        }
    }

    /// The runs in their order.
    pub fn runs(&self) -> &[Run]
        ensures { all_ran result.now ≡ self.now }
    {
        self.runs.as_slice()
    }

    // Where memory runs out the runs stay as they were.
    fn keep(&mut self, module: Module, inputs: &Outs) -> Result<(), AllocError>
        ensures ok { OnOk result (self.new ≡ self.old ++ («module», inputs.now) ∷ []) }
        ensures err { OnErr result (self.new ≡ self.old) }
    {
        let inputs = inputs.copy(self.alloc)?;
        self.runs.push(Run { module, inputs })?;
        Ok(())
    }
}

impl<L: Library> Library for Recorder<L> {
    ghost use Rattle.std.specs.Prelude.{Some};

    ghost answer = { L.answer };

    ghost done = { λ r. Some r };

    ghost few_results = { L.few_results };

    // The run is kept before the other library is called, so that no answer of it is lost for want of memory.
    fn run(
        &mut self,
        alloc: Global,
        module: Module,
        inputs: &Outs,
        file: Option<&Bytes>,
    ) -> Result<Outs, RunFail> {
        self.keep(module, inputs)?;
        self.inner.run(alloc, module, inputs, file)
    }
}
