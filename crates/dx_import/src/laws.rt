//! Laws of the definitions, each as a function that does nothing and ensures it.
ghost use Rattle.std.specs.Prelude.{ℕ, List, Option};
ghost use Rattle.dx_import.specs.Import.{import_answer};
ghost use Rattle.dx_steps.specs.Steps.{MakesSteps};

/// All origins and deltas of the result are ints, whatever the inputs and the file are.
pub fn steps_law()
    ensures { (file : Option (List ℕ)) → MakesSteps (λ inputs. import_answer inputs file) }
{}
