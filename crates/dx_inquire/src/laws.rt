//! Laws of the definitions, each as a function that does nothing and ensures it.
ghost use Rattle.dx_inquire.specs.Inquire.{inquire_answer};
ghost use Rattle.dx_steps.specs.Steps.{MakesSteps};

/// All origins and deltas of the result are ints, whatever the inputs are.
pub fn steps_law()
    ensures { MakesSteps inquire_answer }
{}
