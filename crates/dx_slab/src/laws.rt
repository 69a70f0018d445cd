//! Laws of the definitions, each as a function that does nothing and ensures it.
ghost use Rattle.dx_slab.specs.Answer.{slab_answer};
ghost use Rattle.dx_slab.specs.Laws.{GivesGrid};
ghost use Rattle.dx_steps.specs.Steps.{KeepsStepsOfValues};

/// From inputs that can be made, of which all origins and deltas are ints, the module makes such results.
pub fn steps_law()
    ensures { KeepsStepsOfValues slab_answer }
{}

/// A slab of a field that is a regular grid is a regular grid with the slab's counts of points.
pub fn grid_law()
    ensures { GivesGrid }
{}
