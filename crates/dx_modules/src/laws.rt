//! Laws of the definitions, each as a function that does nothing and ensures it.
ghost use Rattle.dx_modules.specs.Steps.{ModulesKeepSteps};

/// From inputs that can be made, of which all origins and deltas are ints, each module makes such results, whatever file it
/// is given.
pub fn steps_law()
    ensures { ModulesKeepSteps }
{}
