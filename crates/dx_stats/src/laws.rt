//! Laws of the definitions, each as a function that does nothing and ensures it.
ghost use Rattle.dx_stats.specs.Histogram.{histogram_answer};
ghost use Rattle.dx_stats.specs.Laws.{SumsOfArraysFit, SumsOfNumbersFit};
ghost use Rattle.dx_stats.specs.Statistics.{statistics_answer};
ghost use Rattle.dx_steps.specs.Steps.{MakesSteps};

/// 128 bits are enough for Statistics: of as many numbers as an array may have values, each of which some type of values
/// holds, the sum, the sum of the squares, and the products and the difference that the variance takes of them. Since each
/// front of a list is a list, they are enough at each number of a pass too.
pub fn sums_law()
    ensures numbers { SumsOfNumbersFit }
    ensures arrays { SumsOfArraysFit }
{}

/// All origins and deltas of the results of the modules are ints, whatever the inputs are.
pub fn steps_law()
    ensures statistics { MakesSteps statistics_answer }
    ensures histogram { MakesSteps histogram_answer }
{}
