//! Laws of the definitions, each as a function that does nothing and ensures it.
ghost use Rattle.dx_select.specs.Collect.{collect_answer, collect_named_answer, collect_series_answer};
ghost use Rattle.dx_select.specs.Extract.{extract_answer};
ghost use Rattle.dx_select.specs.Mark.{mark_answer, unmark_answer};
ghost use Rattle.dx_select.specs.Replace.{replace_answer};
ghost use Rattle.dx_select.specs.Select.{select_answer};
ghost use Rattle.dx_steps.specs.Steps.{KeepsSteps};

/// From inputs of which all origins and deltas are ints the modules make such results.
pub fn steps_law()
    ensures select { KeepsSteps select_answer }
    ensures extract { KeepsSteps extract_answer }
    ensures replace { KeepsSteps replace_answer }
    ensures mark { KeepsSteps mark_answer }
    ensures unmark { KeepsSteps unmark_answer }
    ensures collect { KeepsSteps collect_answer }
    ensures collect_named { KeepsSteps collect_named_answer }
    ensures collect_series { KeepsSteps collect_series_answer }
{}
