//! The law that the bound on macro steps is no part of what a statement without a fault means.
ghost use Rattle.dx_ast.specs.Syntax.{Stmt};
ghost use Rattle.dx_ast.specs.declared.sequencing.Frames.{Frames};
ghost use Rattle.dx_macros.specs.Dictionary.{Dictionary};
ghost use Rattle.dx_macros.specs.Budget.{BudgetSuffices};

/// Where a statement has no static fault, its effects are the same however many more macro steps are allowed: every tree
/// of calls is finite, and nothing in it stands for a step that was missing.
pub fn no_budget_runs_out()
    ensures { (d : Dictionary) (frames : Frames) (s : Stmt) → BudgetSuffices d frames s }
{}
