//! The expression, which is the first input.
ghost use Rattle.std.specs.Prelude.{◌≡◌, true, None, Some, IfOk, MatchOption};
ghost use Rattle.dx_base.specs.Answers.{Answers};
ghost use Rattle.dx_objects.specs.Values.{value_at};
ghost use Rattle.dx_expr_bounds.specs.Bounds.{is_bounded};
ghost use Rattle.dx_compute_meaning.specs.Expressions.{text_in as spec_text_in, expression_in as spec_expression_in, or_bad, parsed};
ghost use Rattle.dx_compute_meaning.specs.Shown.{code_in};

use dx_base::Code;
use dx_expr::{ExprFail, Expression, parse_expr};
use dx_objects::{Outs, RunFail};
use std::alloc::Global;

fn text_in(inputs: &Outs) -> Option<&[u8]>
    ensures { MatchOption result (spec_text_in (value_at inputs.now 0) ≡ None) (λ text. spec_text_in (value_at inputs.now 0) ≡ Some text.now) }
{
    match inputs.value(0) {
        None => None,
        Some(object) => object.as_text(),
    }
}

fn expression_of(alloc: Global, text: &[u8]) -> Result<Expression, RunFail>
    ensures answer { Answers code_in (or_bad (parsed text.now)) result }
    ensures bounded { IfOk result (λ e. is_bounded e ≡ true) }
{
    match parse_expr(alloc, text) {
        Ok(e) => Ok(e),
        Err(ExprFail::Refused(at)) => Err(RunFail::Code(Code::BadExpression(at))),
        Err(ExprFail::Memory) => Err(RunFail::Memory),
    }
}

/// The expression that the first input is. It needs to be a text, which is BadArgument otherwise, and of a text that is
/// no expression BadExpression tells where it first goes wrong.
pub(crate) fn expression_in(alloc: Global, inputs: &Outs) -> Result<Expression, RunFail>
    ensures answer { Answers code_in (spec_expression_in (value_at inputs.now 0)) result }
    ensures bounded { IfOk result (λ e. is_bounded e ≡ true) }
{
    match text_in(inputs) {
        None => Err(RunFail::Code(Code::BadArgument)),
        Some(text) => expression_of(alloc, text),
    }
}
