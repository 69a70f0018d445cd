//! Which inputs occur in an expression.
ghost use Rattle.std.specs.Prelude.{◌≡◌, map};
ghost use Rattle.dx_expr.specs.Uses as spec;

use dx_expr_grammar::Expression;

/// Whether an input occurs in one of these.
#[cycle(uses)]
fn any_uses(parts: &[Expression], k: u8) -> bool
    ensures { result ≡ spec.any_of (map (spec.uses k) parts.now) }
{
    for part in parts {
        if uses_input(part, k) {
            return true;
        }
    }
    false
}

/// Whether the input `k` occurs in an expression.
#[cycle(uses)]
#[tactic(auto, using(crate::proofs::Equations::uses_by_parts))]
pub fn uses_input(e: &Expression, k: u8) -> bool
    ensures { result ≡ spec.uses k e.now }
{
    match e {
        Expression::Number(_) => false,
        Expression::Input(j) => *j == k,
        Expression::Unary(_, a) => uses_input(a.get(), k),
        Expression::Binary(_, a, b) => uses_input(a.get(), k) || uses_input(b.get(), k),
        Expression::Choice(condition, a, b) => {
            uses_input(condition.get(), k) || uses_input(a.get(), k) || uses_input(b.get(), k)
        }
        Expression::Part(a, _) => uses_input(a.get(), k),
        Expression::Vector(parts) => any_uses(parts.as_slice(), k),
    }
}
