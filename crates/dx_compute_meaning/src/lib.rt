//! What Compute answers, in definitions, and what follows from them: no code stands here.
#![tactic(auto)]

ghost use Rattle.std.specs.Prelude.{◌≡◌, ℕ, List, Ok, Err};
ghost use Rattle.dx_grammar.specs.FirstError.{IsText, FirstError};
ghost use Rattle.dx_expr_grammar.specs.declared.tree.Expression.{Expression};
ghost use Rattle.dx_expr_grammar.specs.Grammar.{expression};
ghost use Rattle.dx_expr_grammar.specs.Tokens.{tokens_of};
ghost use Rattle.dx_expr_grammar.specs.Words.{misfit};
ghost use Rattle.dx_compute_meaning.specs.Expressions.{parsed};

/// A text is read as the expression that the grammar derives from all of its tokens, and it is refused at its first error by the
/// grammar: each both ways.
pub fn expression_law()
    ensures derived { (text : List ℕ) (e : Expression) → parsed text ≡ Ok e → IsText expression (tokens_of text) e }
    ensures read { (text : List ℕ) (e : Expression) → IsText expression (tokens_of text) e → parsed text ≡ Ok e }
    ensures first_error { (text : List ℕ) (at : ℕ) → parsed text ≡ Err at → FirstError misfit expression (tokens_of text) at }
    ensures refused { (text : List ℕ) (at : ℕ) → FirstError misfit expression (tokens_of text) at → parsed text ≡ Err at }
{}
