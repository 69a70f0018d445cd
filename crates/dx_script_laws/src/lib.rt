//! The laws of the script's grammar: each reading function reads its rule, what the loops of the parser do in a turn,
//! and the theorem on whole texts, their statements and their first errors.
#![tactic(auto)]

ghost use Rattle.std.specs.Prelude.{◌≡◌, ℕ, List};
ghost use Rattle.dx_base.specs.declared.token.SyntaxError.{SyntaxError};
ghost use Rattle.dx_ast.specs.declared.statements.Stmt.{Stmt};
ghost use Rattle.dx_ast.specs.Script.{IsScript, IsFirstError};
ghost use Rattle.dx_script_laws.specs.Meaning.{HasMeaning};

/// Each text has one script or one first error, and never both.
pub fn one_script()
    ensures some { (text : List ℕ) → HasMeaning text }
    ensures script { (text : List ℕ) (a b : List Stmt) → IsScript text a → IsScript text b → a ≡ b }
    ensures error { (text : List ℕ) (f g : SyntaxError) → IsFirstError text f → IsFirstError text g → f ≡ g }
    ensures never_both { (text : List ℕ) (a : List Stmt) (f : SyntaxError) → IsScript text a → IsFirstError text f → ⊥ }
{}
