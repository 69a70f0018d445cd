//! What a loading has so far.

use dx_ast::Stmts;

/// What is loaded so far: the statements, and how many bytes their texts have.
#[derive(Debug, Drop)]
pub struct Loaded {
    pub statements: Stmts,
    pub bytes: usize,
}
