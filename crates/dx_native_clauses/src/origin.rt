//! The clauses that outlines were made of. They stand in proofs alone, and take no memory.

ghost use Rattle.std.specs.Prelude.{◌≡◌, List};
ghost use Rattle.std.specs.Borrow.{ftrue};
ghost use Rattle.dx_native_grammar.specs.declared.clause.Clause.{Clause as Plain};

use crate::table::ClauseTable;
use std::marker::Model;

/// The clauses of a table as they were when it was shown.
#[derive(Drop)]
pub(crate) struct Origin {
    ghost clauses: { List Plain },
}

impl Model for Origin {
    ghost also_owns = { λ _. ftrue };
}

impl Origin {
    pub(crate) fn of(_table: &ClauseTable) -> Origin
        ensures { result.clauses ≡ _table.now }
    {
        Origin {}
    }
}
