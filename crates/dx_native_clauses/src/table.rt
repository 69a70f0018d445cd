//! The clauses of a file, whose names differ, with a table of the names.

ghost use Rattle.std.specs.Prelude.{◌≡◌, ◌∷◌, ◌++◌, [], IfOk, false, position, bytes_eq};
ghost use Rattle.dx_native_grammar.specs.Names.{has_clause, clause_names};

use dx_base::{Bytes, Items};
use dx_native_grammar::Clause;
use dx_native_lex::Named;
use dx_native_listing::NameSet;
use std::alloc::{AllocError, Global};
use std::marker::Model;

/// Clauses whose names differ.
#[derive(Drop)]
pub struct ClauseTable {
    pub(crate) items: Items<Clause>,
    pub(crate) names: NameSet,
}

impl Model for ClauseTable {
    ghost use Rattle.std.specs.Prelude.{◌≡◌, List};
    ghost use Rattle.dx_native_grammar.specs.Names.{clause_names};
    ghost use Rattle.dx_native_grammar.specs.declared.clause.Clause.{Clause as Plain};

    ghost Value = { List Plain };

    ghost view = { λ p. p.items };

    ghost invariant = { λ p. p.names ≡ clause_names p.items };
}

/// The clauses of a file so far, and its last `default`.
#[derive(Drop)]
pub struct FileClauses {
    pub clauses: ClauseTable,
    pub default: Option<Named>,
}

impl Model for FileClauses {
    ghost use Rattle.dx_native_grammar.specs.Grammar.{File};

    ghost Value = { File };

    ghost view = { λ f. record { clauses = f.clauses; default = f.default } };
}

impl ClauseTable {
    pub fn new(alloc: Global) -> ClauseTable
        ensures { result ≡ [] }
    {
        ClauseTable {
            items: Items::new(alloc),
            names: NameSet::new(alloc),
        }
    }

    /// Whether a clause has this name.
    pub fn has(&self, name: &Bytes) -> bool
        ensures { result ≡ has_clause name.now self.now }
    {
        self.names.has(name)
    }

    /// The place of the clause of this name.
    pub fn place(&self, name: &Bytes) -> Option<usize>
        ensures { result ≡ position (bytes_eq name.now) (clause_names self.now) }
    {
        self.names.place(name)
    }

    /// A further clause joins, whose name no other has.
    #[tactic(auto, using(crate::proofs::ClauseNames::clause_names_push))]
    pub fn with(self, alloc: Global, clause: Clause) -> Result<ClauseTable, AllocError>
        requires { has_clause clause.name.text self ≡ false }
        ensures { IfOk result (λ table. table ≡ self ++ clause ∷ []) }
    {
        let ClauseTable {
            mut items,
            mut names,
        } = self;
        names.add(Bytes::copy_of(alloc, clause.name.text.bytes())?)?;
        items.push(clause)?;
        Ok(ClauseTable { items, names })
    }

    pub fn as_slice(&self) -> &[Clause]
        ensures { result.now ≡ self.now }
    {
        self.items.as_slice()
    }
}
