//! Laws of what the clauses of a native file mean: as many levels as an object has are enough to find it, and fewer are
//! not.
#![tactic(auto)]
