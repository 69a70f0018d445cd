//! The laws of Compute's grammar: the reading of expressions reads the grammar, exactly and to the first error. It has
//! proofs alone; the parser stands on it.
#![tactic(auto)]
