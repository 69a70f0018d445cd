//! How many calls a statement makes, with the macros that it enters and the definitions that it reads; and that the walk counts each of
//! them, so that they are at most as many as a walk may come by.
#![tactic(auto)]

ghost use Rattle.dx_counting.specs.Counting.{CountsAll};

/// A walk without a fault has counted the calls of the statement's text and of each definition that it reads, each once.
pub fn walks_count_all()
    ensures { CountsAll }
{}
