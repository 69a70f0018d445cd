//! Laws of what Compute answers: no code stands here.
#![tactic(auto)]
