//! Origins and deltas that are ints: what keeping to them is of values and of modules, with lemmas. No code stands here.
#![tactic(auto)]
