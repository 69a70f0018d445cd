//! What the grammar bounds in a tree: the numbers of inputs and of parts, and how many parts a vector has.
#![tactic(auto)]
