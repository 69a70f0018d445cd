//! Laws of what the grammar of native files lets stand: names that differ, components and members that are named as their
//! class wants it, and origins and deltas that are ints.
#![tactic(auto)]
