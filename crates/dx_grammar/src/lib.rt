//! A theory of grammars that are read from the left with one token in hand: what a rule is, what a text is by a rule
//! and where it first goes wrong, how a parser reads, and one law for each way to make a rule. It has definitions and
//! laws alone, generic in the token and the fault; the parsers of scripts and of expressions stand on it.
#![tactic(auto)]
