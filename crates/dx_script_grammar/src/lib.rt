//! How the parser of scripts reads, with one token in hand: a reading function for each rule of the grammar, which
//! dx_script_laws proves to read that rule and dx_parser runs.
#![tactic(auto)]
