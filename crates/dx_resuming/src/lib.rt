//! What looking that is broken off and begun anew rests on, as laws: what was formed first stays, links are asked for their terms
//! alone, looking ends where it did, and each call that getting can reach was formed.
#![tactic(auto)]

mod laws;

pub use laws::{closed_covers, first_calls_stay, formed_same, halts_alike, links_alike};
