//! What a call of a script means: what it comes to, which runs of modules that demands, and which term its value has.
#![tactic(auto)]

mod laws;

pub use laws::{examples_compute, forms_once, forms_stay, scans_stay, terms_are_right};
