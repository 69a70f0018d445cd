//! The dictionary of macros and definitions, what the names of a script mean, and the first static fault of a statement.
#![tactic(auto)]

mod budget;
mod callee;
mod check;
mod dictionary;
mod fault;
mod jobs;
mod machine;
mod pushing;
mod site;

pub use budget::no_budget_runs_out;
pub use callee::called;
pub use dictionary::Dictionary;
pub use dx_signatures::{Callee, StaticFault};
pub use fault::CheckFail;
pub use jobs::MAX_STEPS;
pub use pushing::put;
pub use site::{SiteStep, site_text};
