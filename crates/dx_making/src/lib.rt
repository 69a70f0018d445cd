//! An execution of a statement, over what is kept: a static fault ends it before its first effect.
#![tactic(auto)]

mod end;
mod failing;
mod making;

pub use end::End;
pub use failing::Failing;
pub use making::make;
