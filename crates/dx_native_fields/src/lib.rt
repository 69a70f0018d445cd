//! Whether the fields that a native file's object holds are without a fault. Each clause is looked at once, however many
//! refer to it.
#![tactic(auto)]

mod marks;
mod walk;

pub use walk::has_good_fields;
