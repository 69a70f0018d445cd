//! Parts of objects: members that are selected, components that are extracted, replaced and marked, and groups and series
//! of given objects. Parts are shared and never copied.
#![tactic(auto)]

mod collect;
mod extract;
mod inputs;
mod laws;
mod mark;
mod replace;
mod results;
mod select;

pub use collect::{run_collect, run_collect_named, run_collect_series};
pub use dx_objects::{Code, Outs, RunFail};
pub use extract::run_extract;
pub use laws::steps_law;
pub use mark::{run_mark, run_unmark};
pub use replace::run_replace;
pub use select::run_select;
