//! The texts of Print and Echo: headers of values, items of arrays line by line, and words on a line.
#![tactic(auto)]

mod detail;
mod echo;
mod errors;
mod header;
mod item_lines;
mod lines;
mod parts;
mod print;

pub use dx_base::{Bytes, Code};
pub use dx_objects::{Outs, RunFail};
pub use echo::echo_text;
pub use errors::{push_code, push_error_line};
pub use lines::{LinkName, Traced, push_link_line, push_links_line, push_trace_line};
pub use print::print_text;
