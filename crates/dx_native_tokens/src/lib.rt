//! The laws of the tokens of native files: what stands between them, what they are, and how a line ends before raw data.
#![tactic(auto)]

mod laws;

pub use laws::{gap_law, line_law, number_law, string_law, text_law, token_law};
