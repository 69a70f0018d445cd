//! The sequencer: which frame comes next, and how far a play goes.
#![tactic(auto)]

mod sequencer;

pub use sequencer::{FrameRange, Sequencer, Step};
