//! The arguments of effects: looked at in order for control, and then got in order for data.
#![tactic(auto)]

mod came;
mod effect;
mod looked;
mod looking_all;
mod values;

pub use came::Arguments;
pub use effect::arguments_of;
pub use looked::AllLooked;
pub use looking_all::look_all;
