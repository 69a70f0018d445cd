//! Getting the values of terms: over the cache, the links, the held values and the calls that are known, by a stack of
//! calls in work.
#![tactic(auto)]

mod all;
mod bound;
mod emptying;
mod event;
mod fail;
mod file;
mod keep;
mod known;
mod run;
mod scene;
mod size;
mod stack;
mod value;
mod work;
mod working;

pub use all::get_all;
pub use bound::Bound;
pub use emptying::empty;
pub use event::Event;
pub use fail::GetFail;
pub use known::Known;
pub use scene::{Called, Scene, Sites};
pub use stack::get_value;
pub use work::Work;
