//! The statements of a session over what is kept: what each of them shows, and what is kept from one to the next.
#![tactic(auto)]

mod assigning;
mod ended;
mod executing;
mod laws;
mod performing;
mod sequencing;
mod session;
mod setting;
mod statement;

pub use dx_making::End;
pub use dx_telling::Listings;
pub use laws::cuts_leave_fronts;
pub use performing::perform;
pub use session::Session;
