//! What an effect does.

use dx_base::{Bytes, Code};
use dx_links::Change;
use dx_objects::Object;
use std::rc::Rc;

/// What an effect does: it prints a text, puts an object under a name, sets what a key of links holds, or is passed over; or the
/// execution ends at it, with an error of the call that a node is.
#[derive(Drop)]
pub enum Done {
    Prints(Bytes),
    Puts(Bytes, Rc<Object>),
    Sets(Change),
    PassedOver,
    Ends(u32, Code),
}
