//! Lists of elements and ranges while they are read, which grow in vectors and are shared once.
#![tactic(auto)]

mod lists;

pub use lists::{
    Element, Growing, Numbers, agrees, into_const, ints_const, join, list_of, one, one_of, range,
    range_count, text_const, vector_const,
};
