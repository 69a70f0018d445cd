//! An entry of the cache.

use dx_base::Bytes;
use dx_objects::Outs;

/// The results of a call by the tag of its term, with the call's site, its cache attribute and the results' stated size.
#[derive(Drop)]
pub struct Entry {
    pub tag: u64,
    pub site: Bytes,
    pub attribute: u8,
    pub size: u64,
    pub outs: Outs,
}
