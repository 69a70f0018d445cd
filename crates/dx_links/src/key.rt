//! The keys of links.
ghost use Rattle.std.specs.Prelude.{◌≡◌, IfOk};

use dx_base::Bytes;
use std::alloc::{AllocError, Global};

/// What a link is kept under. Global keys stand before local ones; global keys by their names, and local ones by their
/// paths and then by their names, byte by byte.
#[derive(Debug, PartialEq, Eq, PartialOrd, Ord, Drop)]
pub enum Key {
    /// The name.
    Global(Bytes),
    /// The path of the macro's use, and the name.
    Local(Bytes, Bytes),
}

impl Key {
    /// The same key in memory of its own.
    pub fn copy_of(alloc: Global, key: &Key) -> Result<Key, AllocError>
        ensures { IfOk result (λ copy. copy ≡ key.now) }
    {
        Ok(match key {
            Key::Global(name) => Key::Global(Bytes::copy_of(alloc, name.bytes())?),
            Key::Local(path, name) => Key::Local(
                Bytes::copy_of(alloc, path.bytes())?,
                Bytes::copy_of(alloc, name.bytes())?,
            ),
        })
    }
}
