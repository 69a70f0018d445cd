//! Lists of calls, and of files in memory.
ghost use Rattle.std.specs.Prelude.{◌≡◌, ◌↔◌, Contains, IfOk, IsTrue};
ghost use Rattle.dx_io.specs.Named.{map_of};

use dx_base::Bytes;
use std::alloc::{AllocError, Global};
use std::marker::Model;

/// The numbers of calls, the first call being 1.
#[derive(Drop)]
pub struct CallNumbers {
    numbers: Vec<u64>,
}

impl Model for CallNumbers {
    ghost use Rattle.std.specs.Prelude.{List, ℕ};

    ghost Value = { List ℕ };

    ghost view = { λ c. c.numbers.items };
}

impl CallNumbers {
    /// These numbers, which are moved in.
    pub fn from_vec(numbers: Vec<u64>) -> CallNumbers
        ensures { result ≡ numbers.items }
    {
        CallNumbers { numbers }
    }

    pub fn contains(&self, call: u64) -> bool
        ensures { IsTrue result ↔ Contains self.now call }
    {
        self.numbers.contains(&call)
    }
}

/// Files in memory: pairs of a name and a content. Where two have one name, the first counts.
#[derive(Drop)]
pub struct NamedBytes {
    pairs: Vec<(Bytes, Bytes)>,
}

impl Model for NamedBytes {
    ghost use Rattle.std.specs.Prelude.{List, ℕ};

    ghost Value = { List (List ℕ × List ℕ) };

    ghost view = { λ n. n.pairs.items };
}

impl NamedBytes {
    /// These pairs, which are moved in.
    pub fn from_vec(pairs: Vec<(Bytes, Bytes)>) -> NamedBytes
        ensures { result ≡ pairs.items }
    {
        NamedBytes { pairs }
    }

    /// A copy of the content under a name, or nothing where no file has it.
    pub fn find(&self, alloc: Global, name: &Bytes) -> Result<Option<Bytes>, AllocError>
        ensures { IfOk result (λ found. found ≡ map_of self.now name.now) }
    {
        match self.pairs.iter().find(|f| f.0.bytes() == name.bytes()) {
            Some(file) => Ok(Some(Bytes::copy_of(alloc, file.1.bytes())?)),
            None => Ok(None),
        }
    }
}
