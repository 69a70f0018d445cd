//! The bytes of a written file.
ghost use Rattle.std.specs.Prelude.{◌≡◌, IfOk};
ghost use Rattle.dx_tags.specs.Digest.{digest};

use dx_base::Bytes;
use std::alloc::{AllocError, Global};
use std::hash::{Hash, Hasher};
use std::marker::Model;
use std::rc::Rc;

/// The bytes of a written file, which stand in many places at once and which contracts see as the list of bytes. Two are
/// equal where their bytes are. One number over all bytes is kept beside them: hashes take it, and bytes are compared only
/// where it is the same.
#[derive(Debug, Drop)]
pub struct Content {
    bytes: Rc<Bytes>,
    number: u64,
}

impl Model for Content {
    ghost use Rattle.std.specs.Prelude.{◌≡◌, List, ℕ};
    ghost use Rattle.dx_tags.specs.Digest.{digest};

    ghost Value = { List ℕ };

    ghost view = { λ c. c.bytes.value };

    ghost invariant = { λ c. c.number ≡ digest c.bytes.value };
}

impl Content {
    /// These bytes, which are moved in.
    pub fn new(alloc: Global, bytes: Bytes) -> Result<Content, AllocError>
        ensures { IfOk result (λ c. c ≡ bytes) }
    {
        let number = number_over(bytes.bytes());
        Ok(Content {
            bytes: Rc::new(alloc, bytes)?,
            number,
        })
    }

    /// The same bytes in the same memory.
    pub fn share(&self) -> Result<Content, AllocError>
        ensures { IfOk result (λ copy. copy ≡ self.now) }
    {
        Ok(Content {
            bytes: self.bytes.clone()?,
            number: self.number,
        })
    }

    /// The bytes as they stand, in the memory that all share.
    pub fn whole(&self) -> &Bytes
        ensures { result.now ≡ self.now }
    {
        &self.bytes
    }

    /// The bytes, one by one.
    pub fn bytes(&self) -> &[u8]
        ensures { result.now ≡ self.now }
    {
        self.bytes.bytes()
    }
}

impl PartialEq for Content {
    ghost use Rattle.std.specs.Prelude.{nat_eq};
    ghost use Rattle.std.specs.Cmp.Lexicographic.{pointwise};
    ghost use Rattle.std.specs.Cmp.Rules.{comparing};
    ghost use Rattle.std.proofs.Common.{rules};

    ghost eq = { pointwise nat_eq };

    ghost laws = { Prim.search (comparing, rules) };

    #[tactic(auto, using(crate::proofs::Digests::different))]
    fn eq(&self, other: &Content) -> bool {
        self.number == other.number && self.bytes() == other.bytes()
    }
}

impl Eq for Content {
    ghost use Rattle.std.specs.Cmp.Rules.{comparing};
    ghost use Rattle.std.proofs.Common.{rules};

    ghost laws = { Prim.search (comparing, rules) };
}

impl Hash for Content {
    ghost use Rattle.dx_tags.specs.Digest.{digested, digested_alike};

    ghost hash_input = { digested };

    ghost respects_eq = { digested_alike };

    fn hash<H: Hasher>(&self, state: &mut H) {
        self.bytes().len().hash(state);
        self.number.hash(state);
    }
}

// One number over all bytes.
#[tactic(auto, unfolding(crate::specs::Digest::digest))]
fn number_over(bytes: &[u8]) -> u64
    ensures { result ≡ digest bytes.now }
{
    let mut number: u64 = 0xcbf2_9ce4_8422_2325;
    for b in bytes {
        number = number
            .wrapping_mul(0x100_0000_01b3)
            .wrapping_add(u64::from(*b));
    }
    number
}
