//! The tags of the ints that were named last.
ghost use Rattle.std.specs.Prelude.{◌<◌};

use crate::term::{Tag, Term};
use dx_ast::Const;
use std::alloc::Global;

/// No tag: that of a term which never comes.
const NO_TAG: Tag = 18_446_744_073_709_551_615;

/// For each last byte of an int without its sign the tag of the one that was named last.
#[derive(Drop)]
pub(crate) struct Ints {
    tags: Vec<Tag>,
}

/// The int that a term is.
pub(crate) fn int_in(t: &Term) -> Option<i32> {
    match t {
        Term::Constant(Const::Int(n)) => Some(*n),
        _ => None,
    }
}

// The last byte of the number without its sign.
fn place_of(n: i32) -> usize
    ensures { result < 256 }
{
    (n.unsigned_abs() % 256) as usize
}

impl Ints {
    /// No tags, which take no memory.
    pub(crate) fn new(alloc: Global) -> Ints {
        Ints {
            tags: Vec::new(alloc),
        }
    }

    /// The tag of the int that was named last of those with its last byte, alone.
    pub(crate) fn like(&self, n: i32) -> &[Tag] {
        let place = place_of(n);
        match self.tags.get(place..place + 1) {
            Some(tag) => tag,
            None => &[],
        }
    }

    /// An int was named by this tag.
    pub(crate) fn put(&mut self, n: i32, tag: Tag) {
        let place = place_of(n);
        for _ in self.tags.len()..place + 1 {
            match self.tags.push(NO_TAG) {
                Ok(()) => {}
                Err(_) => return,
            }
        }
        if let Some(last) = self.tags.get_mut(place) {
            *last = tag;
        }
    }
}
