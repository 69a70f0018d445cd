//! The files that a session has written: a list in the order of the names, which is searched by halving.

ghost use Rattle.std.specs.Prelude.{◌≡◌, ◌<◌, ◌≤◌, ◌+◌, [], None, Some, length, MatchOption, OnOk};
ghost use Rattle.std.specs.List.Sorted.{IsBinarySearchResult, IsSearchInRange};
ghost use Rattle.dx_tags.specs.Files.{content_of, file_put, name_cmp};

use crate::content::Content;
use dx_base::Bytes;
use std::alloc::{AllocError, Global};
use std::cmp::Ordering;
use std::marker::Model;

/// What a session has written. Contracts see a finite map that takes a name to its bytes, and the room for more names.
#[derive(Drop)]
pub struct Written {
    files: Vec<(Bytes, Content)>,
}

impl Model for Written {
    ghost use Rattle.std.specs.Prelude.{◌-◌, vec_len, vec_capacity};
    ghost use Rattle.std.specs.Map.{keys_of};
    ghost use Rattle.std.specs.List.Sorted.{IsStrictlySortedBy};
    ghost use Rattle.dx_tags.specs.Files.{Files, coded_files, name_cmp};

    ghost Value = { Files };

    ghost coded = { coded_files };

    ghost view = { λ w. record { files = w.files.items; room = vec_capacity w.files - vec_len w.files } };

    ghost invariant = { λ w. IsStrictlySortedBy name_cmp (keys_of w.files.items) };
}

impl Written {
    /// No files, which takes no memory.
    pub fn new(alloc: Global) -> Written
        ensures { result.files ≡ [] }
    {
        Written {
            files: Vec::new(alloc),
        }
    }

    /// The bytes that were put last under a name; None exactly where none were.
    pub fn get(&self, name: &[u8]) -> Option<&Content>
        ensures { MatchOption result (content_of name.now self.now.files ≡ None) (λ c. content_of name.now self.now.files ≡ Some c.now) }
    {
        match place_of(&self.files, name) {
            Ok(i) => Some(&self.files[i].1),
            Err(_) => None,
        }
    }

    /// Room for so many more names. Where memory runs out the files stay.
    pub fn reserve(&mut self, names: usize) -> Result<(), AllocError>
        ensures files { self.new.files ≡ self.old.files }
        ensures room { OnOk result (names ≤ self.new.room) }
        ensures kept { self.old.room ≤ self.new.room }
    {
        self.files.reserve(names)
    }

    /// Puts bytes under a name, in the place of those that were there. This takes no memory.
    pub fn put(&mut self, name: Bytes, content: Content)
        requires room { 0 < self.old.room }
        ensures files { self.new.files ≡ file_put self.old.files name content }
        ensures room { self.old.room ≤ self.new.room + 1 }
    {
        match place_of(&self.files, name.bytes()) {
            Ok(i) => self.files[i].1 = content,
            Err(i) => match self.files.insert(i, (name, content)) {
                Ok(()) => {}
                Err(_) => unreachable!(),
            },
        }
    }
}

// The place of a name, or the place before which it would stand.
fn place_of(files: &[(Bytes, Content)], name: &[u8]) -> Result<usize, usize>
    ensures place { IsBinarySearchResult (λ file. name_cmp file.0 name.now) files.now result }
    ensures range { IsSearchInRange result (length files.now) }
{
    files.binary_search_by(
        |file: &(Bytes, Content)| -> Ordering
            ensures { result ≡ name_cmp file.now.0 name.entry.now }
        { file.0.bytes().cmp(name) },
    )
}
