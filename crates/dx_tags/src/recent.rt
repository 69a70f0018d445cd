//! The tags of the constants whose objects were made last.
use crate::term::Tag;
use std::alloc::Global;

/// The last tags that were put, no more than so many.
#[derive(Drop)]
pub(crate) struct Recent {
    tags: Vec<Tag>,
    most: usize,
    // The place of the oldest, where there are as many as there may be.
    oldest: usize,
}

impl Recent {
    /// No tags, and how many there may be. This takes no memory.
    pub(crate) fn new(alloc: Global, most: usize) -> Recent {
        Recent {
            tags: Vec::new(alloc),
            most,
            oldest: 0,
        }
    }

    /// The tags, in no order.
    pub(crate) fn tags(&self) -> &[Tag] {
        self.tags.as_slice()
    }

    /// Puts a tag, and hands back the oldest, whose place it takes where there are as many as there may be.
    pub(crate) fn put(&mut self, tag: Tag) -> Option<Tag> {
        if self.tags.len() < self.most {
            match self.tags.push(tag) {
                Ok(()) => {}
                Err(_) => {}
            }
            return None;
        }
        match self.tags.get_mut(self.oldest) {
            None => None,
            Some(place) => {
                let oldest = *place;
                *place = tag;
                self.oldest = behind(self.oldest, self.most);
                Some(oldest)
            }
        }
    }
}

// The place behind one of so many, the first behind the last.
fn behind(place: usize, count: usize) -> usize {
    if place < count && place + 1 < count {
        place + 1
    } else {
        0
    }
}
