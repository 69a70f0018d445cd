//! The buffers of a run, which are made once and used again.

ghost use Rattle.std.specs.Prelude.{◌≡◌, IfOk, length, replicate};

use std::alloc::{AllocError, Global};

/// Buffers that are free.
#[derive(Drop)]
pub struct Spare {
    values: Vec<Vec<i32>>,
    items: Vec<Vec<usize>>,
}

impl Spare {
    pub fn new(alloc: Global) -> Spare {
        Spare {
            values: Vec::new(alloc),
            items: Vec::new(alloc),
        }
    }

    /// A buffer with a value so many times.
    pub fn values(
        &mut self,
        alloc: Global,
        count: usize,
        value: i32,
    ) -> Result<Vec<i32>, AllocError>
        ensures { IfOk result (λ found. found.items ≡ replicate count value) }
    {
        let mut found = match self.values.pop() {
            Some(buffer) => buffer,
            None => Vec::new(alloc),
        };
        found.clear();
        found.resize(count, value)?;
        Ok(found)
    }

    /// A buffer with room for so many values, whatever stands in it: where it was as long before, nothing is cleared.
    pub(crate) fn room(&mut self, alloc: Global, count: usize) -> Result<Vec<i32>, AllocError>
        ensures { IfOk result (λ found. length found.items ≡ count) }
    {
        let mut found = match self.values.pop() {
            Some(buffer) => buffer,
            None => Vec::new(alloc),
        };
        found.resize(count, 0)?;
        Ok(found)
    }

    /// A buffer with an item number so many times.
    pub(crate) fn items(&mut self, alloc: Global, count: usize) -> Result<Vec<usize>, AllocError>
        ensures { IfOk result (λ found. found.items ≡ replicate count 0) }
    {
        let mut found = match self.items.pop() {
            Some(buffer) => buffer,
            None => Vec::new(alloc),
        };
        found.clear();
        found.resize(count, 0)?;
        Ok(found)
    }

    /// A buffer is free again.
    pub fn keep_values(&mut self, buffer: Vec<i32>) -> Result<(), AllocError> {
        self.values.push(buffer)?;
        Ok(())
    }

    pub(crate) fn keep_items(&mut self, buffer: Vec<usize>) -> Result<(), AllocError> {
        self.items.push(buffer)?;
        Ok(())
    }
}
