//! A cache as a plain list, the oldest entry first: what the calls are to do, written again on its own.
use std::alloc::{AllocError, Global};

/// An entry without its results.
#[derive(Clone, Copy, PartialEq, Eq)]
pub(crate) struct Row {
    pub(crate) tag: u64,
    pub(crate) site: u8,
    pub(crate) attribute: u8,
    pub(crate) size: u64,
}

#[derive(Drop)]
pub(crate) struct Plain {
    budget: u64,
    rows: Vec<Row>,
}

impl Plain {
    pub(crate) fn new(alloc: Global, budget: u64) -> Plain {
        Plain {
            budget,
            rows: Vec::new(alloc),
        }
    }

    pub(crate) fn rows(&self) -> &[Row] {
        &self.rows
    }

    pub(crate) fn used(&self) -> u64 {
        let mut sum: u64 = 0;
        for row in &self.rows {
            sum = sum.saturating_add(row.size);
        }
        sum
    }

    pub(crate) fn find(&self, tag: u64) -> Option<Row> {
        for row in &self.rows {
            if row.tag == tag {
                return Some(*row);
            }
        }
        None
    }

    pub(crate) fn get(&mut self, tag: u64) -> Result<bool, AllocError> {
        let found = self.find(tag);
        if let Some(row) = found {
            self.rows.retain(|other| other.tag != tag);
            self.rows.push(row)?;
        }
        Ok(found.is_some())
    }

    // The tags that are dropped for a row, which then stands last.
    pub(crate) fn store(&mut self, alloc: Global, row: Row) -> Result<Vec<u64>, AllocError> {
        let mut dropped = Vec::new(alloc);
        let mut left = Vec::new(alloc);
        for other in &self.rows {
            if row.attribute == 2 && other.site == row.site {
                dropped.push(other.tag)?;
            } else {
                left.push(*other)?;
            }
        }
        self.rows.clear();
        let mut sum: u64 = row.size;
        for other in &left {
            sum = sum.saturating_add(other.size);
        }
        for other in &left {
            if sum > self.budget {
                dropped.push(other.tag)?;
                sum = sum.saturating_sub(other.size);
            } else {
                self.rows.push(*other)?;
            }
        }
        self.rows.push(row)?;
        Ok(dropped)
    }

    pub(crate) fn remove(&mut self, i: usize) -> Option<Row> {
        if i < self.rows.len() {
            Some(self.rows.remove(i))
        } else {
            None
        }
    }

    pub(crate) fn clear(&mut self) {
        self.rows.clear();
    }
}
