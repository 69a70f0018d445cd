//! Entries of rows, and how one is kept.
ghost use Rattle.std.specs.Prelude.{◌≡◌, ◌≤◌, ◌<◌, None};
ghost use Rattle.dx_cache.specs.Cached.{find};
ghost use Rattle.dx_cache.specs.Sound.{IsKept};

use crate::plain::Row;
use dx_base::Bytes;
use dx_cache::{Cache, Entry};
use dx_objects::Outs;
use std::alloc::{AllocError, Global};

/// So many NULLs.
pub(crate) fn nulls(alloc: Global, count: u64) -> Result<Outs, AllocError> {
    let mut outs = Outs::new(alloc);
    for _ in 0..count {
        outs.push(None)?;
    }
    Ok(outs)
}

/// An entry of this row, whose results are NULLs of 64 each.
pub(crate) fn entry(alloc: Global, row: Row) -> Result<Entry, AllocError> {
    let outs = nulls(alloc, row.size / 64)?;
    Ok(Entry {
        tag: row.tag,
        site: Bytes::copy_of(alloc, &[b's', row.site])?,
        attribute: row.attribute,
        size: outs.size(),
        outs,
    })
}

/// Keeps an entry after all that has to go for it, and gives the tags of what went, oldest first. None where the entry
/// can't be kept.
pub(crate) fn keep(
    alloc: Global,
    cache: &mut Cache,
    entry: Entry,
) -> Result<Option<Vec<u64>>, AllocError> {
    let mut dropped = Vec::new(alloc);
    cache.reserve_one()?;
    for _ in 0..cache.len() {
        match cache.make_room(&entry.site, entry.attribute, entry.size) {
            None => break,
            Some(old) => dropped.push(old.tag)?,
        }
    }
    if store(cache, entry)? {
        Ok(Some(dropped))
    } else {
        Ok(None)
    }
}

// Stores an entry that can be kept with nothing dropped, and says whether it could.
fn store(cache: &mut Cache, entry: Entry) -> Result<bool, AllocError> {
    cache.reserve_one()?;
    if cache.has(entry.tag) || entry.size > cache.budget() || entry.site.bytes().is_empty() {
        return Ok(false);
    }
    if entry.size == u64::MAX || entry.size != entry.outs.size() {
        return Ok(false);
    }
    if entry.attribute == 1 || entry.attribute == 2 {
        Ok(put(cache, entry))
    } else {
        Ok(false)
    }
}

// Stores an entry where nothing has to be dropped for it, and says whether that is so.
fn put(cache: &mut Cache, entry: Entry) -> bool
    requires spare { 0 < cache.old.room }
    requires absent { find entry.tag cache.old.entries ≡ None }
    requires kept { IsKept entry }
    requires fits { entry.size ≤ cache.old.budget }
{
    match cache.make_room(&entry.site, entry.attribute, entry.size) {
        Some(_) => false,
        None => {
            cache.store(entry);
            true
        }
    }
}
