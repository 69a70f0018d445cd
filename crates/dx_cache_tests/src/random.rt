//! Random calls against a plain list.
ghost use Rattle.std.specs.Prelude.{◌<◌};

use crate::made::{entry, keep};
use crate::plain::{Plain, Row};
use dx_cache::Cache;
use std::alloc::{AllocError, Global};
use std::test::Fail;

// Numbers by a linear rule, of which the upper bits serve.
#[derive(Drop)]
struct Numbers {
    state: u64,
}

impl Numbers {
    fn below(&mut self, bound: u64) -> u64
        requires { 0 < bound }
        ensures { result < bound }
    {
        self.state = self
            .state
            .wrapping_mul(6_364_136_223_846_793_005)
            .wrapping_add(1_442_695_040_888_963_407);
        (self.state >> 33) % bound
    }
}

const TAGS: u64 = 40;

// Whether cache and list tell the same.
fn agree(cache: &Cache, plain: &Plain) -> bool {
    let mut same = cache.used() == plain.used() && cache.len() == plain.rows().len() as u64;
    for tag in 0..TAGS {
        same = same
            && match (cache.outs(tag), plain.find(tag)) {
                (None, None) => !cache.has(tag),
                (Some(outs), Some(row)) => cache.has(tag) && outs.size() == row.size,
                _ => false,
            };
    }
    same
}

// Stores an entry in both, where its tag is new and its size within the budget.
fn both_store(
    alloc: Global,
    cache: &mut Cache,
    plain: &mut Plain,
    row: Row,
) -> Result<bool, AllocError> {
    if plain.find(row.tag).is_some() || row.size > cache.budget() {
        return Ok(true);
    }
    let want = plain.store(alloc, row)?;
    match keep(alloc, cache, entry(alloc, row)?)? {
        None => Ok(false),
        Some(dropped) => Ok(dropped.as_slice() == want.as_slice()),
    }
}

// Takes an entry out of both by its place.
fn both_remove(cache: &mut Cache, plain: &mut Plain, i: u64) -> bool {
    let want = plain.remove(i as usize);
    if i < cache.len() {
        let got = cache.remove(i);
        match want {
            None => false,
            Some(row) => {
                got.tag == row.tag
                    && got.site.bytes() == [b's', row.site].as_slice()
                    && got.attribute == row.attribute
                    && got.size == row.size
            }
        }
    } else {
        want.is_none()
    }
}

// One random call of both, and whether they agree after it.
fn one_call(
    alloc: Global,
    numbers: &mut Numbers,
    cache: &mut Cache,
    plain: &mut Plain,
) -> Result<bool, AllocError> {
    let row = Row {
        tag: numbers.below(TAGS),
        site: numbers.below(5) as u8,
        attribute: 1 + numbers.below(2) as u8,
        size: 64 * numbers.below(7),
    };
    let same = match numbers.below(20) {
        0..=6 => cache.get(row.tag) == plain.get(row.tag)?,
        7..=16 => both_store(alloc, cache, plain, row)?,
        17..=18 => both_remove(cache, plain, numbers.below(12)),
        _ => {
            if numbers.below(40) == 0 {
                cache.clear();
                plain.clear();
            }
            true
        }
    };
    Ok(same && agree(cache, plain))
}

// Whether cache and list agree after each of so many calls, and give the same entries in the same order at the end.
fn run(alloc: Global, seed: u64, budget: u64, calls: u64) -> Result<bool, AllocError> {
    let mut numbers = Numbers { state: seed };
    let mut cache = Cache::new(alloc, budget);
    let mut plain = Plain::new(alloc, budget);
    let mut same = cache.budget() == budget;
    for _ in 0..calls {
        same = same && one_call(alloc, &mut numbers, &mut cache, &mut plain)?;
    }
    for _ in 0..cache.len() {
        same = same && both_remove(&mut cache, &mut plain, 0);
    }
    Ok(same && agree(&cache, &plain))
}

#[test]
fn the_cache_is_a_plain_list(rt: HostRuntime) -> Result<(), Fail> {
    for budget in [0, 63, 64, 400, 1000, 3000, 100_000, u64::MAX] {
        assert!(rt; run(rt.alloc(), 2026, budget, 4000)?, "budget {budget}");
    }
    Ok(())
}
