//! Dependences on a site of no local are weighed by its sums: 64 second sites at once, where paths
//! lead to all of them or to none.
ghost use Rattle.std.specs.Prelude.{◌≡◌, ◌+◌, ◌*◌, ◌/◌, ◌-◌, ◌^◌, ◌<◌, ◌≤◌, ℕ, IfSome, IsTrue};
ghost use Rattle.std.specs.Prelude.{length, slice_index};
ghost use Rattle.jr_flow.specs.Pairs.{Comes};
ghost use Rattle.jr_dependences.specs.Summed.{Given, IsSummed, WeighsOn, WeighsTo};

use crate::kind_weights::sum;
use jr_flow::Reach;

/// What stands between two sums.
#[inline(always)]
fn between(sums: &[u64], from: usize, to: usize) -> Option<u64>
    requires from { from < length sums.now }
    requires to { to < length sums.now }
    ensures { IfSome result (λ n. n + slice_index sums.now from ≡ slice_index sums.now to) }
{
    if sums[to] < sums[from] {
        return None;
    }
    Some(sums[to] - sums[from])
}

/// Adds what the dependences between two sites weigh.
#[inline(always)]
fn weigh_one(reach: &Reach, sums: &[u64], first: u32, second: usize, total: u64) -> Option<u64>
    requires second { second + 1 < length sums.now }
    requires few { length sums.now ≤ 2 ^ 32 }
    ensures { (g : Given) (each : ℕ) → IsSummed g first each reach.now sums.now
        → WeighsTo g first each second total → IfSome result (WeighsTo g first each (second + 1)) }
{
    if !reach.comes(first, second as u32) {
        return Some(total);
    }
    let more = between(sums, second, second + 1)?;
    sum(total, more)
}

/// Adds what those weigh whose second sites have numbers from one on and below another.
fn weigh_each(
    reach: &Reach,
    sums: &[u64],
    first: u32,
    from: usize,
    to: usize,
    total: u64,
) -> Option<u64>
    requires order { from ≤ to }
    requires to { to < length sums.now }
    requires few { length sums.now ≤ 2 ^ 32 }
    ensures { (g : Given) (each : ℕ) → IsSummed g first each reach.now sums.now
        → WeighsTo g first each from total → IfSome result (WeighsTo g first each to) }
{
    let mut weight = total;
    for second in from..to {
        weight = weigh_one(reach, sums, first, second, weight)?;
    }
    Some(weight)
}

/// Whether paths lead to all of 64 sites, of which this is the last.
fn is_full(reach: &Reach, word: u64, first: u32, last: u32) -> bool
    ensures word { IsTrue result → word ≡ 2 ^ 64 - 1 }
    ensures last { IsTrue result → Comes reach.now first last }
{
    if word == u64::MAX {
        reach.comes(first, last)
    } else {
        false
    }
}

/// The same of 64 second sites.
fn weigh_block(reach: &Reach, sums: &[u64], first: u32, block: usize, total: u64) -> Option<u64>
    requires block { 64 * block + 64 < length sums.now }
    requires few { length sums.now ≤ 2 ^ 32 }
    ensures { (g : Given) (each : ℕ) → IsSummed g first each reach.now sums.now
        → WeighsTo g first each (64 * block) total
        → IfSome result (WeighsTo g first each (64 * block + 64)) }
{
    let from = 64 * block;
    let word = reach.word(first, block as u32);
    let is_empty = word == 0;
    if is_empty {
        return Some(total);
    }
    if is_full(reach, word, first, (from + 63) as u32) {
        let more = between(sums, from, from + 64)?;
        return sum(total, more);
    }
    weigh_each(reach, sums, first, from, from + 64, total)
}

/// What those weigh whose second sites stand in whole blocks of 64.
fn weigh_blocks(reach: &Reach, sums: &[u64], first: u32, count: usize) -> Option<u64>
    requires count { length sums.now ≡ count + 1 }
    requires few { length sums.now ≤ 2 ^ 32 }
    ensures { (g : Given) (each : ℕ) → IsSummed g first each reach.now sums.now
        → IfSome result (WeighsTo g first each (64 * (count / 64))) }
{
    let mut total = 0u64;
    for block in 0..count / 64 {
        total = weigh_block(reach, sums, first, block, total)?;
    }
    Some(total)
}

/// What all dependences on a site weigh; `count` is how many sites there are.
pub(crate) fn weigh_sums(reach: &Reach, sums: &[u64], first: u32, count: usize) -> Option<u64>
    requires count { length sums.now ≡ count + 1 }
    requires few { length sums.now ≤ 2 ^ 32 }
    ensures { (g : Given) (each : ℕ) → IsSummed g first each reach.now sums.now
        → count ≡ length g.sites → IfSome result (WeighsOn g first each) }
{
    let total = weigh_blocks(reach, sums, first, count)?;
    weigh_each(reach, sums, first, 64 * (count / 64), count, total)
}
