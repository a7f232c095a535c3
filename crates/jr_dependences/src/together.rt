//! What all dependences between the sites of a member weigh together.
ghost use Rattle.std.specs.Prelude.{◌≡◌, ◌+◌, ◌<◌, ◌^◌, ℕ, List, Some, false};
ghost use Rattle.std.specs.Prelude.{IfOk, IfSome, IsTrue, length, map, slice_get};
ghost use Rattle.jr_sync.specs.declared.sites.Site as pure;
ghost use Rattle.jr_dependences.specs.Depends.{DependsIn};
ghost use Rattle.jr_dependences.specs.Known.{TellsFlow, is_local};
ghost use Rattle.jr_dependences.specs.Numbers.{SameNumber};
ghost use Rattle.jr_dependences.specs.Summed.{AreKept, AreSumsOn, IsKnown, IsOfSize};
ghost use Rattle.jr_dependences.specs.Summed.{WeighsOn, given_of};
ghost use Rattle.jr_dependences.specs.Weights.{AllWeigh};

use crate::by_sums::weigh_sums;
use crate::kind_weights::added;
use crate::numbers::{NumberedSite, numbered};
use crate::pairs::is_local;
use crate::stops::flow_of;
use crate::summing::{Sums, find, keep, sums_of};
use crate::weighing::weigh_seconds;
use jr_flow::{EdgeRows, Graph, Reach, Reached, reachable, rows_of_edges};
use jr_sync::Site;
use std::alloc::{AllocError, Global};

/// The sites of a member with the bytes of each, and the paths between them.
#[derive(Clone, Copy, Drop)]
pub(crate) struct MemberSites<'a> {
    pub reach: &'a Reach,
    pub rows: &'a EdgeRows,
    pub sites: &'a [NumberedSite],
    pub lens: &'a [u64],
}

/// What the dependences on a site weigh, by its sums.
fn weigh_by(of: &MemberSites<'_>, sums: &[u64], first: u32) -> Result<u64, AllocError>
    requires size { IsOfSize of.now }
    requires sums { length sums.now ≡ length of.now.sites.now + 1 }
    ensures { (edges : List (ℕ × ℕ)) (each : ℕ) → IsKnown edges of.now
        → AreSumsOn of.now.sites.now first each of.now.lens.now sums.now
        → IfOk result (WeighsOn (given_of edges of.now) first each) }
{
    match weigh_sums(of.reach, sums, first, of.sites.len()) {
        None => Err(AllocError),
        Some(total) => Ok(total),
    }
}

/// The same of a site from which these paths are known, by pairs.
fn weigh_pairs(
    of: &MemberSites<'_>,
    flow: &Option<Reached>,
    first: u32,
    each: u64,
) -> Result<u64, AllocError>
    requires size { IsOfSize of.now }
    requires first { first < length of.now.sites.now }
    ensures { (edges : List (ℕ × ℕ)) → IsKnown edges of.now
        → TellsFlow SameNumber SameNumber of.now.sites.now edges first flow.now
        → IfOk result (WeighsOn (given_of edges of.now) first each) }
{
    match weigh_seconds(of.reach, flow, of.sites, first, each, of.lens) {
        None => Err(AllocError),
        Some(total) => Ok(total),
    }
}

/// The same of a site of a local.
fn weigh_local(
    alloc: Global,
    of: &MemberSites<'_>,
    first: u32,
    each: u64,
) -> Result<u64, AllocError>
    requires size { IsOfSize of.now }
    requires first { first < length of.now.sites.now }
    ensures { (edges : List (ℕ × ℕ)) → IsKnown edges of.now
        → IfOk result (WeighsOn (given_of edges of.now) first each) }
{
    let flow = flow_of(alloc, of.rows, of.sites, first)?;
    weigh_pairs(of, &flow, first, each)
}

/// The same of one of no local, whose sums are made and kept.
fn weigh_anew(
    alloc: Global,
    of: &MemberSites<'_>,
    first: u32,
    each: u64,
    kept: &mut Vec<Sums>,
) -> Result<u64, AllocError>
    requires size { IsOfSize of.now }
    requires first { first < length of.now.sites.now }
    requires other { (a : pure.Site ℕ ℕ) → slice_get of.now.sites.now first ≡ Some a
        → is_local a ≡ false }
    requires kept { AreKept of.now.sites.now of.now.lens.now kept.old.items }
    ensures kept { IfOk result (λ _. AreKept of.now.sites.now of.now.lens.now kept.new.items) }
    ensures weighs { (edges : List (ℕ × ℕ)) → IsKnown edges of.now
        → IfOk result (WeighsOn (given_of edges of.now) first each) }
{
    let sums = sums_of(alloc, of.sites, of.lens, first, each)?;
    let total = weigh_by(of, sums.as_slice(), first)?;
    keep(first, each, sums, kept)?;
    Ok(total)
}

/// The same, if its sums are kept.
fn weigh_kept(
    of: &MemberSites<'_>,
    kept: &[Sums],
    first: u32,
    each: u64,
) -> Result<Option<u64>, AllocError>
    requires size { IsOfSize of.now }
    requires first { first < length of.now.sites.now }
    requires kept { AreKept of.now.sites.now of.now.lens.now kept.now }
    ensures { (edges : List (ℕ × ℕ)) → IsKnown edges of.now
        → IfOk result (λ o. IfSome o (WeighsOn (given_of edges of.now) first each)) }
{
    match find(kept, of.sites, first, each) {
        None => Ok(None),
        Some(one) => {
            let total = weigh_by(of, one.sums.as_slice(), first)?;
            Ok(Some(total))
        }
    }
}

/// The same of one of no local.
fn weigh_other(
    alloc: Global,
    of: &MemberSites<'_>,
    first: u32,
    each: u64,
    kept: &mut Vec<Sums>,
) -> Result<u64, AllocError>
    requires size { IsOfSize of.now }
    requires first { first < length of.now.sites.now }
    requires other { (a : pure.Site ℕ ℕ) → slice_get of.now.sites.now first ≡ Some a
        → is_local a ≡ false }
    requires kept { AreKept of.now.sites.now of.now.lens.now kept.old.items }
    ensures kept { IfOk result (λ _. AreKept of.now.sites.now of.now.lens.now kept.new.items) }
    ensures weighs { (edges : List (ℕ × ℕ)) → IsKnown edges of.now
        → IfOk result (WeighsOn (given_of edges of.now) first each) }
{
    let known = weigh_kept(of, kept.as_slice(), first, each)?;
    match known {
        Some(total) => Ok(total),
        None => weigh_anew(alloc, of, first, each, kept),
    }
}

/// What the dependences on a site weigh.
fn weigh_on(
    alloc: Global,
    of: &MemberSites<'_>,
    first: u32,
    each: u64,
    kept: &mut Vec<Sums>,
) -> Result<u64, AllocError>
    requires size { IsOfSize of.now }
    requires first { first < length of.now.sites.now }
    requires kept { AreKept of.now.sites.now of.now.lens.now kept.old.items }
    ensures kept { IfOk result (λ _. AreKept of.now.sites.now of.now.lens.now kept.new.items) }
    ensures weighs { (edges : List (ℕ × ℕ)) → IsKnown edges of.now
        → IfOk result (WeighsOn (given_of edges of.now) first each) }
{
    if is_local(&of.sites[first as usize]) {
        weigh_local(alloc, of, first, each)
    } else {
        weigh_other(alloc, of, first, each, kept)
    }
}

/// What all dependences weigh, one first site after another.
fn weigh_all(alloc: Global, of: &MemberSites<'_>, each: u64) -> Result<u64, AllocError>
    requires { IsOfSize of.now }
    ensures { (edges : List (ℕ × ℕ)) → IsKnown edges of.now → IfOk result (AllWeigh
        (DependsIn SameNumber SameNumber of.now.sites.now edges) each of.now.lens.now) }
{
    let mut kept = Vec::new(alloc);
    let mut total = 0u64;
    for first in 0..of.sites.len() {
        let front = added(each, of.lens[first])?;
        let more = weigh_on(alloc, of, first as u32, front, &mut kept)?;
        total = added(total, more)?;
    }
    Ok(total)
}

/// The same of a row by numbers.
fn weight_between(
    alloc: Global,
    graph: &Graph,
    sites: &[NumberedSite],
    each: u64,
    lens: &[u64],
) -> Result<u64, AllocError>
    requires few { length sites.now < 2 ^ 32 }
    requires lens { length lens.now ≡ length sites.now }
    ensures { IfOk result (AllWeigh
        (DependsIn SameNumber SameNumber sites.now graph.now.edges.items) each lens.now) }
{
    let reach = reachable(alloc, graph)?;
    let rows = rows_of_edges(alloc, graph)?;
    let of = MemberSites {
        reach: &reach,
        rows: &rows,
        sites,
        lens,
    };
    weigh_all(alloc, &of, each)
}

/// What all dependences between the sites of a graph weigh together: each of them `each`, so much
/// as its two sites do by `lens`, and the bytes of its kind's name. The sites are the graph's
/// nodes. Where 64 bits don't count it the answer is want of memory.
pub fn weight_of<K: Eq, L: Eq>(
    alloc: Global,
    graph: &Graph,
    sites: &[&Site<K, L>],
    each: u64,
    lens: &[u64],
) -> Result<u64, AllocError>
    requires few { length sites.now < 2 ^ 32 }
    requires lens { length lens.now ≡ length sites.now }
    ensures { IfOk result (AllWeigh (DependsIn (λ x y. IsTrue (K.eq x y)) (λ x y. IsTrue (L.eq x y))
        (map (λ s. s.now) sites.now) graph.now.edges.items) each lens.now) }
{
    let row = numbered(alloc, sites)?;
    weight_between(alloc, graph, row.as_slice(), each, lens)
}
