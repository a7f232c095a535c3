//! Where a local is written again, and what a write reaches before that.
ghost use Rattle.std.specs.Prelude.{ℕ, List, ◌↔◌, ◌<◌, ◌^◌, IfOk, IsTrue, Contains, length};
ghost use Rattle.jr_flow.specs.Searched.{AreRowsOf};
ghost use Rattle.jr_dependences.specs.Depends.{WritesAgain};
ghost use Rattle.jr_dependences.specs.Known.{IsReadIn, TellsFlow};
ghost use Rattle.jr_dependences.specs.Numbers.{SameNumber};

use crate::numbers::NumberedSite;
use jr_flow::{EdgeRows, Reached, reached_in};
use jr_sync::{DepKind, related};
use std::alloc::{AllocError, Global};

/// Whether one of the sites reads the local that a site writes.
fn is_read_in(sites: &[NumberedSite], site: &NumberedSite) -> bool
    ensures { IsTrue result ↔ IsReadIn SameNumber SameNumber sites.now site.now }
{
    for other in sites {
        if related(DepKind::Flow, site, other) {
            return true;
        }
    }
    false
}

/// The numbers of the sites that write the local that a site writes.
fn stops_of(
    alloc: Global,
    sites: &[NumberedSite],
    site: &NumberedSite,
) -> Result<Vec<u32>, AllocError>
    requires { length sites.now < 2 ^ 32 }
    ensures { IfOk result (λ stops. (n : ℕ) → (Contains stops.items n
        ↔ WritesAgain SameNumber SameNumber sites.now site.now n)) }
{
    let mut stops = Vec::new(alloc);
    for n in 0..sites.len() {
        if related(DepKind::Output, site, &sites[n]) {
            stops.push(n as u32)?;
        }
    }
    Ok(stops)
}

/// What a site reaches with no write of its local between, if it is a write of a local that is
/// read; by the rows of the graph's edges.
pub(crate) fn flow_of(
    alloc: Global,
    rows: &EdgeRows,
    sites: &[NumberedSite],
    first: u32,
) -> Result<Option<Reached>, AllocError>
    requires few { length sites.now < 2 ^ 32 }
    requires first { first < length sites.now }
    ensures { (edges : List (ℕ × ℕ)) → AreRowsOf edges rows.now
        → IfOk result (TellsFlow SameNumber SameNumber sites.now edges first) }
{
    let site = &sites[first as usize];
    if !is_read_in(sites, site) {
        return Ok(None);
    }
    let stops = stops_of(alloc, sites, site)?;
    let reached = reached_in(alloc, rows, first, &stops)?;
    Ok(Some(reached))
}
