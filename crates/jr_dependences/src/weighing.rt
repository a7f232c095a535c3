//! What the dependences on one site weigh, by pairs.
ghost use Rattle.std.specs.Prelude.{◌≡◌, ℕ, List, ◌<◌, ◌^◌, IfSome, length};
ghost use Rattle.jr_dependences.specs.Depends.{DependsIn};
ghost use Rattle.jr_dependences.specs.Known.{KnowsPaths};
ghost use Rattle.jr_dependences.specs.Weights.{Weighs};
ghost use Rattle.jr_dependences.specs.Listed.{IsOn};
ghost use Rattle.jr_dependences.specs.Numbers.{SameNumber};

use crate::kind_weights::{add_kinds, sum};
use crate::numbers::NumberedSite;
use crate::pairs::kinds_between;
use jr_flow::{Reach, Reached};

/// What the dependences on one site weigh, from which these paths are known.
pub(crate) fn weigh_seconds(
    reach: &Reach,
    flow: &Option<Reached>,
    sites: &[NumberedSite],
    first: u32,
    each: u64,
    seconds: &[u64],
) -> Option<u64>
    requires few { length sites.now < 2 ^ 32 }
    requires first { first < length sites.now }
    requires seconds { length seconds.now ≡ length sites.now }
    ensures { (edges : List (ℕ × ℕ)) → KnowsPaths SameNumber SameNumber sites.now edges first
        reach.now flow.now → IfSome result (Weighs (IsOn first)
        (DependsIn SameNumber SameNumber sites.now edges) each seconds.now) }
{
    let mut total = 0u64;
    for second in 0..sites.len() {
        let kinds = kinds_between(reach, flow, sites, first, second as u32);
        let more = sum(each, seconds[second])?;
        total = add_kinds(total, kinds, more)?;
    }
    Some(total)
}
