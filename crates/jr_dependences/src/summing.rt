//! What one site of no local weighs with those before each other one, made once for all that are
//! alike.
ghost use Rattle.std.specs.Prelude.{◌≡◌, ◌<◌, ◌^◌, ◌∷◌, ◌++◌, [], ℕ, List, Some, false};
ghost use Rattle.std.specs.Prelude.{IfOk, IfSome, IsTrue, Contains, length, slice_get};
ghost use Rattle.jr_sync.specs.declared.sites.Site as pure;
ghost use Rattle.jr_dependences.specs.Known.{is_local};
ghost use Rattle.jr_dependences.specs.Summed.{AreKept, AreSumsOn, IsNext, IsSameSite};

use crate::kind_weights::{add_kinds, added};
use crate::numbers::NumberedSite;
use crate::pairs::kinds_of_other;
use crate::sameness::is_same_site;
use std::alloc::{AllocError, Global};

/// What the dependences on a site would weigh whose second sites stand before each site, and all,
/// if paths led to all of them.
#[derive(Drop)]
pub(crate) struct Sums {
    /// The number of the site; others may be alike.
    pub first: u32,
    /// What each weighs besides.
    pub each: u64,
    pub sums: Vec<u64>,
}

/// Adds what the dependences on one site weigh of which another is the second.
fn next_sum(site: &NumberedSite, other: &NumberedSite, each: u64, total: u64) -> Option<u64>
    requires { is_local site.now ≡ false }
    ensures { IfSome result (IsNext site.now other.now each total) }
{
    let kinds = kinds_of_other(site, other);
    add_kinds(total, kinds, each)
}

/// Puts this behind the others.
fn push_next(
    site: &NumberedSite,
    other: &NumberedSite,
    each: u64,
    total: u64,
    sums: &mut Vec<u64>,
) -> Result<u64, AllocError>
    requires { is_local site.now ≡ false }
    ensures next { IfOk result (IsNext site.now other.now each total) }
    ensures puts { IfOk result (λ n. sums.new.items ≡ sums.old.items ++ n ∷ []) }
{
    let Some(next) = next_sum(site, other, each, total) else {
        return Err(AllocError);
    };
    sums.push(next)?;
    Ok(next)
}

/// The sums of a site.
pub(crate) fn sums_of(
    alloc: Global,
    sites: &[NumberedSite],
    lens: &[u64],
    first: u32,
    each: u64,
) -> Result<Vec<u64>, AllocError>
    requires few { length sites.now < 2 ^ 32 }
    requires lens { length lens.now ≡ length sites.now }
    requires first { first < length sites.now }
    requires other { (a : pure.Site ℕ ℕ) → slice_get sites.now first ≡ Some a
        → is_local a ≡ false }
    ensures { IfOk result (λ v. AreSumsOn sites.now first each lens.now v.items) }
{
    let site = &sites[first as usize];
    let mut sums = Vec::with_capacity(alloc, sites.len() + 1)?;
    sums.push(0)?;
    let mut total = 0u64;
    for second in 0..sites.len() {
        let more = added(each, lens[second])?;
        total = push_next(site, &sites[second], more, total, &mut sums)?;
    }
    Ok(sums)
}

/// Whether sums are those of a site too.
fn serves(sums: &Sums, sites: &[NumberedSite], first: u32, each: u64) -> bool
    ensures each { IsTrue result → sums.now.each ≡ each }
    ensures site { IsTrue result → IsSameSite sites.now sums.now.first first }
{
    if sums.each == each {
        is_same_site(sites, sums.first, first)
    } else {
        false
    }
}

/// Those of a site, if they are among these.
pub(crate) fn find<'k>(
    kept: &'k [Sums],
    sites: &[NumberedSite],
    first: u32,
    each: u64,
) -> Option<&'k Sums>
    ensures there { IfSome result (λ s. Contains kept.now s.now) }
    ensures each { IfSome result (λ s. s.now.each ≡ each) }
    ensures site { IfSome result (λ s. IsSameSite sites.now s.now.first first) }
{
    for sums in kept {
        if serves(sums, sites, first, each) {
            return Some(sums);
        }
    }
    None
}

/// Keeps sums for sites that are alike.
pub(crate) fn keep(
    first: u32,
    each: u64,
    sums: Vec<u64>,
    kept: &mut Vec<Sums>,
) -> Result<(), AllocError>
    ensures { (sites : List (pure.Site ℕ ℕ)) (lens : List ℕ) → AreKept sites lens kept.old.items
        → AreSumsOn sites first each lens sums.items
        → IfOk result (λ _. AreKept sites lens kept.new.items) }
{
    kept.push(Sums { first, each, sums })?;
    Ok(())
}
