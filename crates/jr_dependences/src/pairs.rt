//! In which ways one site depends on another.
ghost use Rattle.std.specs.Prelude.{◌≡◌, ℕ, ◌↔◌, ◌<◌, List, true, false, IsTrue, length};
ghost use Rattle.jr_sync.specs.Relations.{Related};
ghost use Rattle.jr_dependences.specs.Depends.{Depends};
ghost use Rattle.jr_dependences.specs.Known.{Gives, KnowsPaths, is_local};
ghost use Rattle.jr_sync.specs.Sites.{is_wild};
ghost use Rattle.jr_dependences.specs.Kinds.{has, none, ordered};
ghost use Rattle.jr_dependences.specs.Numbers.{SameNumber};

use crate::numbers::NumberedSite;
use jr_flow::{Reach, Reached};
use jr_sync::{DepKind, Site, related};

/// In which ways a site depends on another.
#[derive(Clone, Copy)]
pub(crate) struct Kinds {
    pub order: bool,
    pub field: bool,
    pub sync: bool,
    pub flow: bool,
    pub anti: bool,
    pub output: bool,
}

/// It doesn't.
#[inline(always)]
fn in_no_way() -> Kinds
    ensures { result ≡ none }
{
    Kinds {
        order: false,
        field: false,
        sync: false,
        flow: false,
        anti: false,
        output: false,
    }
}

/// One may throw, call or loop, and the other too, or it is an access.
#[inline(always)]
fn in_order() -> Kinds
    ensures { result ≡ ordered }
{
    Kinds {
        order: true,
        field: false,
        sync: false,
        flow: false,
        anti: false,
        output: false,
    }
}

/// Whether the site is of a local.
#[inline(always)]
pub(crate) fn is_local(site: &NumberedSite) -> bool
    ensures { result ≡ is_local site.now }
{
    match site {
        Site::Read(_) | Site::Write(_) => true,
        Site::Access(_, _) | Site::Check | Site::Call | Site::Loop => false,
    }
}

/// Whether the site is a test, a call or a loop.
#[inline(always)]
fn is_wild(site: &NumberedSite) -> bool
    ensures { result ≡ is_wild site.now }
{
    match site {
        Site::Check | Site::Call | Site::Loop => true,
        Site::Read(_) | Site::Write(_) | Site::Access(_, _) => false,
    }
}

/// Whether what a write gives comes to a site. `flow` has what the write reaches with no write of
/// its local between, if anything reads the local.
fn gives(flow: &Option<Reached>, second: u32) -> bool
    ensures { IsTrue result ↔ Gives flow.now DepKind.Flow second }
{
    match flow {
        None => false,
        Some(reached) => reached.has(second),
    }
}

/// How a site depends on one of a local before it: others than of locals there are none.
fn kinds_of_local(
    flow: &Option<Reached>,
    before: &NumberedSite,
    behind: &NumberedSite,
    second: u32,
) -> Kinds
    requires { is_local before.now ≡ true }
    ensures { (kind : DepKind) → (IsTrue (has result kind) ↔ (Gives flow.now kind second
        × Related SameNumber SameNumber kind before.now behind.now)) }
{
    Kinds {
        order: false,
        field: false,
        sync: false,
        flow: gives(flow, second) & related(DepKind::Flow, before, behind),
        anti: related(DepKind::Anti, before, behind),
        output: related(DepKind::Output, before, behind),
    }
}

/// How a site depends on another before it: of locals there are none. Cheap tests come first: most
/// sites stand beside one that is no access.
#[inline(always)]
pub(crate) fn kinds_of_other(before: &NumberedSite, behind: &NumberedSite) -> Kinds
    requires { is_local before.now ≡ false }
    ensures { (kind : DepKind) → (IsTrue (has result kind)
        ↔ Related SameNumber SameNumber kind before.now behind.now) }
{
    if is_local(behind) {
        return in_no_way();
    }
    let is_ordered = is_wild(behind) | is_wild(before);
    if is_ordered {
        return in_order();
    }
    Kinds {
        order: false,
        field: related(DepKind::Field, before, behind),
        sync: related(DepKind::Sync, before, behind),
        flow: false,
        anti: false,
        output: false,
    }
}

/// How the second site depends on the first. Where no path leads from the one to the other it
/// doesn't.
#[inline(always)]
pub(crate) fn kinds_between(
    reach: &Reach,
    flow: &Option<Reached>,
    sites: &[NumberedSite],
    first: u32,
    second: u32,
) -> Kinds
    requires first { first < length sites.now }
    requires second { second < length sites.now }
    ensures { (edges : List (ℕ × ℕ)) → KnowsPaths SameNumber SameNumber sites.now edges first
        reach.now flow.now → (kind : DepKind) → (IsTrue (has result kind)
        ↔ Depends SameNumber SameNumber sites.now edges kind first second) }
{
    if !reach.comes(first, second) {
        return in_no_way();
    }
    let before = &sites[first as usize];
    let behind = &sites[second as usize];
    if is_local(before) {
        kinds_of_local(flow, before, behind, second)
    } else {
        kinds_of_other(before, behind)
    }
}
