//! Which sites are alike, but for those of locals.
ghost use Rattle.std.specs.Prelude.{◌≡◌, IsTrue};
ghost use Rattle.jr_dependences.specs.Summed.{IsSameSite, kind_number};

use crate::numbers::NumberedSite;
use jr_sync::{Kind, Site};

fn kind_number(kind: Kind) -> u32
    ensures { result ≡ kind_number kind }
{
    match kind {
        Kind::Load => 0,
        Kind::Store => 1,
        Kind::VolatileLoad => 2,
        Kind::VolatileStore => 3,
        Kind::Enter => 4,
        Kind::Exit => 5,
        Kind::Still => 6,
    }
}

fn is_same_kind(kind: Kind, other: Kind) -> bool
    ensures { IsTrue result → kind ≡ other }
{
    kind_number(kind) == kind_number(other)
}

fn is_same_field(field: &Option<u32>, other: &Option<u32>) -> bool
    ensures { IsTrue result → field.now ≡ other.now }
{
    match (field, other) {
        (None, None) => true,
        (Some(one), Some(second)) => *one == *second,
        (None, Some(_)) => false,
        (Some(_), None) => false,
    }
}

fn is_same_access(kind: Kind, field: &Option<u32>, other: &NumberedSite) -> bool
    ensures { IsTrue result → Site.Access kind field.now ≡ other.now }
{
    match other {
        Site::Access(second, number) => {
            if is_same_kind(kind, *second) {
                is_same_field(field, number)
            } else {
                false
            }
        }
        Site::Read(_) | Site::Write(_) | Site::Check | Site::Call | Site::Loop => false,
    }
}

fn is_check(site: &NumberedSite) -> bool
    ensures { IsTrue result → Site.Check ≡ site.now }
{
    match site {
        Site::Check => true,
        Site::Read(_) | Site::Write(_) | Site::Access(_, _) | Site::Call | Site::Loop => false,
    }
}

fn is_call(site: &NumberedSite) -> bool
    ensures { IsTrue result → Site.Call ≡ site.now }
{
    match site {
        Site::Call => true,
        Site::Read(_) | Site::Write(_) | Site::Access(_, _) | Site::Check | Site::Loop => false,
    }
}

fn is_loop(site: &NumberedSite) -> bool
    ensures { IsTrue result → Site.Loop ≡ site.now }
{
    match site {
        Site::Loop => true,
        Site::Read(_) | Site::Write(_) | Site::Access(_, _) | Site::Check | Site::Call => false,
    }
}

/// Whether the two are the same, and of no local.
fn is_same(site: &NumberedSite, other: &NumberedSite) -> bool
    ensures { IsTrue result → site.now ≡ other.now }
{
    match site {
        Site::Access(kind, field) => is_same_access(*kind, field, other),
        Site::Check => is_check(other),
        Site::Call => is_call(other),
        Site::Loop => is_loop(other),
        Site::Read(_) | Site::Write(_) => false,
    }
}

/// Whether those of two numbers are the same, and of no local.
pub(crate) fn is_same_site(sites: &[NumberedSite], one: u32, other: u32) -> bool
    ensures { IsTrue result → IsSameSite sites.now one other }
{
    let Some(first) = sites.get(one as usize) else {
        return false;
    };
    let Some(second) = sites.get(other as usize) else {
        return false;
    };
    is_same(first, second)
}
