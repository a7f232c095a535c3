//! Sites that read locals alone.
ghost use Rattle.std.specs.Prelude.{◌≡◌, ◌↔◌, All, IsTrue, is_some};
ghost use Rattle.jr_effect.specs.Plain.{IsPlain, is_read};

use jr_sites::PlacedSite;
use jr_sync::Site;

/// Whether the site reads a local.
fn is_read(site: &PlacedSite) -> bool
    ensures { result ≡ is_read site.now }
{
    match &site.site {
        Site::Read(_) => true,
        Site::Write(_) | Site::Access(_, _) | Site::Check | Site::Call | Site::Loop => false,
    }
}

/// Whether every site reads a local.
pub fn is_plain(sites: &[PlacedSite]) -> bool
    ensures { IsTrue result ↔ IsPlain sites.now }
{
    for site in sites {
        if !is_read(site) {
            return false;
        }
    }
    true
}
