//! The dependences of a member's sites.
ghost use Rattle.std.specs.Prelude.{◌≡◌, ◌↔◌, ◌<◌, ◌^◌, IfOk, Contains, AllPairs, length, map};
ghost use Rattle.jr_sites.specs.SiteView.{sites_in};
ghost use Rattle.jr_dependences.specs.Listed.{IsBefore};
ghost use Rattle.jr_dependences.specs.Depends.{DependsIn};
ghost use Rattle.jr_effect.specs.MemberCovers.{CoversMembers};
ghost use Rattle.jr_effect.specs.Plain.{Same};

use jr_dependences::{Dependence, dependences_of};
use jr_sites::{PlacedSite, SiteGraph};
use jr_sync::Site;
use jr_table::{FieldKey, LocalKey};
use std::alloc::{AllocError, Global};

type OwnSite = Site<FieldKey, LocalKey>;

/// The sites of a row, without their places; `count` is how many there are.
pub fn bare<'a>(
    alloc: Global,
    count: u32,
    sites: &'a [PlacedSite],
) -> Result<Vec<&'a OwnSite>, AllocError>
    requires { count ≡ length sites.now }
    ensures row { IfOk result (λ row.
        map (λ s. s.now) row.items ≡ map (λ s. s.site) sites.now) }
    ensures few { IfOk result (λ row. length row.items < 2 ^ 32) }
{
    let mut row = Vec::with_capacity(alloc, count as usize)?;
    for placed in sites {
        row.push(&placed.site)?;
    }
    Ok(row)
}

/// All dependences between the sites of a member, each once, in order: by the first site, the
/// second and the kind.
///
/// A site depends on another where control comes from the other to it on a path of at least one
/// edge, and the two are related in one of six ways. What a write gives to a read has to come
/// without another write of the local between (JLS 17.4).
pub fn dependences(alloc: Global, sites: &SiteGraph) -> Result<Vec<Dependence>, AllocError>
    ensures ordered { IfOk result (λ list. AllPairs IsBefore list.items) }
    ensures exact { IfOk result (λ list. (d : Dependence) → (Contains list.items d
        ↔ DependsIn Same Same (sites_in sites.now.sites.items) sites.now.graph.edges.items d)) }
    ensures cover { IfOk result (λ list. CoversMembers sites.now list.items) }
{
    let row = bare(alloc, sites.graph.size, &sites.sites)?;
    dependences_of(alloc, &sites.graph, &row)
}
