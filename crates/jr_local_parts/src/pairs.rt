//! The pair of sites of two pieces that may not change places.
ghost use Rattle.std.specs.Prelude.{◌≡◌, ◌<◌, IfOk, length, option_map};
ghost use Rattle.jr_names.specs.SiteView.{pair_of, site_at_of};
ghost use Rattle.jr_local_footprints.specs.LostPairs.{IsLostPair};
ghost use Rattle.jr_local_parts.specs.PieceSites.{IsSiteOf};

use jr_local_moves::{Piece, crossing_of, piece_of, place_of};
use jr_names::{DepPair, SiteAt};
use jr_sites::PlacedSite;
use jr_sync::DepKind;
use jr_text::Place;
use std::alloc::{AllocError, Global};

/// The site of a number of a piece of a member that begins at the byte `start` of the file.
fn site_of(file: u32, start: u32, piece: Piece, number: u32) -> Result<SiteAt, AllocError>
    requires sites { number < length piece.sites.items }
    requires places { number < length piece.places.items }
    ensures { IfOk result (λ s. IsSiteOf file start piece number (site_at_of s)) }
{
    let Piece { sites, places } = piece;
    let mut sites = sites;
    let at = place_of(start, places[number as usize])?;
    let site = sites.swap_remove(number as usize);
    Ok(SiteAt {
        place: Place { file, at },
        site,
    })
}

/// The sites of these numbers, of a piece and of one behind it.
fn pair(
    file: u32,
    start: u32,
    first: Piece,
    second: Piece,
    crossing: (u32, u32, DepKind),
) -> Result<DepPair, AllocError>
    requires first { crossing.0 < length first.sites.items }
    requires first_place { crossing.0 < length first.places.items }
    requires second { crossing.1 < length second.sites.items }
    requires second_place { crossing.1 < length second.places.items }
    ensures kind { IfOk result (λ p. p.kind ≡ crossing.2) }
    ensures one { IfOk result
        (λ p. IsSiteOf file start first crossing.0 (site_at_of p.first)) }
    ensures other { IfOk result
        (λ p. IsSiteOf file start second crossing.1 (site_at_of p.second)) }
{
    let (i, j, kind) = crossing;
    let first = site_of(file, start, first, i)?;
    let second = site_of(file, start, second, j)?;
    Ok(DepPair {
        kind,
        first,
        second,
    })
}

/// Why a piece and one behind it may not change places (JLS 17.4): a site of each, of which the
/// latter depends on the former, as `jr_sync: crossing` picks them. None exactly where they may
/// change places. The member begins at the byte `start` of the file, and the places of its sites
/// are counted from there. The only fault is want of memory.
pub fn lost_pair(
    alloc: Global,
    file: u32,
    start: u32,
    before: Vec<PlacedSite>,
    moved: Vec<PlacedSite>,
) -> Result<Option<DepPair>, AllocError>
    ensures { IfOk result
        (λ o. IsLostPair file start before.items moved.items (option_map pair_of o)) }
{
    let first = piece_of(alloc, before)?;
    let second = piece_of(alloc, moved)?;
    let found = crossing_of(&first, &second)?;
    match found {
        None => Ok(None),
        Some(crossing) => Ok(Some(pair(file, start, first, second, crossing)?)),
    }
}
