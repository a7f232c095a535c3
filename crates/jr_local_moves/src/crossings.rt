//! Pieces of a member that may not change places, by their footprints.
ghost use Rattle.std.specs.Prelude.{◌≡◌, ◌++◌, ◌∷◌, ◌<◌, ◌^◌, [], IfOk, OnOk, length};
ghost use Rattle.jr_sync.specs.Crossing.{IsCrossing};
ghost use Rattle.jr_effect.specs.Plain.{Same};
ghost use Rattle.jr_local_moves.specs.Pieces.{IsPieceOf, sites_of};

use jr_sites::PlacedSite;
use jr_sync::{DepKind, Site, crossing};
use jr_table::{FieldKey, LocalKey};
use std::alloc::{AllocError, Global};

type OwnSite = Site<FieldKey, LocalKey>;

/// The sites of a piece of a member in evaluation order, and the byte of each, counted from the
/// member's first one.
#[derive(Drop)]
pub struct Piece {
    pub sites: Vec<OwnSite>,
    pub places: Vec<u32>,
}

fn put_site(
    placed: PlacedSite,
    sites: &mut Vec<OwnSite>,
    places: &mut Vec<u32>,
) -> Result<(), AllocError>
    ensures sites { OnOk result (sites.new.items ≡ sites.old.items ++ placed.site ∷ []) }
    ensures places { OnOk result (places.new.items ≡ places.old.items ++ placed.at ∷ []) }
{
    let PlacedSite { at, site } = placed;
    sites.push(site)?;
    places.push(at)?;
    Ok(())
}

/// The piece that has the footprint. The only fault is want of memory.
pub fn piece_of(alloc: Global, footprint: Vec<PlacedSite>) -> Result<Piece, AllocError>
    ensures { IfOk result (IsPieceOf footprint.items) }
{
    let mut sites = Vec::new(alloc);
    let mut places = Vec::new(alloc);
    for placed in footprint {
        put_site(placed, &mut sites, &mut places)?;
    }
    Ok(Piece { sites, places })
}

/// The sites, of which there are fewer than numbers: more don't fit any memory.
fn numbered(piece: &Piece) -> Result<&[OwnSite], AllocError>
    ensures sites { IfOk result (λ sites. sites.now ≡ piece.now.sites.items) }
    ensures few { IfOk result (λ sites. length sites.now < 2 ^ 32) }
{
    let sites = piece.sites.as_slice();
    match u32::try_from(sites.len()) {
        Err(_) => Err(AllocError),
        Ok(_) => Ok(sites),
    }
}

/// Why a piece and one behind it may not change places (JLS 17.4): the numbers of a site of the
/// first and of one of the second, and how the latter depends on the former; `jr_sync: crossing`
/// says which pair is told. None exactly where they may change places. The only fault is want of
/// memory.
pub fn crossing_of(first: &Piece, second: &Piece) -> Result<Option<(u32, u32, DepKind)>, AllocError>
    ensures { IfOk result (λ o. IsCrossing Same Same (sites_of first.now) (sites_of second.now) o) }
{
    let before = numbered(first)?;
    let behind = numbered(second)?;
    Ok(crossing(before, behind))
}
