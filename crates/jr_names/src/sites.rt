//! Sites with their places, and what depends on what.

use jr_sync::{DepKind, Site};
use jr_table::{FieldKey, LocalKey};
use jr_text::Place;

/// What the code does at a place.
#[derive(Drop)]
pub struct SiteAt {
    pub place: Place,
    pub site: Site<FieldKey, LocalKey>,
}

/// A dependence: the second site depends on the first.
#[derive(Drop)]
pub struct DepPair {
    pub kind: DepKind,
    pub first: SiteAt,
    pub second: SiteAt,
}
