//! What moves where a local is extracted or inlined: where the local is referred to, and whether a
//! piece may go past what stands between.
//!
//! `places`: the byte of a place of a member, and those of the references to a declaration
//! (`specs/ReferencePlaces`). `crossings`: two pieces of a member, by their footprints, and why they
//! may not change places (`specs/Pieces`). `laws`: which references these are; pieces have the same
//! ways by what is known of their nodes and by what is known of spots (`specs/SpotWays`).
#![tactic(auto)]

mod crossings;
mod laws;
mod places;

pub use crossings::{Piece, crossing_of, piece_of};
pub use laws::{references_have_places, spots_have_the_ways};
pub use places::{place_of, places_of};
