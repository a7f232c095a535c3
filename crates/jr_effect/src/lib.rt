//! What pieces of a member do, and which of its sites depend on which.
//!
//! [`dependences`] lists the latter, by the lower half `jr_dependences`, which takes sites as
//! [`bare`] makes them; [`is_plain`] is whether sites read locals alone. `specs/Ties`: the
//! dependences of a row of sites are those of the way that it comes from; `specs/Covers`: so the
//! list covers what runs do; `specs/MemberCovers`: of each program with a member that has the graph;
//! `specs/Within`: how many sites stand in front of a piece.
#![tactic(auto)]

mod laws;
mod listing;
mod plain;

pub use jr_dependences::Dependence;
pub use laws::{lists_cover, pieces_stand_in_their_ways, rows_depend_as_ways};
pub use listing::{bare, dependences};
pub use plain::is_plain;
