//! A local that isn't used behind a piece of a member may have any value there. It has definitions
//! and laws alone, and nothing in it is executed. It knows no text.
//!
//! *Used* is a word of paths (`specs/Agreement: Used`): an edge round the piece leads from it to a
//! site from which a read of the local comes before a write. An edge back into the piece counts
//! where a loop around the piece makes it, also through a condition that meets no site. What images
//! of code want are sets of locals that agree before and behind each part (`jr_runs: Images`). The
//! laws lead from the one to the other.
//!
//! `Agreement`: one local, by ways (`jr_cover: Ways`); `SiteLocals`: which sites read and write it;
//! `Pieces`: a piece in a member's body, and the new body; `CodeAgreement`: the sets, over resolved
//! code; `Bindings`: code of which each name means something, as in each sound program; `Unused`:
//! the laws on sets; `Beginnings`: what a list alone doesn't read first, as of a piece that becomes
//! a method; `LaterWrites`: programs that differ in such locals run alike; `UsedCases`: small pieces.
#![tactic(auto)]

mod laws;

pub use laws::{
    comes_by_paths, edges_are_in_or_round, grouping_keeps_edges, images_have_sets,
    unread_locals_may_differ, unused_locals_have_sets, unused_locals_may_differ,
    unused_locals_play_no_part, used_cases,
};
