//! Which pair extract and inline local lose, from what calls answer of footprints: laws.
//!
//! `specs/Calls`: the clauses of `jr_piece_sites`, for a piece of a member that has a body, and of
//! what comes before it.
#![tactic(auto)]

mod laws;

pub use laws::{extracts_lose, inlines_lose};
