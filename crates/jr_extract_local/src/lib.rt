//! Extract local: its one call [`plan_at`] answers the edits, the image of declarations and the
//! dependence that would be lost, or the first refusal that applies (5, 7, 14, 16). It knows no
//! session, no file's name and no other refactoring.
//!
//! `plans`: [`plan_at`] lists the written members, asks `jr_local_finds` for the expression and
//! `jr_extract_lists` for what becomes of the list, and answers (`specs/Plans`). `moves`: the pair of
//! sites that may not change places (`specs/Moves`).
#![tactic(auto)]

mod moves;
mod plans;

pub use plans::plan_at;
