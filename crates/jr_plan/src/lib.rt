//! What a refactoring is, and what follows for each of them.
//!
//! Definitions: `Transforms` (what a refactoring does with a program: images, a region, spots,
//! what has to be made, what it crosses; what it owes; and what comes of the files), `Reasons`
//! (refusals in the order in which they are asked: its own, a change of dispatch, a lost reference
//! by least place, a kept one before a copied before a made one; what is planned where none
//! applies; and that a step has one plan), `Renaming` (a rename as a refactoring).
//!
//! `laws`: of the lost references one is the first (`one_first_loss`). What holds of any transform
//! is said by lemmas (`proofs/Planned`), as no clause can quantify over transforms: its changes
//! are edits that fit, and the spliced texts read as its new trees (`plans_read`).
#![tactic(auto)]

mod laws;

pub use laws::one_first_loss;
