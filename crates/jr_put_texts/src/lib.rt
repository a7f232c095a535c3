//! Texts that a refactoring puts in: the spaces that neighbouring tokens need around one, and a
//! piece of a text with its own changes, as it moves elsewhere.
//!
//! `sides`: which tokens may stand directly beside one another (JLS 3.2). `neighbours`: the token
//! that ends, or begins, at a place of a text. `texts`: what is put.
#![tactic(auto)]

mod neighbours;
mod sides;
mod texts;

pub use texts::{PutText, spaced, with_changes};
