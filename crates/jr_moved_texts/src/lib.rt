//! Texts that a refactoring moves, puts and takes away, in a text that is cut into tokens: laws.
//! Nothing in it runs.
#![tactic(auto)]

mod laws;

pub use laws::runs_move;
