//! What several threads do together: definitions and laws alone, over resolved code (`jr_runs`).
//!
//! `specs/Histories`: in which order the actions of some threads may come, each thread's own
//! actions being those of a run. Where two programs are alike, each history of the new one is one
//! of the old one.
#![tactic(auto)]

mod laws;

pub use laws::histories_are_old;
