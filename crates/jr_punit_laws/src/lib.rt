//! The machines for lists of statements, members, classes and files read what tokens are, stop where
//! nothing goes on, and mark each node with its span: definitions and laws, for `jr_punit` and what
//! stands on it. No code runs here.
//!
//! `laws` has a function a law, whose contract it is.
#![tactic(auto)]

pub mod laws;
