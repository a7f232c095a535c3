//! What holds behind the declaration of a local, where the local is named: laws.
//!
//! `laws`: a way from the list behind a declaration is one of the list around it, at the same place
//! ([`ways_go_on`]); what finds the local there has its name ([`locals_have_their_names`], by
//! numbers: [`bodies_begin_below`]).
#![tactic(auto)]

mod laws;

pub use laws::{bodies_begin_below, locals_have_their_names, ways_go_on};
