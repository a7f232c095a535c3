//! Where a local is named in a body, as binding tells it.
//!
//! `laws`: [`names_are_bound`] (`specs/BoundNames`): the name to which a way leads finds the local
//! exactly where binding has the local at the name's first byte.
#![tactic(auto)]

mod laws;

pub use laws::names_are_bound;
