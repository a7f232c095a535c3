//! What a walk of a body gathers (`jr_new_bodies`: by numbers of locals and by spans) is what extract
//! and inline local ask of the body's parts (`jr_local`: by trees and contexts). It has laws alone.
//!
//! `specs/Mappings`: the walk's mappings. `Contexts`: which locals are in scope. `Walked`: the laws.
#![tactic(auto)]

mod laws;

pub use laws::{extract_is_walked, inline_is_walked};
