//! The path of a way tells it, and so does its span, in trees with nested spans: an expression that
//! is asked for by its span is one, and stands in one way. Nothing in it runs.
//!
//! Definitions: `specs/Told`.
#![tactic(auto)]

mod laws;

pub use laws::{one_way_has_a_span, paths_tell_ways};
