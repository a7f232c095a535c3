//! What the laws of `jr_local_walks` and the walks of `jr_new_bodies` rest on, where a refactoring
//! walks a body in parts: all of it holds in a sound program. It has laws alone.
//!
//! `specs/BodyPremises`: of each body ([`bodies_are_ready`], [`bodies_are_below`]).
//! `specs/SelectedPremises`: of what extract local selects ([`selected_are_ready`]).
//! `specs/TypePremises`: of the type that it writes ([`types_are_written`]).
#![tactic(auto)]

mod laws;

pub use laws::{bodies_are_below, bodies_are_ready, selected_are_ready, types_are_written};
