//! What the walks of a table over a member say of an expression to which a way leads: its type is
//! what the way's path tells, and what it binds and breaks the member does; what has a type is no
//! class's name. It has definitions and laws alone.
//!
//! `specs/PlacedWays`: the path of a way, cut at the element of its list; how an expression stands;
//! the laws.
#![tactic(auto)]

mod laws;

pub use laws::{typed_are_no_classes, ways_are_walked, ways_lead_to_types};
