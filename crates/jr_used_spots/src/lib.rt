//! That spots are used: what is among the changes of each plan, whatever else it does. Laws;
//! nothing in it runs.
//!
//! [`extracts_put`]: a declaration in front of the statement. [`inlines_take_away`]: the declaration
//! of the local goes. Where a spot stands in a file nothing is rewritten node by node (`jr_rewrite:
//! Spots`), so that it is met on the way to its list.
//!
//! Definitions: `specs/Plans`.
#![tactic(auto)]

mod laws;

pub use laws::{extracts_put, inlines_take_away};
