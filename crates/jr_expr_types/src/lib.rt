//! The types of a member's expressions, found by paths.
//!
//! [`Types`] holds a tree with a node for each node of a member, in one vector: first what stands
//! in a node, part by part, and then the node itself, with how many slots it takes and how many
//! parts it has. So a tree is made by one walk that only puts slots behind one another (`close`
//! makes a node of the last ones), and a path is walked down without memory. It knows no names and
//! no lookup. `laws`: a path leads to a type exactly where it leads to an expression that has it.
#![tactic(auto)]

mod laws;
mod types;

pub use laws::{paths_lead_to_types, types_are_at};
pub use types::Types;
