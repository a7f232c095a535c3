//! Paths of a graph: which nodes a node reaches. It stands on no crate and knows no Java.
//!
//! A [`Graph`] is a number of nodes and a list of edges. A path has at least one edge, so a node
//! reaches itself only where edges lead back to it. [`reachable`] and [`reaching`] answer for all
//! nodes at once, the latter of paths with no stop strictly between: a stop is reached, and not
//! passed. [`reached_from`] answers for one node, and [`used_after`] finds the least of some nodes
//! that it reaches. For many nodes of one graph [`rows_of_edges`] puts its edges into rows once,
//! and [`reached_in`] searches in these.
//!
//! `specs/Paths` has paths over any relation of edges, for whoever speaks of paths; `specs/Edges`
//! the edges of a list. `rows`: rows of bits, one behind the other. `filling`: the rows of a
//! graph's edges. `closure`: in passes by falling node, each row gets the rows of the nodes to
//! which its steps lead, until nothing changes. Where edges lead upwards, one pass finds all, and
//! one sees that nothing is left. `search`: the same for one row, by rising node.
#![tactic(auto)]

mod closure;
mod edge_rows;
mod filling;
mod graph;
mod paths;
mod reach;
mod reached;
mod rows;
mod search;
mod used;

pub use edge_rows::EdgeRows;
pub use graph::Graph;
pub use paths::{reachable, reaching};
pub use reach::Reach;
pub use reached::Reached;
pub use used::{reached_from, reached_in, rows_of_edges, used_after};
