//! The graph of a way: which sites may be met directly behind one another.
//!
//! A way comes as a row of shapes, each behind its parts ([`Shape`]), so that no call stands on the
//! native stack for a piece in another. [`graph`] goes through them with a stack of pieces
//! (`machine`, `pieces`): of each it has the sites that can be met first, last, and last before the
//! member is left. An edge is written where two pieces meet, in the order in which `jr_cover: Flows`
//! has them, so that what is written is that list. It knows no trees.
#![tactic(auto)]

mod edges;
mod loops;
mod machine;
mod pieces;
mod shapes;

pub use machine::{Edges, graph};
pub use shapes::Shape;
