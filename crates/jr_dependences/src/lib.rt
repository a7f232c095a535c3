//! Which sites of a member depend on which: the lower half of `jr_effect`, which knows no trees.
//!
//! [`dependences_of`] lists them by the first site, the second and the kind, of a row of sites and
//! the graph of the way control goes between them; [`weight_of`] sums up what they weigh, for who
//! counts their texts before keeping any. `numbers`: a row whose fields and locals are numbers, so
//! that a pair of sites takes no comparing of keys. `summing`, `by_sums`: what a site weighs with
//! those before each other one is made once for all that are alike, so that 64 second sites are one
//! step where paths lead to all of them or to none. `specs/Depends` says when one site depends on
//! another; `specs/Listed` what is listed so far. [`kind_name`] tells kinds.
#![tactic(auto)]

mod by_sums;
mod dependence;
mod kind_names;
mod kind_weights;
mod listing;
mod numbers;
mod pairs;
mod sameness;
mod stops;
mod summing;
mod together;
mod weighing;

pub use dependence::Dependence;
pub use kind_names::kind_name;
pub use listing::dependences_of;
pub use together::weight_of;
