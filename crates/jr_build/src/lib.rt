//! The table of a program, from its trees, or the first fault of its declarations. It stands on the
//! definitions of `jr_table`, adds none to what a program means, and knows no bodies.
//!
//! `builds`: a kind of fault is a line, lowest kind first; the searches stand in `jr_build_declared`,
//! `jr_build_hierarchy` and `jr_build_rows`. [`build`] may be given a table that was made before, and
//! takes it only where it has exactly these rows.
#![tactic(auto)]

mod builds;
mod faults;

pub use builds::build;
pub use faults::BuildFault;
