//! The rows of declared classes and members, and the faults that take their types to see: the upper
//! part of `jr_build`.
//!
//! `owned`, `program_rows`: the rows. Searches for a fault: `type_faults`, and `twice_members` over
//! `signatures`. `laws`, `build_laws`: where there is no fault, these are the rows of the program.
#![tactic(auto)]

pub mod build_laws;
pub mod laws;
mod owned;
pub mod program_rows;
mod signatures;
pub mod twice_members;
pub mod type_faults;
