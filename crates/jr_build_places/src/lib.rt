//! The earlier of two places in the files of a program, for searches of the first fault.
#![tactic(auto)]

pub mod places;
