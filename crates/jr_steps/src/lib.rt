//! Counters of steps: what a call costs is told by its contract, and nothing is counted when it
//! runs.
//!
//! [`Steps`] is a number that contracts alone see; `tick` raises it by one, and no other call moves
//! it. It stands on nothing, so that readers, binding and sessions can all take one. It knows
//! nothing of Java.
#![tactic(auto)]

mod counters;

pub use counters::Steps;
