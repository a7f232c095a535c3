//! Locals of one program that hold what another program evaluates later: definitions and laws
//! alone, over resolved code (`jr_runs`), as nothing in it is executed.
//!
//! `specs/Held`: the local holds what reads locals alone, and is read anywhere. `Footprint`: what
//! code without calls, checks and loops reads, writes and accesses. `Places`: where an expression
//! stands in a statement list, and what is done before it. The laws stand on functions that do
//! nothing.
#![tactic(auto)]

mod laws;

pub use laws::held_locals_keep_runs;
