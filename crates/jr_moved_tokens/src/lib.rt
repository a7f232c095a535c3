//! Where the tokens of a rewritten file stand: each that no change touches stands in the new text,
//! moved by the growth of the changes in front of it. Nothing in it runs.
#![tactic(auto)]

mod laws;

pub use laws::untouched_tokens_move;
