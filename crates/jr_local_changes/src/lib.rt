//! The expression that extract local moves, with its own changes: it can be cut out of its file's
//! text, and its changes lie in it, one behind the other. Laws; nothing in it runs.
//!
//! `specs/PieceChanges`: [`pieces_fit`].
#![tactic(auto)]

mod laws;

pub use laws::pieces_fit;
