//! Where references lead once a local is extracted: each is bound, at its place in the planned
//! trees, to the image of its declaration. One law; nothing in it runs.
//!
//! [`extracts_keep_references`]: old and new files side by side (`specs/References: FileKept`), and
//! what the statement's list has become (`InSpot`: the declaration, the statement with the name in
//! the expression's place, those behind it). Locals of the member from the made one's number on
//! have numbers one higher.
#![tactic(auto)]

mod laws;

pub use laws::extracts_keep_references;
