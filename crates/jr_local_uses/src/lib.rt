//! Why inline local is refused at a local that a statement declares: where the local is named behind
//! its declaration, and whether its initializer only reads locals. It makes no text and moves
//! nothing.
//!
//! `places`: the bytes of the references to a local, in their order (`specs/LocalPlaces`).
//! `namings`: [`local_namings`], where a declared local is named (`specs/LocalNamings`). `plain`:
//! [`path_of`], the path of an expression of a body, and [`reads_alone`], whether one only reads
//! locals (`specs/PlainValues`). `uses`: [`inline_found`], the local at a place with its names, or
//! the first refusal of inline local (`specs/Inlines`).
#![tactic(auto)]

mod namings;
mod places;
mod plain;
mod uses;

pub use namings::{Head, declaration_head, local_namings, written_at};
pub use plain::{member_in, path_of, reads_alone};
pub use uses::{InlineFound, inline_found};
