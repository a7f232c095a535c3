//! A program as what is bound of its members. It knows no refactoring, and no reader of units.
//!
//! `bounds`: [`bind_members`] is one walk over the written members of a program, which binds each,
//! with the place of its written `super(..)`, and keeps what is known of it with its file, its
//! first byte and that place, one of each in their order; [`members_of_file`] finds those of a file
//! by halves. `tokens`: [`Tokens`] are a file's items with the places of its words `super`, which
//! no tree keeps; the token at a byte is found by halves; [`first_super`] finds the first such word
//! of a span in items that are lent. `laws`: members of which each is bound are known.
#![tactic(auto)]

mod bounds;
mod laws;
mod tokens;

pub use bounds::{MemberBound, bind_members, first_byte, members_of_file};
pub use laws::members_are_known;
pub use tokens::{Tokens, first_super};
