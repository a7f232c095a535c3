//! The members that the files of a program write, in file and text order.
//!
//! A member here is what has code or types of its own: the head of a class, a field, a method, a
//! constructor. A constructor that isn't written has a row and is none of them. A [`WrittenMember`]
//! has the number of its file, its key, the number of its row, the byte at which its parent begins,
//! and its tree. All walks over a program are loops over this list.
//!
//! `gathering` makes the list of parts in one walk over the trees; `keyed` goes along the table's
//! rows beside it, which stand in the same order, so that no key is looked up. It knows no bodies.
#![tactic(auto)]

mod gathering;
mod keyed;
mod laws;
mod parts;

pub use keyed::{WrittenMember, written_members};
pub use laws::members_are_written;
pub use parts::PartRef;
