//! Locals and parameters in scope, a list that grows and shrinks at its end (JLS 6.3), found by
//! name and by number.
//!
//! Up to eight locals are looked through from the end (`backwards`), and no map is made. From the
//! ninth on a map finds them (`indexing`), so that a method with thousands of locals isn't searched
//! for each name; once made, it stays. Each local keeps the places of the last ones before it that
//! have its name and its number, so that these are found again once it is gone (`restoring`).
//!
//! Contracts see the list (`specs/Tracked: locals_of`) and ask for `Tracked`, which says that each
//! local knows those before it and that the map tells of this list. It is no invariant of the type,
//! since a change that lacks memory may stop in the middle.
#![tactic(auto)]

mod backwards;
mod helds;
mod indexing;
mod locals;
mod numbers;
mod restoring;

pub use helds::{Held, HeldType};
pub use locals::Locals;
