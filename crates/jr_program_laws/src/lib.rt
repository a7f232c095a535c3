//! Laws of whole programs; nothing is run by them.
//!
//! `place_laws`, in units whose marks are spans: at one byte of a file of a program without faults
//! one declaration is bound at most (`one_is_bound`); what a member or the head of a class binds
//! and breaks stands in it, and a written `super(..)` has one place (`parts_are_placed`,
//! `files_have_parts`); classes and members stand one behind the other (`files_are_in_order`); two
//! items that begin at one byte are one (`items_begin_once`).
//!
//! `type_laws`: in a program without faults of declarations each name in a type that a member
//! declares, and in a superclass, finds its class by the rows (`declared_types_are_found`): what
//! written types mean by declarations is what lookup finds by rows.
#![tactic(auto)]

mod place_laws;
mod type_laws;

pub use place_laws::{
    files_are_in_order, files_have_parts, items_begin_once, one_is_bound, parts_are_placed,
};
pub use type_laws::declared_types_are_found;
