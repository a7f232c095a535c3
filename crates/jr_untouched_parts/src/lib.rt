//! What a refactoring leaves as it was. Where it makes one list of statements of one body anew, all
//! around the list stays: the rest of the member, other members, other files. Laws; nothing in it
//! runs, so no refactoring of one member has to walk the others.
//!
//! [`extracts_are_whole`], [`inlines_are_whole`], [`inline_methods_are_whole`]: what becomes of the
//! list is what becomes of the program. The law for any transformation is `proofs/WholeProgram:
//! list_is_whole`: it owes that keys and rows stay, that places at which no local of the list is in
//! scope see what they saw, and that no spot is but the list. Then `stays` may be chosen for each
//! word outside, since no member breaks a rule. [`extracts_are_in_order`],
//! [`inlines_are_in_order`]: the list's changes are edits.
//!
//! Definitions: `specs/Sights` (what is seen from a place), `Staying` (words that may stay),
//! `Around` (the list, what is owed, what comes of the whole), `Locals`, `Methods` (the laws).
#![tactic(auto)]

mod laws;

pub use laws::{
    extracts_are_in_order, extracts_are_whole, inline_methods_are_whole, inlines_are_in_order,
    inlines_are_whole,
};
