//! What a program declares, as a flat list in file and text order, and the faults that a single
//! declaration or a name shows: the lowest part of `jr_build`. Only this part sees trees.
//!
//! `declarations`, `gathering`, `declaration_parts`: one walk over the units makes the list. Names
//! are borrowed. A search for a kind of fault answers its earliest place, or none: `packages`,
//! `declaration_faults`, `member_words`, `twice_classes` over `key_index`.
#![tactic(auto)]

pub mod declaration_faults;
mod declaration_parts;
pub mod declarations;
pub mod gathering;
pub mod key_index;
mod member_words;
pub mod packages;
pub mod twice_classes;
