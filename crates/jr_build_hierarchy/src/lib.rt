//! Superclasses and member types of declared classes, and the faults of these: the middle part of
//! `jr_build`.
//!
//! `superclasses` makes a `Hierarchy` once no class has a reserved name and none is declared twice.
//! Superclasses of top-level classes are found directly (`named_parents`); those of member classes
//! in the order in which they wait for each other (`order`), and what is left in rounds until one
//! finds none. `member_types` climbs as many turns as there are numbers, since there may be cycles.
//! `meanings` has what a type's name means, `class_faults` the searches for a class without its
//! superclass and for cycles.
#![tactic(auto)]

pub mod class_faults;
mod class_numbers;
pub mod hierarchies;
pub mod meanings;
mod member_types;
mod named_parents;
mod order;
pub mod superclasses;
